// The run's numbers: the takes that are left, and how far the parts of the stores are in use.
#[derive(Clone, Copy, Debug, PartialEq, Eq)]
pub struct Run {
    pub takes: u64,
    // the bindings that there are; the innermost scope begins at `scope`, and no name is sought below `floor`
    pub bound: u64,
    pub scope: u64,
    pub floor: u64,
    pub pending: u64,
    pub cells: u64,
    // the bytes that were built
    pub text: u64,
}

// The cells that there are at most.
pub const MOST_CELLS: u64 = 1024;
