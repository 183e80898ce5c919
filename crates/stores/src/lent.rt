// What a run works on: the lent words and bytes, and the run's numbers.
ghost use Rattle.std.specs.Prelude.{◌≡◌, length};
ghost use Rattle.stores.specs.Stores.{Fits};

use crate::run::Run;

#[derive(Drop)]
pub struct Stores<'a> {
    pub words: &'a mut [u64],
    pub bytes: &'a mut [u8],
    pub run: Run,
    // no region holds more than it has room for
    pub ghost fits: { Fits run words.now },
    pub ghost room: { length bytes.now ≡ 16384 },
}

// The same by shared loans, for what only reads: whoever calls it may hold other loans of them.
#[derive(Clone, Copy)]
pub struct Shared<'a> {
    pub words: &'a [u64],
    pub bytes: &'a [u8],
    pub run: &'a Run,
    pub ghost fits: { Fits run.now words.now },
    pub ghost room: { length bytes.now ≡ 16384 },
}

impl Stores<'_> {
    // Lent to what only reads.
    pub fn shared(&self) -> Shared<'_>
        ensures words { result.words.now ≡ self.now.words.now }
        ensures bytes { result.bytes.now ≡ self.now.bytes.now }
        ensures run { result.run.now ≡ self.now.run }
    {
        Shared {
            words: self.words,
            bytes: self.bytes,
            run: &self.run,
        }
    }
}
