// What stands in the stores and the output at entry. It differs from case to case by its first item.

// What stores and outputs are filled with: each item is followed by another.
pub trait Pattern: Copy + PartialEq {
    fn first(n: u64) -> Self;

    fn next(self) -> Self;
}

// Odd, so that 256 bytes on end differ.
const BYTE_STEP: u8 = 37;

impl Pattern for u8 {
    fn first(n: u64) -> u8 {
        (n % 256) as u8
    }

    fn next(self) -> u8 {
        self.wrapping_add(BYTE_STEP)
    }
}

// Odd and large, so that no two words are equal and all their bytes change.
const WORD_STEP: u64 = 0x9E3779B97F4A7C15;

impl Pattern for u64 {
    fn first(n: u64) -> u64 {
        n
    }

    fn next(self) -> u64 {
        self.wrapping_add(WORD_STEP)
    }
}

pub fn fill<T: Pattern>(items: &mut [T], first: u64) {
    let mut pattern = T::first(first);
    for item in items.iter_mut() {
        *item = pattern;
        pattern = pattern.next();
    }
}

// Whether the items begin with these, and are as they were filled from there on.
pub fn begins<T: Pattern>(items: &[T], start: &[T], first: u64) -> bool {
    let mut pattern = T::first(first);
    for (i, item) in items.iter().enumerate() {
        let due = start.get(i).copied().unwrap_or(pattern);
        if *item != due {
            return false;
        }
        pattern = pattern.next();
    }
    start.len() <= items.len()
}
