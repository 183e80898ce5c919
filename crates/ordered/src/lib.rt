// The entries of an object by ascending key: none is moved, and the next one is sought anew among all cells.
#![tactic(auto)]

ghost use Rattle.std.specs.Prelude.{◌≡◌, ◌≤◌, ◌<◌, length};
ghost use Rattle.ordered.specs.Ordered.{is_owned, EntryCount, KeyAt, Precedes, IsAfter, FirstOf, BetterOf, NextEntry};

use packed::image::Image;
use stores::lent::Shared;
use texts::ascending_part;

// Whether cell i is an entry of the owner.
fn is_owned(words: &[u64], i: usize, owner: u32) -> bool
    requires { (i < 1024) × (8192 ≤ length words.now) }
    ensures { result ≡ is_owned owner words.now i }
{
    let what = words[1794 + 4 * i];
    2 <= what % 4 && what / 4 == owner as u64
}

// How many entries an object has.
pub fn count_entries(stores: &Shared, owner: u32) -> u64
    ensures { EntryCount result stores.now.run.now stores.now.words.now owner }
{
    let mut count = 0;
    for i in 0..stores.run.cells as usize {
        if is_owned(stores.words, i, owner) {
            count += 1;
        }
    }
    count
}

// The key of cell i; 0 where it is no entry, as `key_in` has it of any cell.
pub fn key_at(stores: &Shared, i: usize) -> u64
    ensures { KeyAt result stores.now.run.now stores.now.words.now i }
{
    if i < stores.run.cells as usize && 2 <= stores.words[1794 + 4 * i] % 4 {
        return stores.words[1795 + 4 * i];
    }
    0
}

// Whether cell i is written before cell j: by their keys and, where these are equal, by their numbers.
fn precedes(image: &Image, stores: &Shared, i: usize, j: usize) -> bool
    ensures { Precedes result image.now.bytes.now image.now.header stores.now.run.now stores.now.words.now i j }
{
    let a = key_at(stores, i);
    let b = key_at(stores, j);
    if i < j {
        return ascending_part(image, a, b);
    }
    !ascending_part(image, b, a)
}

// Whether cell j is written after the last one; where there is none, any is.
fn is_after(image: &Image, stores: &Shared, last: Option<usize>, j: usize) -> bool
    ensures { IsAfter result image.now.bytes.now image.now.header stores.now.run.now stores.now.words.now last j }
{
    let Some(i) = last else {
        return true;
    };
    precedes(image, stores, i, j)
}

// Of cell i and the best so far, the one that is written first.
fn first_of(image: &Image, stores: &Shared, i: usize, best: Option<usize>) -> Option<usize>
    ensures { FirstOf result image.now.bytes.now image.now.header stores.now.run.now stores.now.words.now i best }
{
    let Some(j) = best else {
        return Some(i);
    };
    if precedes(image, stores, i, j) {
        return Some(i);
    }
    Some(j)
}

// The best so far with cell i looked at as well, if it is an entry of the owner and after the last one.
fn better_of(
    image: &Image,
    stores: &Shared,
    owner: u32,
    last: Option<usize>,
    i: usize,
    best: Option<usize>,
) -> Option<usize>
    requires { i < stores.now.run.now.cells }
    ensures { BetterOf result image.now.bytes.now image.now.header stores.now.run.now stores.now.words.now owner last i best }
{
    if is_owned(stores.words, i, owner) && is_after(image, stores, last, i) {
        return first_of(image, stores, i, best);
    }
    best
}

// The entry of an object that is written after the last one, or first of all where there is none.
pub fn next_entry(image: &Image, stores: &Shared, owner: u32, last: Option<usize>) -> Option<usize>
    ensures { NextEntry result image.now.bytes.now image.now.header stores.now.run.now stores.now.words.now owner last }
{
    let mut best = None;
    for i in (0..stores.run.cells as usize).rev() {
        best = better_of(image, stores, owner, last, i, best);
    }
    best
}
