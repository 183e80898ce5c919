// The entries of an object that is being built, in the cells after its head.
#![tactic(auto)]

ghost use Rattle.std.specs.Prelude.{◌≡◌, ◌+◌, ◌≤◌, ◌<◌, length, drop};
ghost use Rattle.std.proofs.lemmas.List.Edits.{sets};
ghost use Rattle.stores.specs.Finding.{found_of};
ghost use Rattle.stores.specs.View.{rec_at};
ghost use Rattle.entries.specs.Entries.{keys_in, key_at, EntryPut};

use packed::image::Image;
use stores::run::MOST_CELLS;
use texts::same_part;

// The cell that has a key, from cell `from` up to `to`, which are all entries.
fn find_key(image: &Image, words: &[u64], from: usize, to: usize, key: u64) -> Option<usize>
    requires { (to ≤ 1024) × (8192 ≤ length words.now) }
    ensures { result ≡ found_of (key_at image.now.bytes.now image.now.header key from (drop from (keys_in to words.now))) }
{
    // A copy, as in `boxes::entry_at`.
    let image = &Image {
        bytes: image.bytes,
        header: image.header,
    };
    for i in from..to {
        if same_part(image, words[1795 + 4 * i], key) {
            return Some(i);
        }
    }
    None
}

// The pending item `at` copied to the words at `to`, past all that is pending.
fn copy_pending(words: &mut [u64], at: usize, to: usize)
    requires { (at < 512) × (1792 ≤ to) × (to + 2 ≤ length words.old) }
    ensures { words.new ≡ sets words.old to (rec_at 768 2 at words.old) }
{
    let from = 768 + 2 * at;
    words[to] = words[from];
    words[to + 1] = words[from + 1];
}

// The pending item `at` entered under a key: in place of the value that the key has, or in the next cell, `end`. Gives where the object then ends; none where
// there is no cell left.
pub fn put_entry(
    image: &Image,
    words: &mut [u64],
    head: usize,
    end: usize,
    key: u64,
    at: usize,
) -> Option<usize>
    requires { (head < end) × (end ≤ 1024) × (at < 512) × (8192 ≤ length words.old) }
    ensures { EntryPut image.now.bytes.now image.now.header head end key at result words.old words.new }
{
    if let Some(i) = find_key(image, words, head + 1, end, key) {
        copy_pending(words, at, 1792 + 4 * i);
        return Some(end);
    }
    if MOST_CELLS <= end as u64 {
        return None;
    }
    let to = 1792 + 4 * end;
    copy_pending(words, at, to);
    words[to + 2] = 4 * head as u64 + 2;
    words[to + 3] = key;
    Some(end + 1)
}
