// Vec, tuple and object: a head, and items or entries that say whose they are. A cell is four words: its value's payload and kind, what it is and whose,
// and an entry's key.
#![tactic(auto)]

ghost use Rattle.std.specs.Prelude.{◌≡◌, ◌+◌, ◌-◌, ◌*◌, ◌≤◌, ◌<◌, length};
ghost use Rattle.rules.specs.Store.{stored_at};
ghost use Rattle.boxes.specs.Cells.{CountIn, ItemAt, EntryAt, CellAt, is_entry, items_taken, field_entered, head_words, CopiedItems};
ghost use Rattle.stores.specs.Lent.{SameSlices, StoresBecame, StoresTried};
ghost use Rattle.std.proofs.lemmas.List.Edits.{sets};

use packed::image::Image;
use rules::Value;
use slots::{put_slot, value_of};
use stores::lent::{Shared, Stores};
use stores::pending::{drop_pending, pending_since};
use stores::run::MOST_CELLS;
use texts::same_part;

// The count of a vec or tuple; 0 where the cell is no head, as the rules' `count_in` has it.
pub fn count_in(stores: &Shared, owner: usize) -> u64
    ensures { CountIn result stores.now.run.now stores.now.words.now owner }
{
    if owner < stores.run.cells as usize && stores.words[1794 + 4 * owner] % 4 == 0 {
        return stores.words[1792 + 4 * owner];
    }
    0
}

// The cell of an item of a vec or tuple.
pub fn item_at(stores: &Shared, owner: u32, index: u16) -> Option<usize>
    ensures { ItemAt result stores.now.run.now stores.now.words.now owner index }
{
    let head = owner as usize;
    if (index as u64) < count_in(stores, head) {
        return Some(head + 1 + index as usize);
    }
    None
}

// The value of cell i; unit where it is none or a head, as the rules' `cell_at` has it.
pub fn cell_at(stores: &Shared, i: usize) -> Value
    ensures { CellAt result stores.now.run.now stores.now.words.now i }
{
    if i < stores.run.cells as usize && stores.words[1794 + 4 * i] % 4 != 0 {
        return value_of(stores.words[1793 + 4 * i], stores.words[1792 + 4 * i]);
    }
    Value::Unit
}

// Another value for cell i, if it is an item or an entry.
pub fn store_cell(stores: &mut Stores, i: usize, v: Value)
    ensures store { StoresBecame (λ σ. stored_at σ i v) stores.old stores.new }
    ensures run { stores.new.run ≡ stores.old.run }
    ensures bytes { stores.new.bytes.now ≡ stores.old.bytes.now }
    ensures same { SameSlices stores.old stores.new }
{
    if i < stores.run.cells as usize && stores.words[1794 + 4 * i] % 4 != 0 {
        put_slot(stores.words, 1792 + 4 * i, v);
    }
}

// Whether cell i is the owner's entry with that key, by content.
#[inline(always)]
fn is_entry(image: &Image, words: &[u64], i: usize, owner: u32, key: u64) -> bool
    requires { (i < 1024) × (8192 ≤ length words.now) }
    ensures { result ≡ is_entry image.now.bytes.now image.now.header owner key words.now i }
{
    let what = words[1794 + 4 * i];
    2 <= what % 4 && what / 4 == owner as u64 && same_part(image, words[1795 + 4 * i], key)
}

// The entry of an object with that key.
pub fn entry_at(image: &Image, stores: &Shared, owner: u32, key: u64) -> Option<usize>
    ensures { EntryAt result image.now.bytes.now image.now.header stores.now.run.now stores.now.words.now owner key }
{
    // A copy, so that the header stays in registers while the cells are gone through.
    let image = &Image {
        bytes: image.bytes,
        header: image.header,
    };
    for i in 0..stores.run.cells as usize {
        if is_entry(image, stores.words, i, owner, key) {
            return Some(i);
        }
    }
    None
}

// A head of so many items as cell i.
pub fn put_head(words: &mut [u64], i: usize, count: u64)
    requires { (i < 1024) × (8192 ≤ length words.old) }
    ensures { words.new ≡ sets words.old (1792 + 4 * i) (head_words count) }
{
    let at = 1792 + 4 * i;
    words[at] = count;
    words[at + 1] = 0;
    words[at + 2] = 0;
    words[at + 3] = 0;
}

// A new field of an object, in one cell; false where there is none left.
pub fn enter_field(stores: &mut Stores, owner: u32, key: u64, v: Value) -> bool
    ensures store { StoresTried result (field_entered owner key v) stores.old stores.new }
    ensures bytes { stores.new.bytes.now ≡ stores.old.bytes.now }
    ensures same { SameSlices stores.old stores.new }
{
    let cells = stores.run.cells;
    if MOST_CELLS <= cells {
        return false;
    }
    let at = 1792 + 4 * cells as usize;
    put_slot(stores.words, at, v);
    stores.words[at + 2] = 4 * owner as u64 + 2;
    stores.words[at + 3] = key;
    stores.run.cells = cells + 1;
    true
}

// The pending items from `from` on copied to the cells after the head, as its items.
fn copy_items(words: &mut [u64], head: usize, from: usize, count: usize)
    requires { (head + 1 + count ≤ 1024) × (count ≤ 512 - from) × (8192 ≤ length words.old) }
    ensures { CopiedItems head from count words.old words.new }
{
    for n in 0..count {
        let at = 1792 + 4 * (head + 1 + n);
        words[at] = words[768 + 2 * (from + n)];
        words[at + 1] = words[769 + 2 * (from + n)];
        words[at + 2] = 4 * head as u64 + 1;
        words[at + 3] = 0;
    }
}

// A vec or tuple of the pending items from `from` on, which are given back: its head is the first cell that was free. All its cells or, where there are not so
// many left, none.
pub fn take_items(stores: &mut Stores, from: u64) -> bool
    ensures store { StoresTried result (items_taken from) stores.old stores.new }
    ensures bytes { stores.new.bytes.now ≡ stores.old.bytes.now }
    ensures same { SameSlices stores.old stores.new }
{
    let head = stores.run.cells;
    let count = pending_since(stores, from);
    if MOST_CELLS < head + 1 + count {
        return false;
    }
    put_head(stores.words, head as usize, count);
    copy_items(stores.words, head as usize, from as usize, count as usize);
    stores.run.cells = head + 1 + count;
    drop_pending(stores, from);
    true
}
