// Pending items, in the order in which they were evaluated.
ghost use Rattle.std.specs.Prelude.{◌≡◌, ◌-◌, ◌≤◌, ◌<◌, length};
ghost use Rattle.stores.specs.View.{rec_at};
ghost use Rattle.stores.specs.Pending.{pushed_if_room};
ghost use Rattle.stores.specs.Stores.{pending_in, BecameRun};
ghost use Rattle.stores.specs.Lent.{SameSlices, StoresBecame, StoresTried};
ghost use Rattle.rules.specs.Store.{dropped};

use crate::lent::Stores;
use crate::run::Run;
use rules::Value;
use slots::{put_slot, value_of};

// The pending items that there are at most.
const MOST_PENDING: u64 = 512;

// One pending item more; false where there are 512.
pub fn push(stores: &mut Stores, v: Value) -> bool
    ensures store { StoresTried result (pushed_if_room v) stores.old stores.new }
    ensures bytes { stores.new.bytes.now ≡ stores.old.bytes.now }
    ensures same { SameSlices stores.old stores.new }
{
    let count = stores.run.pending;
    if MOST_PENDING <= count {
        return false;
    }
    put_slot(stores.words, 768 + 2 * count as usize, v);
    stores.run.pending = count + 1;
    true
}

// Pending item i.
pub fn pending_at(words: &[u64], i: usize) -> Value
    requires { (i < 512) × (8192 ≤ length words.now) }
    ensures { result ≡ pending_in (rec_at 768 2 i words.now) }
{
    value_of(words[769 + 2 * i], words[768 + 2 * i])
}

// The same of the stores that a run works on.
pub fn pending_of(stores: &Stores, i: usize) -> Value
    requires { i < 512 }
    ensures { result ≡ pending_in (rec_at 768 2 i stores.now.words.now) }
{
    pending_at(stores.words, i)
}

// How many are pending from `from` on.
pub fn pending_since(stores: &Stores, from: u64) -> u64
    ensures { result ≡ stores.now.run.pending - from }
{
    let count = stores.run.pending;
    if from < count { count - from } else { 0 }
}

// Those past the first `count` given back, where the run's numbers stand alone.
pub fn keep_pending(run: &mut Run, count: u64)
    ensures { BecameRun (dropped count) run.old run.new }
{
    if count < run.pending {
        run.pending = count;
    }
}

// Those past the first `count` given back.
pub fn drop_pending(stores: &mut Stores, count: u64)
    ensures store { StoresBecame (dropped count) stores.old stores.new }
    ensures words { stores.new.words.now ≡ stores.old.words.now }
    ensures bytes { stores.new.bytes.now ≡ stores.old.bytes.now }
    ensures same { SameSlices stores.old stores.new }
{
    keep_pending(&mut stores.run, count);
}
