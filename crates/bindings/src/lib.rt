// Scopes and their bindings, as scopes.rs has them: a scope is the bindings from a number on.
#![tactic(auto)]

ghost use Rattle.std.specs.Prelude.{◌≡◌, ◌+◌, ◌-◌, ◌≤◌, ◌<◌, length, drop};
ghost use Rattle.rules.specs.Store.{last_of, rebound, declared, opened, emptied, closed};
ghost use Rattle.bindings.specs.Scopes.{Sought, BoundAt, first_bindings, arguments_bound, broken_out, call_ended, Copied};
ghost use Rattle.stores.specs.Finding.{found_of};
ghost use Rattle.stores.specs.Lent.{SameSlices, StoresBecame, StoresTried};
ghost use Rattle.stores.specs.Stores.{bindings_in};

use rules::Value;
use slots::{put_slot, value_of};
use stores::lent::{Shared, Stores};
use stores::pending::{drop_pending, pending_since};

// The last binding of a name, from number `from` up to `to`.
fn last_of(words: &[u64], name: u64, from: usize, to: usize) -> Option<usize>
    requires { (to ≤ 256) × (8192 ≤ length words.now) }
    ensures { result ≡ found_of (last_of name from (drop from (bindings_in to words.now))) }
{
    for i in (from..to).rev() {
        if words[3 * i + 2] == name {
            return Some(i);
        }
    }
    None
}

// The same up to the last of all.
fn bound_from(stores: &Stores, name: u16, from: u64) -> Option<usize>
    ensures { result ≡ found_of (last_of name from (drop from (bindings_in stores.now.run.bound stores.now.words.now))) }
{
    last_of(
        stores.words,
        name as u64,
        from as usize,
        stores.run.bound as usize,
    )
}

// A name, from the innermost scope outward to the called function's argument scope.
pub fn look_up(stores: &Shared, name: u16) -> Option<usize>
    ensures { Sought result stores.now.run.now stores.now.words.now name }
{
    last_of(
        stores.words,
        name as u64,
        stores.run.floor as usize,
        stores.run.bound as usize,
    )
}

// The value of binding i; unit where there is none, as the rules' `bound_at` has it.
pub fn bound_at(stores: &Shared, i: usize) -> Value
    ensures { BoundAt result stores.now.run.now stores.now.words.now i }
{
    if i < stores.run.bound as usize {
        return value_of(stores.words[3 * i + 1], stores.words[3 * i]);
    }
    Value::Unit
}

// Another value for binding i, if there is one.
pub fn rebind(stores: &mut Stores, i: usize, v: Value)
    ensures store { StoresBecame (λ σ. rebound σ i v) stores.old stores.new }
    ensures run { stores.new.run ≡ stores.old.run }
    ensures bytes { stores.new.bytes.now ≡ stores.old.bytes.now }
    ensures same { SameSlices stores.old stores.new }
{
    if i < stores.run.bound as usize {
        put_slot(stores.words, 3 * i, v);
    }
}

// The bindings that there are at most.
const MOST_BINDINGS: u64 = 256;

// A name bound in the innermost scope: a binding of that scope is replaced; false where a new one would be the 257th.
pub fn declare(stores: &mut Stores, name: u16, v: Value) -> bool
    ensures store { StoresTried result (λ σ. declared σ name v) stores.old stores.new }
    ensures bytes { stores.new.bytes.now ≡ stores.old.bytes.now }
    ensures same { SameSlices stores.old stores.new }
{
    let innermost = stores.run.scope;
    let count = stores.run.bound;
    let bound = count as usize;
    if let Some(at) = bound_from(stores, name, innermost) {
        put_slot(stores.words, 3 * at, v);
        return true;
    }
    if MOST_BINDINGS <= count {
        return false;
    }
    put_slot(stores.words, 3 * bound, v);
    stores.words[3 * bound + 2] = name as u64;
    stores.run.bound = count + 1;
    true
}

// A scope opened.
pub fn open(stores: &mut Stores)
    ensures store { StoresBecame opened stores.old stores.new }
    ensures words { stores.new.words.now ≡ stores.old.words.now }
    ensures bytes { stores.new.bytes.now ≡ stores.old.bytes.now }
    ensures same { SameSlices stores.old stores.new }
{
    stores.run.scope = stores.run.bound;
}

// The bindings past the first `count` given back.
fn keep(stores: &mut Stores, count: u64)
    ensures store { StoresBecame (first_bindings count) stores.old stores.new }
    ensures words { stores.new.words.now ≡ stores.old.words.now }
    ensures bytes { stores.new.bytes.now ≡ stores.old.bytes.now }
    ensures same { SameSlices stores.old stores.new }
{
    if count < stores.run.bound {
        stores.run.bound = count;
    }
}

// The innermost scope emptied.
pub fn empty(stores: &mut Stores)
    ensures store { StoresBecame emptied stores.old stores.new }
    ensures words { stores.new.words.now ≡ stores.old.words.now }
    ensures bytes { stores.new.bytes.now ≡ stores.old.bytes.now }
    ensures same { SameSlices stores.old stores.new }
{
    let scope = stores.run.scope;
    keep(stores, scope);
}

// The innermost scope closed; the one before it begins at `scope`.
pub fn close(stores: &mut Stores, scope: u64)
    ensures store { StoresBecame (closed scope) stores.old stores.new }
    ensures words { stores.new.words.now ≡ stores.old.words.now }
    ensures bytes { stores.new.bytes.now ≡ stores.old.bytes.now }
    ensures same { SameSlices stores.old stores.new }
{
    let from = stores.run.scope;
    break_out(stores, scope, from);
}

// Every scope from binding `from` on dropped, as a break leaves them; the one before begins at `scope`.
pub fn break_out(stores: &mut Stores, scope: u64, from: u64)
    ensures store { StoresBecame (broken_out scope from) stores.old stores.new }
    ensures words { stores.new.words.now ≡ stores.old.words.now }
    ensures bytes { stores.new.bytes.now ≡ stores.old.bytes.now }
    ensures same { SameSlices stores.old stores.new }
{
    keep(stores, from);
    stores.run.scope = scope;
}

// A call's arguments, the pending items from `from` on, bound to consecutive names from `first` on in a scope of their own, below which no name is sought; all
// or, where there would be more than 256 bindings, none.
pub fn bind_arguments(stores: &mut Stores, first: u16, from: u64) -> bool
    ensures store { StoresTried result (arguments_bound first from) stores.old stores.new }
    ensures bytes { stores.new.bytes.now ≡ stores.old.bytes.now }
    ensures same { SameSlices stores.old stores.new }
{
    let bound = stores.run.bound;
    let count = pending_since(stores, from);
    if MOST_BINDINGS < bound + count {
        return false;
    }
    copy_arguments(
        stores.words,
        bound as usize,
        first as u64,
        from as usize,
        count as usize,
    );
    stores.run.scope = bound;
    stores.run.floor = bound;
    stores.run.bound = bound + count;
    true
}

// The pending items from `from` on copied to the bindings from `bound` on.
fn copy_arguments(words: &mut [u64], bound: usize, first: u64, from: usize, count: usize)
    requires { (bound + count ≤ 256) × (count ≤ 512 - from) × (first < 65536) × (8192 ≤ length words.old) }
    ensures { Copied bound first from count words.old words.new }
{
    for i in 0..count {
        let at = 768 + 2 * (from + i);
        let payload = words[at];
        let kind = words[at + 1];
        let to = 3 * (bound + i);
        words[to] = payload;
        words[to + 1] = kind;
        words[to + 2] = first + i as u64;
    }
}

// A call ended: its argument scope closed, its arguments no longer pending, and the caller's scope and floor as they were.
pub fn end_call(stores: &mut Stores, scope: u64, floor: u64, pending: u64)
    ensures store { StoresBecame (call_ended scope floor pending) stores.old stores.new }
    ensures words { stores.new.words.now ≡ stores.old.words.now }
    ensures bytes { stores.new.bytes.now ≡ stores.old.bytes.now }
    ensures same { SameSlices stores.old stores.new }
{
    close(stores, scope);
    stores.run.floor = floor;
    drop_pending(stores, pending);
}
