// Targets, as interpreter.rs has them: what a name, a field or an index names, read, set and assigned.
#![tactic(auto)]

ghost use Rattle.std.specs.Prelude.{◌≡◌, ◌<◌, Ok};
ghost use Rattle.packed.specs.Layout.{node_at};
ghost use Rattle.rules.specs.Store.{sought, item_at, as_object, as_items};
ghost use Rattle.rules.specs.Targets.{name_place, field_place, index_in, index_place, read_at, read_target, target_read, target_place, target_set, target_assigned};
ghost use Rattle.stores.specs.Lent.{SameSlices, StoresBecame};
ghost use Rattle.targets.specs.Reading.{IsTarget, Placed, Gets, assigned_value, put_in, field_set, StoresWrote};

use bindings::{bound_at, look_up, rebind};
use boxes::{cell_at, enter_field, entry_at, item_at, store_cell};
use numbers::{OpError, assign_int};
use packed::image::Image;
use rules::{Place, Refusal, Refused, Value};
use slots::literals::key_of;
use stores::lent::{Shared, Stores};

fn name_place(stores: &Shared, at: u16, name: u16) -> Result<Place, Refused>
    ensures { Placed result (λ σ. name_place at (sought σ name)) stores.now.run.now stores.now.words.now }
{
    match look_up(stores, name) {
        Some(i) => Ok(Place::Binding(i)),
        None => Err(Refused {
            why: Refusal::MissingName,
            place: at,
        }),
    }
}

// The field of v whose key is literal l.
fn field_place(image: &Image, stores: &Shared, at: u16, l: u16, v: Value) -> Result<Place, Refused>
    requires { (l < image.now.header.literals) }
    ensures { Placed result (λ σ. field_place image.now.bytes.now image.now.header σ at l (as_object v)) stores.now.run.now stores.now.words.now }
{
    let Value::Object(owner) = v else {
        return Err(Refused {
            why: Refusal::ExpectedType,
            place: at,
        });
    };
    match entry_at(image, stores, owner, key_of(image, l)) {
        Some(i) => Ok(Place::Cell(i)),
        None => Ok(Place::Absent(owner)),
    }
}

// The item of v of that index.
fn index_place(stores: &Shared, at: u16, index: u16, v: Value) -> Result<Place, Refused>
    ensures { Placed result (λ σ. index_place σ at index (as_items v)) stores.now.run.now stores.now.words.now }
{
    let (Value::Vec(owner) | Value::Tuple(owner)) = v else {
        return Err(Refused {
            why: Refusal::ExpectedType,
            place: at,
        });
    };
    match item_at(stores, owner, index) {
        Some(i) => Ok(Place::Cell(i)),
        None => Err(Refused {
            why: Refusal::MissingIndex,
            place: at,
        }),
    }
}

// What stands at a place that is read: an absent field is 21.
fn read_at(stores: &Shared, at: u16, place: Place) -> Result<Value, Refused>
    ensures { Gets result (λ σ. read_at σ at (Ok place)) stores.now.run.now stores.now.words.now }
{
    match place {
        Place::Binding(i) => Ok(bound_at(stores, i)),
        Place::Cell(i) => Ok(cell_at(stores, i)),
        Place::Absent(_) => Err(Refused {
            why: Refusal::MissingField,
            place: at,
        }),
    }
}

// The target at node t, of fewer than `most` parts.
fn read_most(image: &Image, stores: &Shared, most: u8, t: u16) -> Result<Value, Refused>
    requires { IsTarget image.now.bytes.now image.now.header t }
    ensures { Gets result (λ σ. read_target image.now.bytes.now image.now.header σ most t) stores.now.run.now stores.now.words.now }
{
    if most == 0 {
        return Err(Refused {
            why: Refusal::ExpectedType,
            place: t,
        });
    }
    let node = image.node(t as usize);
    // Told by the kind's number: see `kinds`.
    if node.kind == 21 {
        let place = name_place(stores, t, node.tag)?;
        return read_at(stores, t, place);
    }
    let v = read_most(image, stores, most - 1, node.a)?;
    if node.kind == 22 {
        let place = field_place(image, stores, node.a, node.b, v)?;
        return read_at(stores, node.a, place);
    }
    let place = index_place(stores, t, node.b, v)?;
    read_at(stores, t, place)
}

// What the target at node t gives.
pub fn get_target(image: &Image, stores: &Shared, t: u16) -> Result<Value, Refused>
    requires { IsTarget image.now.bytes.now image.now.header t }
    ensures { Gets result (λ σ. target_read image.now.bytes.now image.now.header σ t) stores.now.run.now stores.now.words.now }
{
    read_most(image, stores, 65, t)
}

// Where the target at node t stands when it is written: what stands before its last part is read.
fn target_place(image: &Image, stores: &Shared, t: u16) -> Result<Place, Refused>
    requires { IsTarget image.now.bytes.now image.now.header t }
    ensures { Placed result (λ σ. target_place image.now.bytes.now image.now.header σ t) stores.now.run.now stores.now.words.now }
{
    let node = image.node(t as usize);
    // Told by the kind's number: see `kinds`.
    if node.kind == 21 {
        return name_place(stores, t, node.tag);
    }
    let v = get_target(image, stores, node.a)?;
    if node.kind == 22 {
        return field_place(image, stores, t, node.b, v);
    }
    index_place(stores, t, node.b, v)
}

// A value put at a place; a field that is absent has none.
fn put_at(stores: &mut Stores, place: Place, v: Value)
    ensures store { StoresBecame (put_in place v) stores.old stores.new }
    ensures run { stores.new.run ≡ stores.old.run }
    ensures bytes { stores.new.bytes.now ≡ stores.old.bytes.now }
    ensures same { SameSlices stores.old stores.new }
{
    match place {
        Place::Binding(i) => rebind(stores, i, v),
        Place::Cell(i) => store_cell(stores, i, v),
        Place::Absent(_) => {}
    }
}

// A field that its object does not have, entered: target t is a field.
fn set_field(
    image: &Image,
    stores: &mut Stores,
    t: u16,
    owner: u32,
    v: Value,
) -> Result<(), Refused>
    requires { IsTarget image.now.bytes.now image.now.header t × ((node_at image.now.bytes.now image.now.header t).kind ≡ 22) }
    ensures store { StoresWrote result (field_set image.now.bytes.now image.now.header t owner v) stores.old stores.new }
    ensures bytes { stores.new.bytes.now ≡ stores.old.bytes.now }
    ensures same { SameSlices stores.old stores.new }
{
    let node = image.node(t as usize);
    if enter_field(stores, owner, key_of(image, node.b), v) {
        return Ok(());
    }
    Err(Refused {
        why: Refusal::Cells,
        place: t,
    })
}

// Any value put at the target t; a field that is absent is entered.
pub fn set_target(image: &Image, stores: &mut Stores, t: u16, v: Value) -> Result<(), Refused>
    requires { IsTarget image.now.bytes.now image.now.header t }
    ensures store { StoresWrote result (λ σ. target_set image.now.bytes.now image.now.header σ t v) stores.old stores.new }
    ensures bytes { stores.new.bytes.now ≡ stores.old.bytes.now }
    ensures same { SameSlices stores.old stores.new }
{
    let place = target_place(image, &stores.shared(), t)?;
    if let Place::Absent(owner) = place {
        return set_field(image, stores, t, owner, v);
    }
    put_at(stores, place, v);
    Ok(())
}

// What assign n puts in place of an old value.
fn assign_value(n: u16, op: u8, old: Value, v: Value) -> Result<Value, Refused>
    ensures { result ≡ assigned_value n op old v }
{
    let operands = Refused {
        why: Refusal::Operands,
        place: n,
    };
    let Value::Signed(x) = old else {
        return Err(operands);
    };
    let Value::Signed(y) = v else {
        return Err(operands);
    };
    match assign_int(op, x, y) {
        Ok(z) => Ok(Value::Signed(z)),
        Err(OpError::Arithmetic(why)) => Err(Refused {
            why: Refusal::Arithmetic(why),
            place: n,
        }),
        Err(_) => Err(operands),
    }
}

// Assign n: what stands at the target t and v are signed, and the operation's result is put there.
pub fn assign_target(
    image: &Image,
    stores: &mut Stores,
    n: u16,
    op: u8,
    t: u16,
    v: Value,
) -> Result<(), Refused>
    requires { IsTarget image.now.bytes.now image.now.header t }
    ensures store { StoresWrote result (λ σ. target_assigned image.now.bytes.now image.now.header σ n op t v) stores.old stores.new }
    ensures run { stores.new.run ≡ stores.old.run }
    ensures bytes { stores.new.bytes.now ≡ stores.old.bytes.now }
    ensures same { SameSlices stores.old stores.new }
{
    let place = target_place(image, &stores.shared(), t)?;
    let old = read_at(&stores.shared(), t, place)?;
    let new = assign_value(n, op, old, v)?;
    put_at(stores, place, new);
    Ok(())
}
