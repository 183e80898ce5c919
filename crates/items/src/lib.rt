// An item accepted, and what is built when all items are there.
#![tactic(auto)]

ghost use Rattle.std.specs.Prelude.{◌≡◌};
ghost use Rattle.packed.specs.Layout.{node_at};
ghost use Rattle.rules.specs.Machine.{item_node};
ghost use Rattle.items.specs.Gathering.{Builds};
ghost use Rattle.outcomes.specs.Outcomes.{IsNode, got_of};
ghost use Rattle.items.specs.Items.{Judges, Accepted, ItemOver, Built};
ghost use Rattle.stores.specs.Lent.{SameSlices};

use building::{judge_component, make_items, make_object, make_template};
use outcomes::Outcome;
use packed::image::Image;
use rules::{Refusal, Value};
use std::ops::ControlFlow;
use stores::lent::Stores;
use stores::pending::{drop_pending, push};

// The kind of an object.
const OBJECT: u8 = 15;

// The expression of an item: an entry's value, or the item itself.
pub fn item_node(image: &Image, n: u16, i: u16) -> u16
    requires { IsNode image.now.bytes.now image.now.header n × IsNode image.now.bytes.now image.now.header i }
    ensures { result ≡ item_node image.now.bytes.now image.now.header n i }
{
    let node = image.node(n as usize);
    if node.kind == OBJECT {
        let entry = image.node(i as usize);
        return entry.b;
    }
    i
}

// The kind of a template.
const TEMPLATE: u8 = 6;

// "each component is judged as soon as it is evaluated", by the kind of the node whose item it is.
fn judge(kind: u8, v: Value) -> Result<(), Refusal>
    ensures { Judges kind v result }
{
    if kind == TEMPLATE {
        return judge_component(v);
    }
    Ok(())
}

// The value of item i judged and left pending: "the 513th is 11 at once".
fn accept(image: &Image, stores: &mut Stores, n: u16, i: u16, v: Value) -> ControlFlow<Outcome>
    requires { IsNode image.now.bytes.now image.now.header n }
    ensures store { Accepted image.now.bytes.now image.now.header n i v stores.old stores.new result }
    ensures bytes { stores.new.bytes.now ≡ stores.old.bytes.now }
    ensures same { SameSlices stores.old stores.new }
{
    let node = image.node(n as usize);
    if let Err(why) = judge(node.kind, v) {
        return ControlFlow::Break(Outcome::Refused(why, i));
    }
    if push(stores, v) {
        return ControlFlow::Continue(());
    }
    ControlFlow::Break(Outcome::Refused(Refusal::Pending, n))
}

// After item i; a break that leaves it gives back what is pending since `from`.
pub fn finish_item(
    image: &Image,
    stores: &mut Stores,
    n: u16,
    i: u16,
    from: u64,
    one: Outcome,
) -> ControlFlow<Outcome>
    requires { IsNode image.now.bytes.now image.now.header n }
    ensures store { ItemOver image.now.bytes.now image.now.header n i from one stores.old stores.new result }
    ensures bytes { stores.new.bytes.now ≡ stores.old.bytes.now }
    ensures same { SameSlices stores.old stores.new }
{
    match one {
        Outcome::Done(v) => accept(image, stores, n, i, v),
        Outcome::Broke(b, v) => {
            drop_pending(stores, from);
            ControlFlow::Break(Outcome::Broke(b, v))
        }
        _ => ControlFlow::Break(one),
    }
}

// Vec, tuple, object and template of the items that are pending from `from` on.
pub fn build(image: &Image, stores: &mut Stores, n: u16, from: u64) -> Outcome
    requires { IsNode image.now.bytes.now image.now.header n × Builds (node_at image.now.bytes.now image.now.header n).kind }
    ensures store { Built image.now.bytes.now image.now.header n from stores.old stores.new result }
    ensures same { SameSlices stores.old stores.new }
{
    let node = image.node(n as usize);
    // Told by the kind's number: see `kinds`.
    match node.kind {
        6 => {
            let words = &mut *stores.words;
            let made = make_template(image, words, stores.bytes, &mut stores.run, n, from);
            Outcome::from(made)
        }
        13 => Outcome::from(make_items(stores, n, from).map(Value::Vec)),
        14 => Outcome::from(make_items(stores, n, from).map(Value::Tuple)),
        15 => Outcome::from(make_object(image, stores.words, &mut stores.run, n, from)),
        _ => Outcome::Refused(Refusal::NotConst, n),
    }
}
