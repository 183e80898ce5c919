// What decl, set, assign, break and let conditions do with the value of their one operand.
#![tactic(auto)]

ghost use Rattle.std.specs.Prelude.{◌≡◌, [], ◌∷◌};
ghost use Rattle.packed.specs.Layout.{node_at};
ghost use Rattle.rules.specs.Machine.{Ctl, Frame, kind_of};
ghost use Rattle.outcomes.specs.Lent.{StoresPost, StoresAfter};
ghost use Rattle.operands.specs.Waiting.{waiting, operand_of};
ghost use Rattle.outcomes.specs.Outcomes.{IsNode, written_of, bound_of};
ghost use Rattle.stores.specs.Lent.{SameSlices};

use bindings::declare;
use outcomes::Outcome;
use packed::image::Image;
use packed::layout::Node;
use rules::{Refusal, Refused, Value};
use stores::lent::Stores;
use targets::{assign_target, set_target};

// The operand's node.
pub fn operand_of(node: Node) -> u16
    ensures { result ≡ operand_of (kind_of node.kind) node }
{
    // Told by the kind's number: see `kinds`.
    match node.kind {
        3 => node.a,
        4 => node.b,
        5 => node.b,
        12 => node.a,
        _ => 0,
    }
}

// "Set, assign and decl give unit": set's and assign's outcome.
fn written(x: Result<(), Refused>) -> Outcome
    ensures { result ≡ written_of x }
{
    Outcome::from(x.map(|()| Value::Unit))
}

// "A 257th live binding is 10", at the decl or let condition. No conversion of a bool alone: the node and the value go into it.
fn bound(kept: bool, n: u16, v: Value) -> Outcome
    ensures { result ≡ bound_of kept n v }
{
    if kept {
        return Outcome::Done(v);
    }
    Outcome::Refused(Refusal::Bindings, n)
}

fn use_operand(image: &Image, stores: &mut Stores, n: u16, v: Value) -> Outcome
    requires { IsNode image.now.bytes.now image.now.header n }
    ensures store { StoresPost image.now.bytes.now image.now.header (Ctl.ret v) (waiting (kind_of (node_at image.now.bytes.now image.now.header n).kind) n) stores.old stores.new result }
    ensures bytes { stores.new.bytes.now ≡ stores.old.bytes.now }
    ensures same { SameSlices stores.old stores.new }
{
    let node = image.node(n as usize);
    // Told by the kind's number: see `kinds`.
    match node.kind {
        3 => bound(declare(stores, node.tag, v), n, Value::Unit),
        4 => written(set_target(image, stores, node.a, v)),
        5 => written(assign_target(image, stores, n, node.op, node.a, v)),
        12 => Outcome::Broke(n, v),
        _ => Outcome::Done(v),
    }
}

// After the operand of node n.
pub fn finish_operand(image: &Image, stores: &mut Stores, n: u16, one: Outcome) -> Outcome
    requires { IsNode image.now.bytes.now image.now.header n }
    ensures store { StoresAfter image.now.bytes.now image.now.header (waiting (kind_of (node_at image.now.bytes.now image.now.header n).kind) n) one stores.old stores.new result }
    ensures bytes { stores.new.bytes.now ≡ stores.old.bytes.now }
    ensures same { SameSlices stores.old stores.new }
{
    match one {
        Outcome::Done(v) => use_operand(image, stores, n, v),
        _ => one,
    }
}

// After the value of let condition c, which "always holds".
pub fn finish_let(image: &Image, stores: &mut Stores, c: u16, one: Outcome) -> Outcome
    requires { IsNode image.now.bytes.now image.now.header c }
    ensures store { StoresAfter image.now.bytes.now image.now.header (Frame.let_of c ∷ []) one stores.old stores.new result }
    ensures bytes { stores.new.bytes.now ≡ stores.old.bytes.now }
    ensures same { SameSlices stores.old stores.new }
{
    let Outcome::Done(v) = one else {
        return one;
    };
    let node = image.node(c as usize);
    if node.op == 0 {
        return Outcome::Done(Value::Bool(true));
    }
    bound(declare(stores, node.tag, v), c, Value::Bool(true))
}
