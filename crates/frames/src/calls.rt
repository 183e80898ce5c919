// A function's body, entered and left.
ghost use Rattle.std.specs.Prelude.{◌≡◌, [], ◌∷◌};
ghost use Rattle.packed.specs.Layout.{function_at, node_at};
ghost use Rattle.rules.specs.Machine.{Frame};
ghost use Rattle.building.specs.Making.{IsKind};
ghost use Rattle.outcomes.specs.Lent.{StoresEveryAfter};
ghost use Rattle.frames.specs.Calls.{CallEntered};
ghost use Rattle.stores.specs.Lent.{SameSlices};

use bindings::{bind_arguments, end_call};
use outcomes::Outcome;
use packed::image::Image;
use packed::layout::Function;
use rules::Refusal;
use std::ops::ControlFlow;
use stores::lent::Stores;
use stores::pending::pending_since;

// The function that node n calls.
pub fn function_of(image: &Image, n: u16) -> Function
    requires { IsKind 16 image.now.bytes.now image.now.header n }
    ensures { result ≡ function_at image.now.bytes.now (node_at image.now.bytes.now image.now.header n).tag }
{
    let node = image.node(n as usize);
    image.function(node.tag as usize)
}

// "Call: arguments first, then the count (24), then their bindings (10), then the body".
pub fn enter_call(image: &Image, stores: &mut Stores, n: u16, from: u64) -> ControlFlow<Outcome>
    requires { IsKind 16 image.now.bytes.now image.now.header n }
    ensures store { CallEntered image.now.bytes.now image.now.header n from stores.old stores.new result }
    ensures bytes { stores.new.bytes.now ≡ stores.old.bytes.now }
    ensures same { SameSlices stores.old stores.new }
{
    let function = function_of(image, n);
    if pending_since(stores, from) != u64::from(function.count) {
        return ControlFlow::Break(Outcome::Refused(Refusal::ArgumentCount, n));
    }
    if bind_arguments(stores, function.first, from) {
        return ControlFlow::Continue(());
    }
    ControlFlow::Break(Outcome::Refused(Refusal::Bindings, n))
}

// After the body, with the caller's scope, floor and pending: "A break that reaches a body .. is 13".
pub fn leave_call(stores: &mut Stores, scope: u64, floor: u64, from: u64, one: Outcome) -> Outcome
    ensures store { StoresEveryAfter (Frame.call_of scope floor from ∷ []) one stores.old stores.new result }
    ensures words { stores.new.words.now ≡ stores.old.words.now }
    ensures bytes { stores.new.bytes.now ≡ stores.old.bytes.now }
    ensures same { SameSlices stores.old stores.new }
{
    match one {
        Outcome::Done(v) => {
            end_call(stores, scope, floor, from);
            Outcome::Done(v)
        }
        Outcome::Broke(b, _) => Outcome::Refused(Refusal::BreakOutside, b),
        _ => one,
    }
}
