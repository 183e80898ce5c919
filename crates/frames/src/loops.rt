// What a condition tells, and what a pass through a loop's body leaves to do.
ghost use Rattle.std.specs.Prelude.{◌≡◌};
ghost use Rattle.outcomes.specs.Outcomes.{IsNode, IsBreak};
ghost use Rattle.frames.specs.Loops.{told_of, BreakSeen, PassOver};
ghost use Rattle.stores.specs.Lent.{SameSlices};

use bindings::break_out;
use outcomes::Outcome;
use packed::image::Image;
use rules::{Refusal, Value};
use std::ops::ControlFlow;
use stores::lent::Stores;

// What the condition at node c told: "A condition that isn't bool is 15".
pub fn told(c: u16, one: Outcome) -> ControlFlow<Outcome, bool>
    ensures { result ≡ told_of c one }
{
    let Outcome::Done(v) = one else {
        return ControlFlow::Break(one);
    };
    let Value::Bool(holds) = v else {
        return ControlFlow::Break(Outcome::Refused(Refusal::NotBool, c));
    };
    ControlFlow::Continue(holds)
}

// Break b reaches the body of loop n: "ends the loop if the labels are equal"; "A value from a break is the loop's, but 14 if there is a condition".
fn caught(
    image: &Image,
    stores: &mut Stores,
    n: u16,
    b: u16,
    v: Value,
    scope: u64,
    from: u64,
) -> Outcome
    requires { IsNode image.now.bytes.now image.now.header n × IsNode image.now.bytes.now image.now.header b }
    ensures store { BreakSeen image.now.bytes.now image.now.header n b v scope from stores.old stores.new result }
    ensures words { stores.new.words.now ≡ stores.old.words.now }
    ensures bytes { stores.new.bytes.now ≡ stores.old.bytes.now }
    ensures same { SameSlices stores.old stores.new }
{
    let outer = image.node(n as usize);
    let inner = image.node(b as usize);
    if inner.tag != outer.tag {
        return Outcome::Broke(b, v);
    }
    if inner.a != 0 && outer.a != 0 {
        return Outcome::Refused(Refusal::BreakWithValue, n);
    }
    break_out(stores, scope, from);
    Outcome::Done(v)
}

// After a pass through the body of loop n, whose own scope begins at `from` and the one before it at `scope`.
pub fn after_pass(
    image: &Image,
    stores: &mut Stores,
    n: u16,
    scope: u64,
    from: u64,
    one: Outcome,
) -> ControlFlow<Outcome>
    requires { IsNode image.now.bytes.now image.now.header n × IsBreak image.now.bytes.now image.now.header one }
    ensures store { PassOver image.now.bytes.now image.now.header n scope from one stores.old stores.new result }
    ensures words { stores.new.words.now ≡ stores.old.words.now }
    ensures bytes { stores.new.bytes.now ≡ stores.old.bytes.now }
    ensures same { SameSlices stores.old stores.new }
{
    match one {
        Outcome::Done(_) => ControlFlow::Continue(()),
        Outcome::Broke(b, v) => ControlFlow::Break(caught(image, stores, n, b, v, scope, from)),
        _ => ControlFlow::Break(one),
    }
}
