// Entering a node: depth first, then its takes.
#![tactic(auto)]

ghost use Rattle.std.specs.Prelude.{◌≡◌, cond, ◌≤◌};
ghost use Rattle.rules.specs.Machine.{Ctl, kind_of, takes_more};
ghost use Rattle.entering.specs.Entering.{Took, Entered, BodyEntered, Shallow};
ghost use Rattle.stores.specs.Lent.{SameSlices};

use outcomes::Outcome;
use packed::image::Image;
use rules::Refusal;
use std::ops::ControlFlow;
use stores::lent::Stores;
use stores::run::Run;

// "scope, binary, decl, set, assign, template, loop and break take once more"
#[tactic(auto, using(crate::proofs::EnterLaws::takes_by_lem))]
fn takes_of(kind: u8) -> u64
    ensures { result ≡ cond (takes_more (kind_of kind)) 2 1 }
{
    // Told by the kind's number: see `kinds`.
    match kind {
        1..=6 => 2,
        11..=12 => 2,
        _ => 1,
    }
}

// "Depth: .. 129 is 7"; then so many takes at node n, of which those that are left are taken where there are not enough.
#[tactic(auto, using(crate::specs::Entering::took, crate::specs::Entering::deep, crate::specs::Entering::spent))]
fn take(run: &mut Run, n: u16, depth: u16, takes: u64) -> ControlFlow<Outcome>
    ensures { Took n depth takes run.old run.new result }
{
    if 128 < depth {
        return ControlFlow::Break(Outcome::Refused(Refusal::Depth, n));
    }
    let left = run.takes;
    if left < takes {
        run.takes = 0;
        return ControlFlow::Break(Outcome::Spent(n));
    }
    run.takes = left - takes;
    ControlFlow::Continue(())
}

// "Entering an expression or body tests depth, then takes once", and eight kinds once more.
pub fn enter_expr(image: &Image, stores: &mut Stores, n: u16, depth: u16) -> ControlFlow<Outcome>
    requires { (1 ≤ n) × (n ≤ image.now.header.nodes) }
    ensures store { Entered image.now.bytes.now image.now.header (Ctl.enter n depth) n depth stores.old stores.new result }
    ensures words { stores.new.words.now ≡ stores.old.words.now }
    ensures bytes { stores.new.bytes.now ≡ stores.old.bytes.now }
    ensures same { SameSlices stores.old stores.new }
{
    let node = image.node(n as usize);
    let takes = takes_of(node.kind);
    take(&mut stores.run, n, depth, takes)
}

// "A scope that is an arm's, a default, or a loop's body takes once in all", whatever the image.
pub fn enter_body(run: &mut Run, n: u16, depth: u16) -> ControlFlow<Outcome>
    ensures machine { BodyEntered n depth run.old run.new result }
    ensures shallow { Shallow depth result }
{
    take(run, n, depth, 1)
}
