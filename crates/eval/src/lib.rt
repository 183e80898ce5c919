// eval.rs: the evaluators, which call one another. Each goes as the machine of the rules goes from its own control; only those that call back stand here.
#![tactic(auto)]

ghost use Rattle.std.specs.Prelude.{◌≡◌, [], ◌∷◌, ◌+◌, ◌≤◌};
ghost use Rattle.packed.specs.Layout.{node_at};
ghost use Rattle.rules.specs.Machine.{Ctl, Frame, kind_of, onward as onward_from};
ghost use Rattle.stores.specs.Lent.{SameSlices};
ghost use Rattle.outcomes.specs.Post.{Falls};
ghost use Rattle.outcomes.specs.Lent.{StoresPost, StoresAdvance};
ghost use Rattle.outcomes.specs.Outcomes.{IsNode};
ghost use Rattle.operands.specs.Waiting.{Single, operand_of};
ghost use Rattle.items.specs.Gathering.{Builds, Gathers, IsItem};

use binary::finish_binary;
use bindings::{close, empty, open};
use building::onward;
use entering::{enter_body, enter_expr};
use frames::calls::{enter_call, function_of, leave_call};
use frames::loops::{after_pass, told};
use frames::scopes::leave_scope;
use items::{build, finish_item, item_node};
use leaves::{eval_name, eval_read, eval_value};
use operands::{finish_let, finish_operand, operand_of};
use outcomes::Outcome;
use packed::image::Image;
use rules::{Refusal, Value};
use std::ops::ControlFlow;
use stores::lent::Stores;

// An expression or a function's body.
#[cycle(evaluators)]
pub fn ir_expr(image: &Image, stores: &mut Stores, n: u16, depth: u16) -> Outcome
    requires { IsNode image.now.bytes.now image.now.header n }
    ensures store { StoresPost image.now.bytes.now image.now.header (Ctl.enter n depth) [] stores.old stores.new result }
    ensures same { SameSlices stores.old stores.new }
{
    let entered = enter_expr(image, stores, n, depth);
    match entered {
        ControlFlow::Continue(()) => ir_work(image, stores, n, depth),
        ControlFlow::Break(r) => r,
    }
}

// A scope that is an arm's, a default or a loop's body.
#[cycle(evaluators)]
fn ir_body(image: &Image, stores: &mut Stores, n: u16, depth: u16) -> Outcome
    requires { IsNode image.now.bytes.now image.now.header n }
    ensures store { StoresPost image.now.bytes.now image.now.header (Ctl.enter_body n depth) [] stores.old stores.new result }
    ensures same { SameSlices stores.old stores.new }
{
    let entered = enter_body(&mut stores.run, n, depth);
    match entered {
        ControlFlow::Continue(()) => ir_work(image, stores, n, depth),
        ControlFlow::Break(r) => r,
    }
}

// A node after its takes, by its kind, which is matched as the number that the image has.
#[cycle(evaluators)]
fn ir_work(image: &Image, stores: &mut Stores, n: u16, depth: u16) -> Outcome
    requires { IsNode image.now.bytes.now image.now.header n × (depth ≤ 128) }
    ensures store { StoresPost image.now.bytes.now image.now.header (Ctl.work n depth) [] stores.old stores.new result }
    ensures same { SameSlices stores.old stores.new }
{
    let node = image.node(n as usize);
    let kind = node.kind;
    match kind {
        1 => ir_scope(image, stores, n, depth),
        2 => ir_binary(image, stores, n, depth),
        3..=5 => ir_operand(image, stores, n, depth),
        6 | 13..=15 => ir_build(image, stores, n, depth),
        7 => eval_name(image, &stores.shared(), n, depth),
        8 => eval_read(image, &stores.shared(), n, depth),
        9 => eval_value(image, &stores.shared(), n, depth),
        10 => ir_branches(image, stores, n, depth),
        11 => ir_loop(image, stores, n, depth),
        12 => {
            if node.a == 0 {
                return Outcome::Broke(n, Value::Unit);
            }
            ir_operand(image, stores, n, depth)
        }
        16 => ir_call(image, stores, n, depth),
        _ => Outcome::Refused(Refusal::NotConst, n),
    }
}

// Its instructions one after the other, then its last expression.
#[cycle(evaluators)]
fn ir_scope(image: &Image, stores: &mut Stores, n: u16, depth: u16) -> Outcome
    requires { IsNode image.now.bytes.now image.now.header n × (depth ≤ 128) × ((node_at image.now.bytes.now image.now.header n).kind ≡ 1) }
    ensures store { StoresPost image.now.bytes.now image.now.header (Ctl.work n depth) [] stores.old stores.new result }
    ensures same { SameSlices stores.old stores.new }
{
    let node = image.node(n as usize);
    let scope = stores.run.scope;
    open(stores);
    let mut i = node.a;
    // A chain ends at 0 and is walked by its links: there is no index to count.
    while i != 0 {
        let one = ir_expr(image, stores, i, depth + 1);
        let Outcome::Done(_) = one else {
            return one;
        };
        i = onward(image.node(i as usize), i);
    }
    ir_last(image, stores, n, depth, scope)
}

// The last expression of a scope, or unit; the scope before it begins at `scope`.
#[cycle(evaluators)]
fn ir_last(image: &Image, stores: &mut Stores, n: u16, depth: u16, scope: u64) -> Outcome
    requires { IsNode image.now.bytes.now image.now.header n × (depth ≤ 128) × ((node_at image.now.bytes.now image.now.header n).kind ≡ 1) }
    ensures store { StoresPost image.now.bytes.now image.now.header (Ctl.instructions n 0 depth scope) [] stores.old stores.new result }
    ensures same { SameSlices stores.old stores.new }
{
    let node = image.node(n as usize);
    if node.b == 0 {
        close(stores, scope);
        return Outcome::Done(Value::Unit);
    }
    let one = ir_expr(image, stores, node.b, depth + 1);
    leave_scope(stores, scope, one)
}

#[cycle(evaluators)]
fn ir_binary(image: &Image, stores: &mut Stores, n: u16, depth: u16) -> Outcome
    requires { IsNode image.now.bytes.now image.now.header n × (depth ≤ 128) × ((node_at image.now.bytes.now image.now.header n).kind ≡ 2) }
    ensures store { StoresPost image.now.bytes.now image.now.header (Ctl.work n depth) [] stores.old stores.new result }
    ensures same { SameSlices stores.old stores.new }
{
    let node = image.node(n as usize);
    let first = ir_expr(image, stores, node.a, depth + 1);
    let Outcome::Done(left) = first else {
        return first;
    };
    let second = ir_expr(image, stores, node.b, depth + 1);
    finish_binary(image, stores, n, left, second)
}

// A decl, set, assign or break, whose one operand is evaluated first.
#[cycle(evaluators)]
fn ir_operand(image: &Image, stores: &mut Stores, n: u16, depth: u16) -> Outcome
    requires { IsNode image.now.bytes.now image.now.header n × (depth ≤ 128) × Single (node_at image.now.bytes.now image.now.header n).kind × (operand_of (kind_of (node_at image.now.bytes.now image.now.header n).kind) (node_at image.now.bytes.now image.now.header n) ≡ 0 → ⊥) }
    ensures store { StoresPost image.now.bytes.now image.now.header (Ctl.work n depth) [] stores.old stores.new result }
    ensures same { SameSlices stores.old stores.new }
{
    let operand = operand_of(image.node(n as usize));
    let one = ir_expr(image, stores, operand, depth + 1);
    finish_operand(image, stores, n, one)
}

// The items of a vec, tuple, object, call or template; those before its own are the first `from` that are pending.
#[cycle(evaluators)]
fn ir_items(
    image: &Image,
    stores: &mut Stores,
    n: u16,
    depth: u16,
    from: u64,
) -> ControlFlow<Outcome>
    requires { IsNode image.now.bytes.now image.now.header n × (depth ≤ 128) × Gathers (node_at image.now.bytes.now image.now.header n).kind }
    ensures store { StoresAdvance image.now.bytes.now image.now.header (Ctl.items n (node_at image.now.bytes.now image.now.header n).a depth from) [] (Ctl.items n 0 depth from) [] stores.old stores.new result }
    ensures same { SameSlices stores.old stores.new }
{
    let mut i = image.node(n as usize).a;
    // A chain, as in `ir_scope`.
    while i != 0 {
        ir_item(image, stores, n, i, depth, from)?;
        i = onward(image.node(i as usize), i);
    }
    ControlFlow::Continue(())
}

// One item; a text part of a template is none.
#[cycle(evaluators)]
fn ir_item(
    image: &Image,
    stores: &mut Stores,
    n: u16,
    i: u16,
    depth: u16,
    from: u64,
) -> ControlFlow<Outcome>
    requires { IsNode image.now.bytes.now image.now.header n × (depth ≤ 128) × IsItem image.now.bytes.now image.now.header n i }
    ensures store { StoresAdvance image.now.bytes.now image.now.header (Ctl.items n i depth from) [] (Ctl.items n (onward_from image.now.bytes.now image.now.header i) depth from) [] stores.old stores.new result }
    ensures same { SameSlices stores.old stores.new }
{
    let item = image.node(i as usize);
    // Told by the kind's number: see `kinds`.
    if item.kind == 17 {
        return ControlFlow::Continue(());
    }
    let inner = item_node(image, n, i);
    let one = ir_expr(image, stores, inner, depth + 1);
    finish_item(image, stores, n, i, from, one)
}

// A vec, tuple, object or template.
#[cycle(evaluators)]
fn ir_build(image: &Image, stores: &mut Stores, n: u16, depth: u16) -> Outcome
    requires { IsNode image.now.bytes.now image.now.header n × (depth ≤ 128) × Builds (node_at image.now.bytes.now image.now.header n).kind }
    ensures store { StoresPost image.now.bytes.now image.now.header (Ctl.work n depth) [] stores.old stores.new result }
    ensures same { SameSlices stores.old stores.new }
{
    let from = stores.run.pending;
    let all = ir_items(image, stores, n, depth, from);
    match all {
        ControlFlow::Continue(()) => build(image, stores, n, from),
        ControlFlow::Break(r) => r,
    }
}

#[cycle(evaluators)]
fn ir_call(image: &Image, stores: &mut Stores, n: u16, depth: u16) -> Outcome
    requires { IsNode image.now.bytes.now image.now.header n × (depth ≤ 128) × ((node_at image.now.bytes.now image.now.header n).kind ≡ 16) }
    ensures store { StoresPost image.now.bytes.now image.now.header (Ctl.work n depth) [] stores.old stores.new result }
    ensures same { SameSlices stores.old stores.new }
{
    let from = stores.run.pending;
    let all = ir_items(image, stores, n, depth, from);
    match all {
        ControlFlow::Continue(()) => ir_called(image, stores, n, depth, from),
        ControlFlow::Break(r) => r,
    }
}

// The body of the function that node n calls, once its arguments are there.
#[cycle(evaluators)]
fn ir_called(image: &Image, stores: &mut Stores, n: u16, depth: u16, from: u64) -> Outcome
    requires { IsNode image.now.bytes.now image.now.header n × (depth ≤ 128) × ((node_at image.now.bytes.now image.now.header n).kind ≡ 16) }
    ensures store { StoresPost image.now.bytes.now image.now.header (Ctl.items n 0 depth from) [] stores.old stores.new result }
    ensures same { SameSlices stores.old stores.new }
{
    let scope = stores.run.scope;
    let floor = stores.run.floor;
    let entered = enter_call(image, stores, n, from);
    if let ControlFlow::Break(r) = entered {
        return r;
    }
    let function = function_of(image, n);
    let one = ir_expr(image, stores, function.body, depth + 1);
    leave_call(stores, scope, floor, from, one)
}

// A condition of an expression at that depth.
#[cycle(evaluators)]
fn ir_condition(image: &Image, stores: &mut Stores, c: u16, depth: u16) -> Outcome
    requires { IsNode image.now.bytes.now image.now.header c × (depth ≤ 128) }
    ensures store { StoresPost image.now.bytes.now image.now.header (Ctl.test c depth) [] stores.old stores.new result }
    ensures same { SameSlices stores.old stores.new }
{
    let node = image.node(c as usize);
    // Told by the kind's number: see `kinds`.
    if node.kind != 20 {
        return ir_expr(image, stores, c, depth + 1);
    }
    let one = ir_expr(image, stores, node.a, depth + 1);
    finish_let(image, stores, c, one)
}

// Arm i of node n, in a scope of its own: out with its body's value where its condition holds, else on to the next.
#[cycle(evaluators)]
fn ir_arm(image: &Image, stores: &mut Stores, n: u16, i: u16, depth: u16) -> ControlFlow<Outcome>
    requires { IsNode image.now.bytes.now image.now.header i × (depth ≤ 128) × ((node_at image.now.bytes.now image.now.header i).kind ≡ 18) }
    ensures store { StoresAdvance image.now.bytes.now image.now.header (Ctl.arms n i depth) [] (Ctl.arms n (onward_from image.now.bytes.now image.now.header i) depth) [] stores.old stores.new result }
    ensures same { SameSlices stores.old stores.new }
{
    let arm = image.node(i as usize);
    let scope = stores.run.scope;
    open(stores);
    let one = ir_condition(image, stores, arm.a, depth);
    let holds = told(arm.a, one)?;
    if holds {
        let taken = ir_taken(image, stores, arm.b, depth + 1, scope);
        return ControlFlow::Break(taken);
    }
    close(stores, scope);
    ControlFlow::Continue(())
}

// The body of an arm that is taken; the scope before the arm's begins at `scope`.
#[cycle(evaluators)]
fn ir_taken(image: &Image, stores: &mut Stores, n: u16, depth: u16, scope: u64) -> Outcome
    requires { IsNode image.now.bytes.now image.now.header n }
    ensures store { StoresPost image.now.bytes.now image.now.header (Ctl.enter_body n depth) (Frame.end_of scope ∷ []) stores.old stores.new result }
    ensures same { SameSlices stores.old stores.new }
{
    let one = ir_body(image, stores, n, depth);
    leave_scope(stores, scope, one)
}

#[cycle(evaluators)]
fn ir_branches(image: &Image, stores: &mut Stores, n: u16, depth: u16) -> Outcome
    requires { IsNode image.now.bytes.now image.now.header n × (depth ≤ 128) × ((node_at image.now.bytes.now image.now.header n).kind ≡ 10) }
    ensures store { StoresPost image.now.bytes.now image.now.header (Ctl.work n depth) [] stores.old stores.new result }
    ensures same { SameSlices stores.old stores.new }
{
    let mut i = image.node(n as usize).a;
    // A chain, as in `ir_scope`.
    while i != 0 {
        let one = ir_arm(image, stores, n, i, depth);
        if let ControlFlow::Break(r) = one {
            return r;
        }
        i = onward(image.node(i as usize), i);
    }
    ir_default(image, stores, n, depth)
}

// "no arm and no default gives unit"
#[cycle(evaluators)]
fn ir_default(image: &Image, stores: &mut Stores, n: u16, depth: u16) -> Outcome
    requires { IsNode image.now.bytes.now image.now.header n × (depth ≤ 128) × ((node_at image.now.bytes.now image.now.header n).kind ≡ 10) }
    ensures store { StoresPost image.now.bytes.now image.now.header (Ctl.arms n 0 depth) [] stores.old stores.new result }
    ensures same { SameSlices stores.old stores.new }
{
    let node = image.node(n as usize);
    if node.b == 0 {
        return Outcome::Done(Value::Unit);
    }
    ir_body(image, stores, node.b, depth + 1)
}

#[cycle(evaluators)]
fn ir_loop(image: &Image, stores: &mut Stores, n: u16, depth: u16) -> Outcome
    requires { IsNode image.now.bytes.now image.now.header n × (depth ≤ 128) × ((node_at image.now.bytes.now image.now.header n).kind ≡ 11) }
    ensures store { StoresPost image.now.bytes.now image.now.header (Ctl.work n depth) [] stores.old stores.new result }
    ensures same { SameSlices stores.old stores.new }
{
    let scope = stores.run.scope;
    open(stores);
    loop {
        let one = ir_turn(image, stores, n, depth, scope);
        if let ControlFlow::Break(r) = one {
            return r;
        }
    }
}

// A turn of loop n, "emptied before each condition"; the scope before its own begins at `scope`.
#[cycle(evaluators)]
fn ir_turn(
    image: &Image,
    stores: &mut Stores,
    n: u16,
    depth: u16,
    scope: u64,
) -> ControlFlow<Outcome>
    requires { IsNode image.now.bytes.now image.now.header n × (depth ≤ 128) × ((node_at image.now.bytes.now image.now.header n).kind ≡ 11) }
    ensures store { StoresAdvance image.now.bytes.now image.now.header (Ctl.turn n depth scope) [] (Ctl.turn n depth scope) [] stores.old stores.new result × Falls result stores.old.run stores.new.run }
    ensures same { SameSlices stores.old stores.new }
{
    let node = image.node(n as usize);
    if node.a == 0 {
        return ir_pass(image, stores, n, depth, scope);
    }
    empty(stores);
    let one = ir_condition(image, stores, node.a, depth);
    let holds = told(node.a, one)?;
    if holds {
        return ir_pass(image, stores, n, depth, scope);
    }
    close(stores, scope);
    ControlFlow::Break(Outcome::Done(Value::Unit))
}

// A pass through the body of loop n.
#[cycle(evaluators)]
fn ir_pass(
    image: &Image,
    stores: &mut Stores,
    n: u16,
    depth: u16,
    scope: u64,
) -> ControlFlow<Outcome>
    requires { IsNode image.now.bytes.now image.now.header n × (depth ≤ 128) × ((node_at image.now.bytes.now image.now.header n).kind ≡ 11) }
    ensures store { StoresAdvance image.now.bytes.now image.now.header (Ctl.enter_body (node_at image.now.bytes.now image.now.header n).b (depth + 1)) (Frame.body_of n depth scope stores.old.run.scope ∷ []) (Ctl.turn n depth scope) [] stores.old stores.new result × Falls result stores.old.run stores.new.run }
    ensures same { SameSlices stores.old stores.new }
{
    let node = image.node(n as usize);
    let from = stores.run.scope;
    let one = ir_body(image, stores, node.b, depth + 1);
    after_pass(image, stores, n, scope, from, one)
}
