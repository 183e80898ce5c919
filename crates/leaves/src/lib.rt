// Expressions that evaluate no other: names, literals, and targets that are read.
#![tactic(auto)]

ghost use Rattle.rules.specs.Machine.{Ctl};
ghost use Rattle.building.specs.Making.{IsKind};
ghost use Rattle.outcomes.specs.Post.{Gives};

use bindings::{bound_at, look_up};
use outcomes::Outcome;
use packed::image::Image;
use rules::Refusal;
use slots::literals::literal_value;
use stores::lent::Shared;
use targets::get_target;

pub fn eval_name(image: &Image, stores: &Shared, n: u16, depth: u16) -> Outcome
    requires { IsKind 7 image.now.bytes.now image.now.header n }
    ensures { Gives image.now.bytes.now image.now.header (Ctl.work n depth) stores.now.run.now stores.now.words.now result }
{
    let node = image.node(n as usize);
    match look_up(stores, node.tag) {
        Some(i) => Outcome::Done(bound_at(stores, i)),
        None => Outcome::Refused(Refusal::MissingName, n),
    }
}

pub fn eval_read(image: &Image, stores: &Shared, n: u16, depth: u16) -> Outcome
    requires { IsKind 8 image.now.bytes.now image.now.header n }
    ensures { Gives image.now.bytes.now image.now.header (Ctl.work n depth) stores.now.run.now stores.now.words.now result }
{
    let node = image.node(n as usize);
    Outcome::from(get_target(image, stores, node.a))
}

pub fn eval_value(image: &Image, stores: &Shared, n: u16, depth: u16) -> Outcome
    requires { IsKind 9 image.now.bytes.now image.now.header n }
    ensures { Gives image.now.bytes.now image.now.header (Ctl.work n depth) stores.now.run.now stores.now.words.now result }
{
    let node = image.node(n as usize);
    Outcome::Done(literal_value(image, node.a))
}
