// What the evaluation of an expression comes to, and what an evaluator promises of it (`Post`, in specs/).
// Part of an expression answers a `ControlFlow<Outcome>`: it goes on, or breaks off with the outcome of the whole expression.
#![tactic(auto)]

ghost use Rattle.std.specs.Prelude.{◌≡◌};
ghost use Rattle.outcomes.specs.Outcomes.{got_of};

use rules::{Refusal, Refused, Value};

// What an expression comes to: a value; a break, by its node and value; a refusal and its place; or the node at which the next take is refused.
// It derives no equality, since a value may hold a NaN.
#[derive(Clone, Copy)]
pub enum Outcome {
    Done(Value),
    Broke(u16, Value),
    Refused(Refusal, u16),
    Spent(u16),
}

// What was got from the stores, or refused.
impl From<Result<Value, Refused>> for Outcome {
    ghost from_gives = { λ got outcome. outcome ≡ got_of got };

    fn from(got: Result<Value, Refused>) -> Outcome {
        match got {
            Ok(v) => Outcome::Done(v),
            Err(refused) => Outcome::Refused(refused.why, refused.place),
        }
    }
}
