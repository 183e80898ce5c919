// What the frames of scopes, calls and loops do with the outcome that they wait for.
#![tactic(auto)]

pub mod calls; // a function's body, entered and left
pub mod loops; // conditions and passes
pub mod scopes; // a scope left
