// The store of the rules on lent words and bytes. docs/STORES.md has the layout.
#![tactic(auto)]

pub mod lent; // what a run works on
pub mod pending; // pending items
pub mod run; // the run's numbers
