//! The marker: whether a plan keeps rules A to I, and else which rule it breaks first.
#![tactic(auto)]

mod legs;
mod marking;
mod rules;
pub mod search;
mod spans;
mod tasks;
pub mod verdict;

pub use search::mark;
pub use verdict::{Rule, Verdict};
