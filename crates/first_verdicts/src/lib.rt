//! The verdict of each condition of a function: its calls within the bounds are run one after the other.
#![tactic(auto)]

mod calls;
mod evaluator;
mod judging;
mod operations;
mod permitted;
#[cfg(test)]
mod tests;
mod verdicts;

pub use calls::Call;
pub use verdicts::{Condition, Fault, Verdict, verdict_of};
