//! A solver for clauses under assumptions. It always answers: with a model, or with a refutation that the checker
//! accepts.
#![tactic(auto)]

mod learner;
mod learning;
mod lesson;
mod model;
mod offered;
mod order;
mod search;
mod solver;
mod variables;

pub use model::{SatModel, Solved};
pub use solver::Solver;

#[cfg(test)]
mod tests;
