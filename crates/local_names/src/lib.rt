//! The names that a body assigns, which are local to its function.
//!
//! [`add_assigned`] adds them to a set: the names of targets and the variables of loops.
#![tactic(auto)]

mod assigned;
#[cfg(test)]
mod tests;

pub use assigned::add_assigned;
