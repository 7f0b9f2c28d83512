//! Whether the expressions of a module of Python are higher than is admitted.
//!
//! The answers come from a walk over the nodes below an expression. It ends where a height above the greatest one
//! shows, so it goes at most 101 nodes deep, and its time grows at most linearly with the size of the tree.
#![tactic(auto)]

mod limits;
#[cfg(test)]
mod tests;
mod walk;

pub use limits::{are_arguments_high, are_defaults_high, is_high, is_option_high, is_target_high};
