//! Reads expressions from the words of a line into the trees of a module.
//!
//! [`read_expression`] reads exactly the expression that words begin with, [`read_primary`] and
//! [`read_call_arguments`] those of its parts of which statements are made. What was there in the module stays, and only
//! names and expressions are added.
#![tactic(auto)]

mod descent;
mod leaves;
mod nodes;
mod reading;
#[cfg(test)]
mod tests;

pub use py_words::Unread;
pub use reading::{read_call_arguments, read_expression, read_primary};
