//! Reads simple statements from the words of a line into the trees of a module.
//!
//! [`read_simple`] reads exactly the statement that all the words from a place on spell. [`read_names`],
//! [`read_bracketed`] and [`read_value`] read parts that headers have too. What was there in the module stays, and nothing
//! is added to the statements of the module itself.
#![tactic(auto)]

mod assignments;
mod ends;
mod expressions;
mod keywords;
mod names;
mod nodes;
mod reading;
mod targets;
#[cfg(test)]
mod tests;

pub use expressions::read_value;
pub use names::{read_bracketed, read_names};
pub use py_words::Unread;
pub use reading::read_simple;
