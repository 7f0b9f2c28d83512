//! The uses of names in expressions that a module does not admit.
//!
//! [`told_of_expression`] tells what is refused behind an expression more, where a scope says what its names stand for.
#![tactic(auto)]

mod arguments;
mod builtins;
mod expressions;
mod names;
#[cfg(test)]
mod tests;

pub use arguments::has_keywords;
pub use expressions::{told_of_expression, told_of_generator, told_of_rest};
pub use names::told_of_raised;
