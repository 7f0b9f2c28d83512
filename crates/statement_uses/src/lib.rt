//! The uses of names in statements that a module does not admit.
//!
//! [`told_of_block`] tells what is refused behind the statements of a body more, where a scope says what its names stand for.
#![tactic(auto)]

mod simple;
mod statements;
#[cfg(test)]
mod tests;

pub use statements::told_of_block;
