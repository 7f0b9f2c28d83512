//! Reads texts of Python into the trees of a module.
//!
//! [`module`] reads the tokens of a whole text. [`expression`] and [`type_text`] read a text that is one expression or one
//! type, as conditions and annotations in strings are, and leave what was there in the module.
#![tactic(auto)]

mod errors;
mod phases;
mod reading;
#[cfg(test)]
mod tests;
mod texts;
mod tops;

pub use errors::SyntaxError;
pub use reading::module;
pub use texts::{expression, type_text};
