//! Builds the statements of a module from its lines.
//!
//! [`build`] puts lines that were read together to the statements that they spell, with their blocks. What was there in
//! the module stays, and only statements are added.
#![tactic(auto)]

mod body;
mod building;
mod frame;
mod heads;
mod nodes;
#[cfg(test)]
mod tests;

pub use body::build;
pub use py_words::Unread;
