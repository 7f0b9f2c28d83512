//! Reads types, as annotations have them, from the words of a line into the trees of a module.
//!
//! [`read_type`] reads exactly the type that words begin with. What was there in the module stays, and only names and
//! types are added.
#![tactic(auto)]

mod descent;
mod leaves;
mod nodes;
mod reading;
#[cfg(test)]
mod tests;

pub use py_words::Unread;
pub use reading::read_type;
