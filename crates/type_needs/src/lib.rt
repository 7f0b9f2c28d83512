//! Which parameters need a type and have none.
//!
//! The parameters of checked functions need types, and so do those of the constructors of the classes that such a function
//! can meet: its own class, those that the types of its parameters speak of, and those that their constructors lead to.
//! [`told_of_needs`] tells of the ones that have none.
#![tactic(auto)]

mod class_graph;
#[cfg(test)]
mod tests;
mod untyped;

pub use untyped::told_of_needs;
