//! The program that a module is: its functions and classes with what their contract lines come to.
//!
//! A [`Program`] keeps a module, and an entry for each function and each class. It tells what the names of the module define,
//! and which names are local to a function.
#![tactic(auto)]

mod classes;
mod constants;
mod definitions;
mod entries;
mod functions;
mod listing;
mod locals;
mod names;
mod numbers;
mod permits;
mod program;
#[cfg(test)]
mod tests;

pub use contract_owners::{ClassId, FnId};
pub use entries::{ClassEntry, Condition, FnEntry};
pub use program::Program;
pub use spec_first_trees::ExcClass;
