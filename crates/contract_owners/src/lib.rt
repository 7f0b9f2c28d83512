//! The functions and classes of a module, which own the contract lines of their docstrings.
//!
//! [`owners`] lists them in the order of lines: the functions of the module and of its classes, and the classes.
//! [`docstring`] and [`parameters`] tell what a function or class has of a docstring and of parameters.
#![tactic(auto)]

mod listing;
mod members;
#[cfg(test)]
mod tests;

pub use listing::{ClassId, FnId, Owned, Owner, owners};
pub use members::{docstring, parameters};
