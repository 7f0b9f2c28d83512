//! The functions of a module and of its classes.
//!
//! [`functions`] lists them in the order of lines, in which contract lines number them, and a [`Function`] tells of one of
//! them what it has. [`is_self_first`] tells whether parameters begin with `self`.
#![tactic(auto)]

mod function;
mod listing;
#[cfg(test)]
mod tests;

pub use function::{Function, is_self_first};
pub use listing::functions;
