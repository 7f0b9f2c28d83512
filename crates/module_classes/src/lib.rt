//! The classes of a module.
//!
//! [`classes`] lists them in the order of lines, and a [`Class`] tells of one of them its name and what its constructor
//! takes. [`behind_self`] leaves out the object that a method belongs to.
#![tactic(auto)]

mod class;
mod listing;
mod parameters;
#[cfg(test)]
mod tests;

pub use class::Class;
pub use listing::classes;
pub use parameters::behind_self;
