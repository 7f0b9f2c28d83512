//! Annotations whose strings are exchanged for the types that they hold.
//!
//! [`unquoted`] reads the strings in an annotation, and those in the types that they hold, and adds the annotation without
//! strings to the trees of the module. The annotation as it is written stays.
#![tactic(auto)]

mod counting;
mod exchanging;
mod nodes;
mod reading;
mod strings;
#[cfg(test)]
mod tests;

pub use reading::unquoted;
