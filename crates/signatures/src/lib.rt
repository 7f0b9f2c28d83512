//! The functions of a module with the types of their parameters.
//!
//! [`written`] and [`written_by_constructors`] list the annotations that are to be read. When they are, [`taken`] tells what
//! they give the constructors of classes, and [`signatures`] what they give functions.
#![tactic(auto)]

mod giving;
mod listing;
#[cfg(test)]
mod tests;
mod writing;

pub use giving::taken;
pub use listing::signatures;
pub use writing::{written, written_by_constructors};
