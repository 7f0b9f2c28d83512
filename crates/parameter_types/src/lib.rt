//! Why a module is refused for the types of its parameters.
//!
//! [`told_of_types`] reads the annotations of the functions of a module, finds what they are, and tells of the parameters that
//! need a type and have none, and of the checked functions whose parameters have too many values.
#![tactic(auto)]

mod annotated;
#[cfg(test)]
mod tests;
mod types;

pub use types::told_of_types;
