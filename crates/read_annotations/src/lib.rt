//! The annotations of parameters, read as what their strings hold.
//!
//! [`annotations`] reads all annotations of some functions before anything else is asked of the module, since the types
//! that strings hold are added to it.
#![tactic(auto)]

mod annotation;
mod reading;
#[cfg(test)]
mod tests;

pub use annotation::Annotation;
pub use reading::annotations;
