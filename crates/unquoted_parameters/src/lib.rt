//! The parameters of functions, with the types that the strings of their annotations hold.
//!
//! [`parameters`] lists the parameters of functions as a program has them. The annotations without strings are added to the
//! trees of the module, and its functions stay as they are written.
#![tactic(auto)]

mod listing;
mod parameter;
#[cfg(test)]
mod tests;

pub use listing::parameters;
