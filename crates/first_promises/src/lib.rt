//! What the contract lines of a function promise, read into the trees that are run.
#![tactic(auto)]

mod classes;
mod errors;
mod expressions;
mod names;
mod parameters;
mod promises;
#[cfg(test)]
mod tests;

pub use errors::{FormError, Unformed, error_of};
pub use expressions::{Scope, copy_expression, copy_name};
pub use parameters::integer_parameters;
pub use promises::{Promises, read_promises};
