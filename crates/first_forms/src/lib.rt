//! The functions of a module of Python that are run.
//!
//! [`functions`] reads the statements of a module in their order, and answers exactly the functions with contract lines, or
//! the line of the first statement or contract line whose form is not run.
#![tactic(auto)]

mod bodies;
mod groups;
mod reading;
#[cfg(test)]
mod tests;

pub use first_promises::FormError;
pub use reading::functions;
