//! The first phase of reading a module of Python: no line may go deeper into its words than is admitted.
#![tactic(auto)]

mod loads;
#[cfg(test)]
mod tests;

pub use loads::first_overloaded;
