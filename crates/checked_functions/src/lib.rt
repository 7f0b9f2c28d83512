//! Which functions of a module are checked: those that have a contract line, or whose class has an invariant.
#![tactic(auto)]

mod checking;
mod marks;
#[cfg(test)]
mod tests;

pub use checking::checked;
