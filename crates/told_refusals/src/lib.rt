//! Which of the refusals of a module is told, where they are found one after the other.
//!
//! [`told_if`] tells of one test more. Contracts say by `Tells` that what is told behind more refusals follows from what was
//! told before them, so that no list of refusals is kept.
#![tactic(auto)]

mod soonest;
#[cfg(test)]
mod tests;

pub use soonest::told_if;
