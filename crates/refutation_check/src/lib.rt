//! A checker of refutations in propositional logic.
//!
//! A [`Refutation`] of [`Clauses`] under assumptions is a list of clauses that ends with the empty one, each of which
//! unit propagation confirms. Whoever made it is not trusted: [`accepts`] tests it, and what it accepts has no model.
#![tactic(auto)]

mod accepting;
mod clauses;
mod guide;
mod hints;
mod known;
mod lit;
mod propagation;
mod reasons;
mod refutation;
mod slots;

pub use accepting::accepts;
pub use clauses::Clauses;
pub use known::Known;
pub use lit::SatLit;
pub use propagation::meets_conflict;
pub use reasons::Reason;
pub use refutation::Refutation;

#[cfg(test)]
mod tests;
