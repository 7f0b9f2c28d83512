//! Unit propagation with two watched literals, over clauses that are added one by one.
//!
//! What a [`Propagator`] finds is not proved. It is fast, safe and total, and whoever uses it checks what it found.
#![tactic(auto)]

mod clause_store;
mod literal;
mod numbering;
mod propagator;
mod table;
mod value;

pub use literal::Literal;
pub use numbering::Numbering;
pub use propagator::Propagator;
pub use table::Table;
pub use value::Value;

#[cfg(test)]
mod tests;
