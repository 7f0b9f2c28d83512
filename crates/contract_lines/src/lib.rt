//! The contract lines of a module: what its docstrings promise (PEP 316).
//!
//! [`conditions`] reads the docstrings of the functions and classes of a module, and adds the expressions that they hold to
//! the module. Its answer is exactly the list of contract lines that the definition gives, or its first refusal.
#![tactic(auto)]

mod contracts;
mod entries;
mod errors;
mod names;
mod nodes;
mod parameters;
mod reading;
mod refusals;
mod sets;
#[cfg(test)]
mod tests;

pub use contract_owners::{ClassId, FnId, Owner};
pub use contracts::{ContractLine, Contracts};
pub use errors::ContractError;
pub use reading::conditions;
pub use spec_contracts::LineKind;
