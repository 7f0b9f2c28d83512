//! What the names of a module stand for in annotations.
#![tactic(auto)]

mod meant;
mod numbers;
mod table;
#[cfg(test)]
mod tests;

pub use table::type_names;
