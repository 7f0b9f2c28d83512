//! The contract lines of a docstring, with the expressions and names that they hold (PEP 316).
//!
//! [`promises`] reads the letters between the quotes of a docstring. Its answer is exactly what the definition says: each
//! contract line with its entries, where an entry is the letters of one expression, one list of names, or the line of
//! what cannot be read. Expressions are not parsed here.
#![tactic(auto)]

mod entries;
mod heads;
mod letters;
mod lines;
mod names;
#[cfg(test)]
mod tests;
mod turns;

pub use entries::{Content, Entry, Promise};
pub use lines::Docstring;
pub use turns::promises;
