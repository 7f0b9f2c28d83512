//! What the names of a module stand for where no function has them as its own.
#![tactic(auto)]

mod given;
mod table;
#[cfg(test)]
mod tests;

pub use table::Meanings;
