//! Texts as lists of code points.
#![tactic(auto)]

#[cfg(test)]
mod tests;
mod text;

pub use text::Text;
