//! What the types of a module's annotations are: their kinds, the classes that they speak of, and their widths.
//!
//! The strings in these annotations are exchanged for the types that they hold already: a string is no type here. Each
//! function takes what the names of the module stand for in annotations, in the order of the names.
#![tactic(auto)]

mod classes;
mod kinds;
#[cfg(test)]
mod tests;
mod widths;

pub use classes::add_spoken;
pub use kinds::kind;
pub use widths::{sum, width};
