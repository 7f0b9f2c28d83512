//! Reads all logical lines of a module, each in its place.
//!
//! [`read_lines`] reads the words of each line into the trees of a module, and keeps the number of blocks in which the
//! line stands, and the lines of the text on which it begins and ends.
#![tactic(auto)]

mod errors;
mod placed;
mod reading;
#[cfg(test)]
mod tests;

pub use errors::Misread;
pub use placed::PlacedLine;
pub use py_lines::{HeaderNode, LineNode};
pub use reading::read_lines;
