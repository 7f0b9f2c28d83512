//! Reads a header, and a whole logical line, from words into the trees of a module.
//!
//! [`read_header`] reads exactly the header that words begin with, and [`read_line`] the line that all the words spell.
//! What was there in the module stays, and nothing is added to the statements of the module itself.
#![tactic(auto)]

mod headers;
mod lines;
mod names;
mod nodes;
mod parameters;
#[cfg(test)]
mod tests;

pub use headers::read_header;
pub use lines::read_line;
pub use nodes::{HeaderNode, LineNode};
pub use py_words::Unread;
