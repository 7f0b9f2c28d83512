//! The words of a module of Python, as its parser reads them.
//!
//! [`word_lines`] cuts the tokens of a text into logical lines. [`LineWords`] are the words of one of them: its
//! readers say what stands at a place, and the place behind it. Each takes any place, and finds nothing at the end of
//! the line or past it.
#![tactic(auto)]

mod lines;
mod marks;
mod names;
mod spellings;
mod strings;
#[cfg(test)]
mod tests;
mod tokens;
mod unread;
mod words;

pub use lines::{WordLine, word_lines};
pub use spec_grammar::Mark;
pub use unread::Unread;
pub use words::{LineWords, Word};
