//! The tokens of a text of Python (Python 3.12 language reference, "Lexical analysis").
//!
//! [`scan`] answers exactly the tokens that the definition gives, or the first refusal: the one with the smallest
//! line, and at that line the one that stands first in [`TokenError`].
#![tactic(auto)]

mod building;
mod cutting;
mod errors;
mod escapes;
mod indentation;
mod letters;
mod lines;
mod names;
mod numbers;
mod refusals;
mod scanning;
mod signs;
mod stack;
mod strings;
#[cfg(test)]
mod tests;
mod tokens;
mod values;

pub use building::spell;
pub use errors::TokenError;
pub use escapes::{inside, is_raw, text_value};
pub use scanning::scan;
pub use spec_tokens::TokenKind;
pub use tokens::{Token, Tokens};
