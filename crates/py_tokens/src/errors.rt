use thiserror::Error;
use xh_outside::NoMemory;

/// Why a text has no tokens. Each variant but the last has a line, counted from 1.
#[derive(Clone, Copy, Debug, PartialEq, Eq, Error)]
pub enum TokenError {
    /// A letter at which no form starts, a carriage return alone, a NUL, or a quote directly behind a name that is no
    /// prefix of a string.
    #[error("line {0} has a bad character")]
    BadCharacter(u32),
    /// A line that is indented by spaces where an earlier one is by tabs, or the other way round.
    #[error("line {0} mixes spaces and tabs")]
    MixedIndent(u32),
    /// A line that is indented by less than the line before it, and by no column that is open.
    #[error("line {0} goes back to no column that is open")]
    BadDedent(u32),
    /// A string literal that is not closed on its line or, with three quotes, in the text.
    #[error("line {0} opens a string that is not closed")]
    OpenString(u32),
    /// A closing bracket without its opening one, or an opening one without its closing one.
    #[error("line {0} has a bracket without its other one")]
    OpenBracket(u32),
    /// An integer above 2^127 - 1.
    #[error("line {0} has an integer that is too big")]
    BigInteger(u32),
    /// An integer that begins with 0 and goes on with other digits, or directly before `.`, `_` or a letter of names.
    #[error("line {0} has a number of a form that is not read")]
    NumberForm(u32),
    /// An escape that lacks a digit, names a surrogate or no code point, or is `\N`.
    #[error("line {0} has a string with an escape that is not read")]
    EscapeForm(u32),
    /// There is no memory for the tokens.
    #[error("out of memory")]
    NoMemory,
}

impl From<NoMemory> for TokenError {
    ghost use Rattle.std.specs.Prelude.{◌≡◌};
    ghost use Rattle.py_tokens.specs.declared.errors.TokenError.TheVariants as token_error;

    ghost from_gives = { λ _ e. e ≡ token_error.NoMemory };

    fn from(_: NoMemory) -> Self {
        TokenError::NoMemory
    }
}
