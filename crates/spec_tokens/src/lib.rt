//! What a text of Python is cut into: letters, pieces and tokens (Python 3.12 language reference, "Lexical
//! analysis").
//!
//! A text is first read as letters: code points, where each line end is one line feed. The letters are cut into
//! pieces, each the longest form that starts at its place. Tokens are the pieces that are kept, with those that line
//! ends, indentation and the end of the text give.
#![tactic(auto)]

ghost use Rattle.std.specs.Prelude.{◌≡◌, ℕ, true, List, Ok};
ghost use Rattle.std.specs.Str.{all_scalars};
ghost use Rattle.spec_tokens.specs.Letters.{letters_of};
ghost use Rattle.spec_tokens.specs.Pieces.{ArePieces};
ghost use Rattle.spec_tokens.specs.Cutting.{pieces_of};
ghost use Rattle.spec_tokens.specs.Tokens.{Scan, tokens_of};
ghost use Rattle.spec_tokens.specs.WellFormed.{IsWellFormed};

/// The kind of a bracket.
#[derive(Clone, Copy, Debug, PartialEq, Eq)]
pub enum Bracket {
    /// `(` and `)`
    Round,
    /// `[` and `]`
    Square,
    /// `{` and `}`
    Curly,
}

/// The kind of a piece.
#[derive(Clone, Copy, Debug, PartialEq, Eq)]
pub enum Kind {
    /// Spaces and tabs.
    Blank,
    /// From `#` to the line end.
    Comment,
    LineEnd,
    /// A backslash directly before a line end.
    Join,
    /// A name or a keyword.
    Name,
    Integer,
    /// A string literal, with its prefix and its quotes.
    Text,
    /// An operator or a delimiter that is no bracket.
    Operator,
    Open(Bracket),
    Close(Bracket),
    /// A string literal that is not closed.
    OpenText,
    /// A name that is no prefix of a string, and a quote directly behind it.
    Misquoted,
    /// A letter at which no form starts.
    Unknown,
}

/// A piece: the letters from `start` to `end`, counted from 0, of which the first stands on the line `line`, counted
/// from 1.
#[derive(Clone, Copy, Debug, PartialEq, Eq)]
pub struct Piece {
    pub kind: Kind,
    pub start: usize,
    pub end: usize,
    pub line: u32,
}

/// Why a text has no tokens.
#[derive(Clone, Copy, Debug, PartialEq, Eq)]
pub enum Fault {
    /// A letter at which no form starts, a carriage return alone, a NUL, or a quote directly behind a name that is no
    /// prefix.
    BadCharacter,
    /// A line is indented by spaces where an earlier one is by tabs, or the other way round.
    MixedIndent,
    /// A line is indented by less than the line before it, and by no column that is open.
    BadDedent,
    /// A string literal is not closed on its line or, with three quotes, in the text.
    OpenString,
    /// A closing bracket without its opening one, or an opening one without its closing one.
    OpenBracket,
    /// An integer above 2^127 - 1.
    BigInteger,
    /// An integer that begins with 0 and goes on with other digits, or directly before `.`, `_` or a letter of names.
    NumberForm,
    /// An escape that lacks a digit, names a surrogate or no code point, or is `\N`.
    EscapeForm,
}

/// A fault, with its line, counted from 1.
#[derive(Clone, Copy, Debug, PartialEq, Eq)]
pub struct Refusal {
    pub line: u32,
    pub fault: Fault,
}

/// The kind of a token.
#[derive(Clone, Copy, Debug, PartialEq, Eq)]
pub enum TokenKind {
    Name,
    Keyword,
    Int,
    Str,
    Op,
    Newline,
    Indent,
    Dedent,
    End,
}

/// A token: the letters from `start` to `end`, counted from 0, of which the first stands on the line `line`, counted
/// from 1. Dedents and the end of the text have no letters, nor has a line end that the text lacks.
#[derive(Clone, Copy, Debug, PartialEq, Eq)]
pub struct Lexeme {
    pub kind: TokenKind,
    pub start: usize,
    pub end: usize,
    pub line: u32,
}

/// The keywords (Python 3.12 language reference, "Keywords").
pub const KEYWORDS: [&str; 35] = [
    "False", "None", "True", "and", "as", "assert", "async", "await", "break", "class", "continue",
    "def", "del", "elif", "else", "except", "finally", "for", "from", "global", "if", "import",
    "in", "is", "lambda", "nonlocal", "not", "or", "pass", "raise", "return", "try", "while",
    "with", "yield",
];

/// The pieces that are read off from left to right cut the letters: each is the longest form that starts at its place,
/// or one letter at which no form starts.
pub fn every_text_is_cut()
    ensures { (letters : List ℕ) → ArePieces letters (pieces_of letters) }
{}

/// Letters are cut into pieces in one way only: whatever pieces cut them are those that are read off.
pub fn one_cut()
    ensures { (letters : List ℕ) (ps : List Piece) → ArePieces letters ps → ps ≡ pieces_of letters }
{}

/// What a text is cut into is well formed: tokens stand in order within the letters, each `Dedent` closes an `Indent`,
/// each integer is below 2^127, each string has a value, and the text may be sliced wherever a letter begins or ends.
pub fn tokens_are_well_formed()
    ensures { (text : List ℕ) (ps : List Piece) (s : Scan) → all_scalars text ≡ true → ArePieces (letters_of text) ps → tokens_of text ps ≡ Ok s → IsWellFormed text s }
{}
