ghost use Rattle.std.specs.Prelude.{◌≡◌, ◌≤◌, ◌<◌, ◌^◌, length, slice_get, encode_utf8_all, IfOk, IfSome};
ghost use Rattle.std.specs.Str.{IsCharBoundary};
ghost use Rattle.spec_tokens.specs.declared.TokenKind.TheVariants.{Int};
ghost use Rattle.spec_tokens.specs.Values.{integer_value};
ghost use Rattle.std.specs.Option.{option_copied};
ghost use Rattle.spec_tokens.specs.WellFormed.{place, spelled};
ghost use Rattle.unicode_normalization.specs.Forms.{nfkc};
ghost use Rattle.py_tokens.specs.Scanned.{token_at, slice_at, letters_at, indent_at, integer_at, text_at, name_at};

use crate::escapes::text_value;
use crate::refusals::between;
use crate::values::integer_value;
use py_text::Text;
use spec_tokens::{Lexeme, TokenKind};
use std::alloc::Global;
use std::marker::Model;
use unicode_normalization::slice::extend_nfkc;
use xh_outside::{Name, NoMemory};

/// A token: the bytes from `start` to `end` of the source, and the line on which it starts, counted from 1.
///
/// A Dedent, the End and the Newline of a line that lacks its line end have no bytes.
#[derive(Clone, Copy, Debug, PartialEq, Eq)]
pub struct Token {
    pub kind: TokenKind,
    pub start: usize,
    pub end: usize,
    pub line: u32,
}

/// The tokens of a text, with a copy of it.
#[derive(Drop)]
pub struct Tokens {
    pub(crate) text: String,
    pub(crate) letters: Vec<char>,
    pub(crate) first: usize,
    pub(crate) ends: Vec<usize>,
    pub(crate) indents: Vec<u32>,
    pub(crate) lexemes: Vec<Lexeme>,
}

impl Model for Tokens {
    ghost use Rattle.std.specs.Prelude.{string_bytes, chars};
    ghost use Rattle.std.specs.Str.{IsUtf8};
    ghost use Rattle.spec_tokens.specs.WellFormed.{IsWellFormed};
    ghost use Rattle.unicode_normalization.specs.Forms.{nfkc};
    ghost use Rattle.py_tokens.specs.Scanned.{Scanned};

    ghost Value = { Scanned };

    ghost view = { λ t. record { bytes = string_bytes t.text; scan = record { letters = t.letters.items; first = t.first; ends = t.ends.items; indents = t.indents.items; tokens = t.lexemes.items } } };

    ghost invariant = { λ t. IsUtf8 (string_bytes t.text) × IsWellFormed (chars (string_bytes t.text)) (record { letters = t.letters.items; first = t.first; ends = t.ends.items; indents = t.indents.items; tokens = t.lexemes.items }) };
}

impl Tokens {
    /// The number of tokens.
    pub fn len(&self) -> usize
        ensures { result ≡ length self.now.scan.tokens }
    {
        self.lexemes.len()
    }

    /// Where the letter of a number begins, or the text ends, in bytes of the source.
    fn place(&self, number: usize) -> usize
        ensures { result ≡ place self.now.scan number }
    {
        match number.checked_sub(1) {
            Some(before) => match self.ends.get(before) {
                Some(end) => *end,
                None => 0,
            },
            None => self.first,
        }
    }

    /// The token at place `i`, by its letters.
    fn lexeme(&self, i: usize) -> Option<Lexeme>
        ensures lexeme { result ≡ slice_get self.now.scan.tokens i }
        ensures rises { IfSome result (λ t. place self.now.scan t.start ≤ place self.now.scan t.end) }
        ensures starts { IfSome result (λ t. IsCharBoundary self.now.bytes (place self.now.scan t.start)) }
        ensures ends { IfSome result (λ t. IsCharBoundary self.now.bytes (place self.now.scan t.end)) }
        ensures small { IfSome result (λ t. t.kind ≡ Int → integer_value (spelled self.now.scan.letters t) < 2 ^ 127) }
    {
        lexeme_in(&self.lexemes, i)
    }

    /// The token at place `i`, counted from 0. It is None exactly where `i` is not below the number of tokens.
    pub fn get(&self, i: usize) -> Option<Token>
        ensures { result ≡ token_at self.now i }
    {
        let lexeme = self.lexeme(i)?;
        Some(Token {
            kind: lexeme.kind,
            start: self.place(lexeme.start),
            end: self.place(lexeme.end),
            line: lexeme.line,
        })
    }

    /// The slice of the source that the token at place `i` is. It is None exactly where `i` is not below the number of
    /// tokens.
    pub fn slice(&self, i: usize) -> Option<&str>
        ensures { option_copied result ≡ slice_at self.now i }
    {
        let lexeme = self.lexeme(i)?;
        let start = self.place(lexeme.start);
        let end = self.place(lexeme.end);
        Some(&self.text.as_str()[start..end])
    }

    /// The letters of the token at place `i`, where each line end is one line feed. It is None exactly where `i` is not
    /// below the number of tokens.
    pub fn letters(&self, i: usize) -> Option<&[char]>
        ensures { option_copied result ≡ letters_at self.now i }
    {
        let lexeme = self.lexeme(i)?;
        Some(self.spelled(lexeme))
    }

    /// How many spaces and tabs the line begins with on which the token at place `i` starts.
    pub fn indent(&self, i: usize) -> Option<u32>
        ensures { result ≡ indent_at self.now i }
    {
        let lexeme = self.lexeme(i)?;
        match self.indents.get((lexeme.line as usize).saturating_sub(1)) {
            Some(indent) => Some(*indent),
            None => Some(0),
        }
    }

    /// The letters of a token.
    fn spelled(&self, lexeme: Lexeme) -> &[char]
        ensures { result.now ≡ spelled self.now.scan.letters lexeme }
    {
        between(&self.letters, lexeme.start, lexeme.end)
    }

    /// The value of the token at place `i`. It is Some exactly where the token is an `Int`.
    pub fn int_value(&self, i: usize) -> Option<i128>
        ensures { result ≡ integer_at self.now i }
    {
        let lexeme = self.lexeme(i)?;
        match lexeme.kind {
            TokenKind::Int => match integer_value(self.spelled(lexeme)) {
                Some(value) => Some(value as i128),
                None => None,
            },
            _ => None,
        }
    }

    /// The string that the token at place `i` stands for. It is Some exactly where the token is a `Str`.
    pub fn str_value(&self, alloc: Global, i: usize) -> Result<Option<Text>, NoMemory>
        ensures { IfOk result (λ o. o ≡ text_at self.now i) }
    {
        match self.lexeme(i) {
            Some(lexeme) if lexeme.kind == TokenKind::Str => {
                text_value(alloc, self.spelled(lexeme))
            }
            _ => Ok(None),
        }
    }

    /// The name that the token at place `i` is, in normalization form KC (Python 3.12 language reference,
    /// "Identifiers and keywords"). It is Some exactly where the token is a `Name`.
    pub fn name_text(&self, alloc: Global, i: usize) -> Result<Option<Name>, NoMemory>
        ensures { IfOk result (λ o. o ≡ name_at self.now i) }
    {
        match self.lexeme(i) {
            Some(lexeme) if lexeme.kind == TokenKind::Name => {
                Ok(Some(normalized(alloc, self.spelled(lexeme))?))
            }
            _ => Ok(None),
        }
    }
}

/// The letters in normalization form KC.
fn normalized(alloc: Global, letters: &[char]) -> Result<Name, NoMemory>
    ensures { IfOk result (λ n. n ≡ encode_utf8_all (nfkc letters.now)) }
{
    let mut points = Vec::new(alloc);
    extend_nfkc(&mut points, letters)?;
    let text: String = points.iter().copied().collect(alloc)?;
    Name::from_str(alloc, text.as_str())
}

/// The token at a place.
fn lexeme_in(lexemes: &[Lexeme], i: usize) -> Option<Lexeme>
    ensures { result ≡ slice_get lexemes.now i }
{
    lexemes.get(i).copied()
}
