ghost use Rattle.std.specs.Prelude.{◌≡◌, ◌<◌, ◌^◌, ◌-◌, ◌++◌, [], length, map, IfOk, OnOk};
ghost use Rattle.std.specs.List.{list_any};
ghost use Rattle.std.specs.Str.{bytes_eq};
ghost use Rattle.spec_tokens.specs.Lines.{columns_at};
ghost use Rattle.spec_tokens.specs.Tokens.{is_keyword, token_kind, kept, newline, line_tokens, times, margin, indentation, at_end, tokens_from};

use crate::cutting::line_feeds;
use crate::indentation::{enter, innermost, leading};
use crate::refusals::spelling;
use crate::stack::Stack;
use spec_tokens::{KEYWORDS, Kind, Lexeme, Piece, TokenKind};
use std::alloc::Global;
use xh_outside::NoMemory;

/// Whether the letters spell a word of ASCII.
pub fn spell(letters: &[char], word: &str) -> bool
    ensures { result ≡ bytes_eq word.now letters.now }
{
    let mut bytes = word.as_bytes();
    let mut rest = letters;
    while let Some((byte, later)) = bytes.split_first() {
        match rest.split_first() {
            Some((letter, after)) if u32::from(*letter) == u32::from(*byte) => {
                bytes = later;
                rest = after;
            }
            _ => return false,
        }
    }
    rest.is_empty()
}

/// Whether the letters spell one of the words.
fn is_among(words: &[&str], letters: &[char]) -> bool
    ensures { result ≡ list_any (λ k. bytes_eq k.now letters.now) words.now }
{
    for word in words {
        if spell(letters, word) {
            return true;
        }
    }
    false
}

fn is_keyword(letters: &[char]) -> bool
    ensures { result ≡ is_keyword letters.now }
{
    is_among(&KEYWORDS, letters)
}

/// The kind of the token that a piece is, where it is one.
fn token_kind(kind: Kind, letters: &[char]) -> Option<TokenKind>
    ensures { result ≡ token_kind kind letters.now }
{
    match kind {
        Kind::Name if is_keyword(letters) => Some(TokenKind::Keyword),
        Kind::Name => Some(TokenKind::Name),
        Kind::Integer => Some(TokenKind::Int),
        Kind::Text => Some(TokenKind::Str),
        Kind::Operator | Kind::Open(_) | Kind::Close(_) => Some(TokenKind::Op),
        _ => None,
    }
}

/// Appends the token of a piece, where it is one.
fn keep(tokens: &mut Vec<Lexeme>, kind: Option<TokenKind>, piece: Piece) -> Result<(), NoMemory>
    ensures { OnOk result (tokens.new.items ≡ tokens.old.items ++ kept kind piece []) }
{
    if let Some(kind) = kind {
        tokens.push(Lexeme {
            kind,
            start: piece.start,
            end: piece.end,
            line: piece.line,
        })?;
    }
    Ok(())
}

/// What ends a logical line whose last piece this is.
fn newline(piece: Piece) -> Lexeme
    ensures { result ≡ newline piece.kind piece }
{
    let start = match piece.kind {
        Kind::LineEnd => piece.start,
        _ => piece.end,
    };
    Lexeme {
        kind: TokenKind::Newline,
        start,
        end: piece.end,
        line: piece.line,
    }
}

/// Appends the tokens of a logical line.
fn push_line(tokens: &mut Vec<Lexeme>, letters: &[char], line: &[Piece]) -> Result<(), NoMemory>
    ensures { OnOk result (tokens.new.items ≡ tokens.old.items ++ line_tokens letters.now line.now) }
{
    let mut rest = line;
    while let Some((piece, after)) = rest.split_first() {
        let kind = token_kind(piece.kind, spelling(letters, *piece));
        keep(tokens, kind, *piece)?;
        if after.is_empty() {
            tokens.push(newline(*piece))?;
        }
        rest = after;
    }
    Ok(())
}

/// Appends a token so many times.
fn push_times(tokens: &mut Vec<Lexeme>, token: Lexeme, count: usize) -> Result<(), NoMemory>
    ensures { OnOk result (tokens.new.items ≡ tokens.old.items ++ times count token []) }
{
    for _ in 0..count {
        tokens.push(token)?;
    }
    Ok(())
}

/// The place behind the indentation of a line that begins with a piece.
fn margin(piece: Piece) -> usize
    ensures { result ≡ margin piece.kind piece }
{
    match piece.kind {
        Kind::Blank => piece.end,
        _ => piece.start,
    }
}

/// Appends an Indent where a line opens a column, or a Dedent for each column that it closes.
fn push_indentation(
    tokens: &mut Vec<Lexeme>,
    columns: &mut Stack<usize>,
    indent: usize,
    line: &[Piece],
) -> Result<(), NoMemory>
    ensures tokens { OnOk result (tokens.new.items ≡ tokens.old.items ++ indentation indent columns.old line.now []) }
    ensures columns { OnOk result (columns.new ≡ columns_at indent columns.old) }
{
    let opens = innermost(columns) < indent;
    let closed = enter(columns, indent)?;
    let Some(piece) = line.first() else {
        return Ok(());
    };
    if opens {
        tokens.push(Lexeme {
            kind: TokenKind::Indent,
            start: piece.start,
            end: piece.end,
            line: piece.line,
        })?;
        return Ok(());
    }
    let place = margin(*piece);
    let dedent = Lexeme {
        kind: TokenKind::Dedent,
        start: place,
        end: place,
        line: piece.line,
    };
    push_times(tokens, dedent, closed)
}

/// A token at the end of the letters, on the line behind the last line end.
fn at_end(kind: TokenKind, letters: &[char]) -> Lexeme
    requires { length letters.now < 2 ^ 32 - 1 }
    ensures { result ≡ at_end kind letters.now }
{
    Lexeme {
        kind,
        start: letters.len(),
        end: letters.len(),
        line: line_feeds(letters) + 1,
    }
}

/// The tokens of letters that are cut into these logical lines.
pub(crate) fn tokens(
    alloc: Global,
    letters: &[char],
    lines: &[&[Piece]],
) -> Result<Vec<Lexeme>, NoMemory>
    requires { length letters.now < 2 ^ 32 - 1 }
    ensures { IfOk result (λ v. v.items ≡ tokens_from letters.now [] (map (λ line. line.now) lines.now)) }
{
    let mut tokens = Vec::new(alloc);
    let mut columns = Stack::new(alloc);
    for line in lines {
        let indent = leading(letters, line).len();
        push_indentation(&mut tokens, &mut columns, indent, line)?;
        push_line(&mut tokens, letters, line)?;
    }
    push_times(
        &mut tokens,
        at_end(TokenKind::Dedent, letters),
        columns.len(),
    )?;
    tokens.push(at_end(TokenKind::End, letters))?;
    Ok(tokens)
}
