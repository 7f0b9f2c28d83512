ghost use Rattle.std.specs.Prelude.{◌≡◌, ◌≤◌, ◌<◌, ◌^◌, ◌-◌, ◌∷◌, drop, length, IfOk};
ghost use Rattle.spec_tokens.specs.Letters.{run, continues_name};
ghost use Rattle.spec_tokens.specs.Pieces.{line_feeds};
ghost use Rattle.spec_tokens.specs.Cutting.{named, join_of, piece_of, pieces_of};

use crate::letters::{blank_run, inline_run, is_blank};
use crate::names::{begins_name, name_run, named};
use crate::numbers::{integer_length, is_digit};
use crate::signs::sign;
use crate::strings::{is_quote, string};
use spec_tokens::{Kind, Piece};
use std::alloc::Global;
use xh_outside::NoMemory;

/// What a backslash is before the rest.
fn join(rest: &[char]) -> (Kind, usize)
    ensures { result ≡ join_of rest.now }
{
    match rest.first() {
        Some('\n') => (Kind::Join, 2),
        _ => (Kind::Unknown, 1),
    }
}

/// The name, or the string with a prefix, of a first letter and those behind it.
fn name(first: char, rest: &[char]) -> (Kind, usize)
    requires { length rest.now < 2 ^ 38 }
    ensures { result ≡ named first (run continues_name rest.now) (drop (run continues_name rest.now) rest.now) }
{
    let (more, behind) = rest.split_at(name_run(rest));
    named(first, more.len(), behind)
}

/// The piece of a first letter and those behind it.
#[tactic(auto, unfolding(spec_tokens::specs::Cutting::piece_of))]
fn piece_from(first: char, rest: &[char]) -> (Kind, usize)
    requires { length rest.now < 2 ^ 38 }
    ensures { result ≡ piece_of (first ∷ rest.now) }
{
    if is_blank(first) {
        (Kind::Blank, blank_run(rest) + 1)
    } else if first == '#' {
        (Kind::Comment, inline_run(rest) + 1)
    } else if first == '\n' {
        (Kind::LineEnd, 1)
    } else if first == '\\' {
        join(rest)
    } else if is_quote(first) {
        string(0, first, rest)
    } else if is_digit(first) {
        (Kind::Integer, integer_length(first, rest))
    } else if begins_name(first) {
        name(first, rest)
    } else {
        sign(first, rest)
    }
}

/// The piece at the front, by its kind and how many letters it has.
#[tactic(auto, using(spec_tokens::proofs::Sizes::piece_size))]
fn piece(letters: &[char]) -> (Kind, usize)
    requires some { 0 < length letters.now }
    requires few { length letters.now < 2 ^ 38 }
    ensures piece { result ≡ piece_of letters.now }
    ensures some { 0 < result.1 }
    ensures within { result.1 ≤ length letters.now }
{
    piece_from(letters[0], &letters[1..])
}

/// How many line feeds there are.
pub(crate) fn line_feeds(letters: &[char]) -> u32
    requires { length letters.now < 2 ^ 32 }
    ensures count { result ≡ line_feeds letters.now }
    ensures within { result ≤ length letters.now }
{
    let mut count = 0;
    for letter in letters {
        if *letter == '\n' {
            count += 1;
        }
    }
    count
}

/// The pieces into which letters are cut.
pub(crate) fn pieces(alloc: Global, letters: &[char]) -> Result<Vec<Piece>, NoMemory>
    requires { length letters.now < 2 ^ 32 - 1 }
    ensures { IfOk result (λ v. v.items ≡ pieces_of letters.now) }
{
    let mut pieces = Vec::new(alloc);
    let mut rest = letters;
    let mut start = 0;
    let mut line = 1;
    while !rest.is_empty() {
        let (kind, length) = piece(rest);
        let end = start + length;
        pieces.push(Piece {
            kind,
            start,
            end,
            line,
        })?;
        let (spelling, behind) = rest.split_at(length);
        line += line_feeds(spelling);
        start = end;
        rest = behind;
    }
    Ok(pieces)
}
