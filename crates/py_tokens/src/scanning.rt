ghost use Rattle.std.specs.Prelude.{◌≡◌, ◌≤◌, ◌<◌, ◌^◌, ◌-◌, length, map, chars, string_bytes, IfOk, Some};
ghost use Rattle.spec_tokens.specs.Refusals.{first_of};
ghost use Rattle.spec_tokens.specs.Lines.{full_lines};
ghost use Rattle.spec_tokens.specs.Tokens.{refusals};
ghost use Rattle.py_tokens.specs.Scanned.{refusal_of, IsAnswer};

use crate::building::tokens;
use crate::cutting::pieces;
use crate::indentation::{with_dedents, with_mixed};
use crate::letters::{indents, letters_of, mark_size};
use crate::lines::{full_lines, with_brackets};
use crate::refusals::{with_letters, with_pieces};
use crate::{TokenError, Tokens};
use spec_tokens::{Fault, Piece, Refusal};
use std::alloc::Global;
use xh_outside::NoMemory;

/// The code points of a text.
fn characters(alloc: Global, text: &str) -> Result<Vec<char>, NoMemory>
    ensures characters { IfOk result (λ v. v.items ≡ chars text.now) }
    ensures few { IfOk result (λ v. length v.items ≤ length text.now) }
{
    let characters = text.chars().collect(alloc)?;
    Ok(characters)
}

/// The first refusal of letters that are cut into these pieces and lines.
fn first_refusal(
    alloc: Global,
    letters: &[char],
    pieces: &[Piece],
    lines: &[&[Piece]],
) -> Result<Option<Refusal>, NoMemory>
    requires few { length letters.now < 2 ^ 32 - 1 }
    requires lines { map (λ line. line.now) lines.now ≡ full_lines pieces.now }
    ensures { IfOk result (λ o. o ≡ first_of (refusals letters.now pieces.now)) }
{
    let told = with_letters(None, letters);
    let told = with_pieces(told, letters, pieces);
    let told = with_brackets(alloc, told, pieces)?;
    let told = with_mixed(told, letters, lines);
    let told = with_dedents(alloc, told, letters, lines)?;
    Ok(told)
}

/// The error that tells a refusal.
fn error_of(refusal: Refusal) -> TokenError
    ensures { refusal_of result ≡ Some refusal }
{
    let line = refusal.line;
    match refusal.fault {
        Fault::BadCharacter => TokenError::BadCharacter(line),
        Fault::MixedIndent => TokenError::MixedIndent(line),
        Fault::BadDedent => TokenError::BadDedent(line),
        Fault::OpenString => TokenError::OpenString(line),
        Fault::OpenBracket => TokenError::OpenBracket(line),
        Fault::BigInteger => TokenError::BigInteger(line),
        Fault::NumberForm => TokenError::NumberForm(line),
        Fault::EscapeForm => TokenError::EscapeForm(line),
    }
}

/// The tokens of a text of fewer than 2^31 bytes.
///
/// The error is that of the smallest line and, at that line, the one that stands first in [`TokenError`]. What is
/// refused is passed over, and cutting goes on behind it, so that an earlier line is told where a later part of the
/// text shows its fault, as that of a bracket that is left open.
pub fn scan(alloc: Global, text: &str) -> Result<Tokens, TokenError>
    requires { length text.now < 2 ^ 31 }
    ensures { IsAnswer text.now result }
{
    let characters = characters(alloc, text)?;
    let letters = letters_of(alloc, &characters)?;
    let pieces = pieces(alloc, &letters.codes)?;
    let lines = full_lines(alloc, &pieces)?;
    if let Some(refusal) = first_refusal(alloc, &letters.codes, &pieces, &lines)? {
        return Err(error_of(refusal));
    }
    let lexemes = tokens(alloc, &letters.codes, &lines)?;
    let indents = indents(alloc, &letters.codes)?;
    let text = copied(alloc, text)?;
    Ok(Tokens {
        text,
        letters: letters.codes,
        first: mark_size(&characters),
        ends: letters.ends,
        indents,
        lexemes,
    })
}

/// A copy of a text.
fn copied(alloc: Global, text: &str) -> Result<String, NoMemory>
    ensures { IfOk result (λ s. string_bytes s ≡ text.now) }
{
    let copy = String::from_str(alloc, text)?;
    Ok(copy)
}
