ghost use Rattle.std.specs.Prelude.{◌≡◌, ◌<◌, ◌^◌, ◌-◌, Some, [], length, take, drop};
ghost use Rattle.spec_tokens.specs.Letters.{is_bad};
ghost use Rattle.spec_tokens.specs.Pieces.{spelling};
ghost use Rattle.spec_tokens.specs.Refusals.{number_of, is_before, earlier, first_of, letter_refusals, told, goes_on_badly, integer_fault, fault_of, piece_refusals};

use crate::escapes::has_value;
use crate::letters::is_bad;
use crate::names::continues_name;
use crate::values::{integer_value, is_zero_led};
use spec_tokens::{Fault, Kind, Piece, Refusal};

/// The number of a fault: of two at one line the one with the smaller number is told.
fn number_of(fault: Fault) -> u8
    ensures { result ≡ number_of fault }
{
    match fault {
        Fault::BadCharacter => 1,
        Fault::MixedIndent => 2,
        Fault::BadDedent => 3,
        Fault::OpenString => 4,
        Fault::OpenBracket => 5,
        Fault::BigInteger => 6,
        Fault::NumberForm => 7,
        Fault::EscapeForm => 8,
    }
}

fn is_before(one: Refusal, other: Refusal) -> bool
    ensures { result ≡ is_before one other }
{
    one.line < other.line || one.line == other.line && number_of(one.fault) < number_of(other.fault)
}

/// Of refusals so far and another one, the one that is told.
pub(crate) fn earlier(first: Option<Refusal>, next: Refusal) -> Option<Refusal>
    ensures { result ≡ earlier first (Some next) }
{
    match first {
        Some(refusal) if !is_before(next, refusal) => Some(refusal),
        _ => Some(next),
    }
}

/// Of refusals so far and a fault at a line, the one that is told.
pub(crate) fn with_fault(first: Option<Refusal>, fault: Option<Fault>, line: u32) -> Option<Refusal>
    ensures { result ≡ earlier first (first_of (told fault line [])) }
{
    match fault {
        Some(fault) => earlier(first, Refusal { line, fault }),
        None => first,
    }
}

/// Of refusals so far and those of letters, the one that is told.
pub(crate) fn with_letters(first: Option<Refusal>, letters: &[char]) -> Option<Refusal>
    requires { length letters.now < 2 ^ 32 - 1 }
    ensures { result ≡ earlier first (first_of (letter_refusals 1 letters.now)) }
{
    let mut told = first;
    let mut line = 1;
    let mut rest = letters;
    while let Some((letter, after)) = rest.split_first() {
        if is_bad(*letter) {
            told = earlier(
                told,
                Refusal {
                    line,
                    fault: Fault::BadCharacter,
                },
            );
        } else if *letter == '\n' {
            line += 1;
        }
        rest = after;
    }
    told
}

/// Whether letters must not stand directly behind an integer.
fn goes_on_badly(letters: &[char]) -> bool
    ensures { result ≡ goes_on_badly letters.now }
{
    match letters.first() {
        Some(letter) => matches!(*letter, '.' | '_') || continues_name(*letter),
        None => false,
    }
}

/// The fault of an integer before the letters behind it.
fn integer_fault(letters: &[char], behind: &[char]) -> Option<Fault>
    ensures { result ≡ integer_fault letters.now behind.now }
{
    if integer_value(letters).is_none() {
        Some(Fault::BigInteger)
    } else if is_zero_led(letters) || goes_on_badly(behind) {
        Some(Fault::NumberForm)
    } else {
        None
    }
}

/// The fault of a piece before the letters behind it.
fn fault_of(kind: Kind, letters: &[char], behind: &[char]) -> Option<Fault>
    ensures { result ≡ fault_of kind letters.now behind.now }
{
    match kind {
        Kind::Integer => integer_fault(letters, behind),
        Kind::Text if !has_value(letters) => Some(Fault::EscapeForm),
        Kind::OpenText => Some(Fault::OpenString),
        Kind::Misquoted | Kind::Unknown => Some(Fault::BadCharacter),
        _ => None,
    }
}

/// Of refusals so far and those of pieces, the one that is told.
pub(crate) fn with_pieces(
    first: Option<Refusal>,
    letters: &[char],
    pieces: &[Piece],
) -> Option<Refusal>
    ensures { result ≡ earlier first (first_of (piece_refusals letters.now pieces.now)) }
{
    let mut told = first;
    let mut rest = pieces;
    while let Some((piece, after)) = rest.split_first() {
        let fault = fault_of(
            piece.kind,
            spelling(letters, *piece),
            from_place(letters, piece.end),
        );
        told = with_fault(told, fault, piece.line);
        rest = after;
    }
    told
}

/// The letters of a piece.
pub(crate) fn spelling(letters: &[char], piece: Piece) -> &[char]
    ensures { result.now ≡ spelling letters.now piece }
{
    between(letters, piece.start, piece.end)
}

/// The letters from a place to another one; fewer where there are not so many.
pub(crate) fn between(letters: &[char], start: usize, end: usize) -> &[char]
    ensures { result.now ≡ take (end - start) (drop start letters.now) }
{
    let behind = from_place(letters, start);
    let count = end.saturating_sub(start).min(behind.len());
    let (between, _) = behind.split_at(count);
    between
}

/// The letters from a place on.
pub(crate) fn from_place(letters: &[char], place: usize) -> &[char]
    ensures { result.now ≡ drop place letters.now }
{
    let (_, behind) = letters.split_at(place.min(letters.len()));
    behind
}
