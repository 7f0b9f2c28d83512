ghost use Rattle.std.specs.Prelude.{◌≡◌, ◌≤◌, ◌<◌, [], not, length, map, IfOk, OnOk};
ghost use Rattle.std.specs.List.{list_all};
ghost use Rattle.spec_tokens.specs.Refusals.{earlier, first_of};
ghost use Rattle.spec_tokens.specs.Lines.{is_same, opens, matches, open_behind, bracket_fault, left_open, bracket_refusals, ends_line, is_nothing, is_full, full_lines};
ghost use Rattle.py_tokens.specs.Steps.{line_size};

use crate::refusals::{earlier, with_fault};
use crate::stack::Stack;
use spec_tokens::{Bracket, Fault, Kind, Piece, Refusal};
use std::alloc::Global;
use xh_outside::NoMemory;

fn is_same(one: Bracket, other: Bracket) -> bool
    ensures { result ≡ is_same one other }
{
    matches!(
        (one, other),
        (Bracket::Round, Bracket::Round)
            | (Bracket::Square, Bracket::Square)
            | (Bracket::Curly, Bracket::Curly)
    )
}

/// Whether it is the opening bracket of a kind.
fn opens(bracket: Bracket, kind: Kind) -> bool
    ensures { result ≡ opens bracket kind }
{
    match kind {
        Kind::Open(other) => is_same(other, bracket),
        _ => false,
    }
}

/// Whether a closing bracket matches the innermost one that is open.
fn is_match(bracket: Bracket, brackets: &Stack<Piece>) -> bool
    ensures { result ≡ matches bracket brackets.now }
{
    match brackets.first() {
        Some(piece) => opens(bracket, piece.kind),
        None => false,
    }
}

/// Opens or closes what a piece opens or closes.
fn pass(brackets: &mut Stack<Piece>, piece: Piece) -> Result<(), NoMemory>
    ensures { OnOk result (brackets.new ≡ open_behind brackets.old piece piece.kind) }
{
    match piece.kind {
        Kind::Open(_) => brackets.push(piece),
        Kind::Close(bracket) => {
            if is_match(bracket, brackets) {
                brackets.pop();
            }
            Ok(())
        }
        _ => Ok(()),
    }
}

/// The fault of a closing bracket that does not match.
fn bracket_fault(brackets: &Stack<Piece>, kind: Kind) -> Option<Fault>
    ensures { result ≡ bracket_fault brackets.now kind }
{
    match kind {
        Kind::Close(bracket) if !is_match(bracket, brackets) => Some(Fault::OpenBracket),
        _ => None,
    }
}

/// Of refusals so far and that of the innermost bracket that is left open, the one that is told.
fn with_left_open(first: Option<Refusal>, brackets: &Stack<Piece>) -> Option<Refusal>
    ensures { result ≡ earlier first (first_of (left_open brackets.now)) }
{
    match brackets.first() {
        Some(piece) => earlier(
            first,
            Refusal {
                line: piece.line,
                fault: Fault::OpenBracket,
            },
        ),
        None => first,
    }
}

/// Of refusals so far and those of brackets, the one that is told.
pub(crate) fn with_brackets(
    alloc: Global,
    first: Option<Refusal>,
    pieces: &[Piece],
) -> Result<Option<Refusal>, NoMemory>
    ensures { IfOk result (λ o. o ≡ earlier first (first_of (bracket_refusals [] pieces.now))) }
{
    let mut told = first;
    let mut brackets = Stack::new(alloc);
    let mut rest = pieces;
    while let Some((piece, after)) = rest.split_first() {
        told = with_fault(told, bracket_fault(&brackets, piece.kind), piece.line);
        pass(&mut brackets, *piece)?;
        rest = after;
    }
    Ok(with_left_open(told, &brackets))
}

/// Whether a piece ends a logical line.
fn ends_line(brackets: &Stack<Piece>, kind: Kind) -> bool
    ensures { result ≡ ends_line brackets.now kind }
{
    match kind {
        Kind::LineEnd => brackets.is_empty(),
        _ => false,
    }
}

/// How many pieces the first logical line has.
fn line_size(alloc: Global, pieces: &[Piece]) -> Result<usize, NoMemory>
    ensures size { IfOk result (λ n. n ≡ line_size [] pieces.now) }
    ensures within { IfOk result (λ n. n ≤ length pieces.now) }
{
    let mut brackets = Stack::new(alloc);
    let mut size = 0;
    let mut rest = pieces;
    while let Some((piece, after)) = rest.split_first() {
        size += 1;
        if ends_line(&brackets, piece.kind) {
            return Ok(size);
        }
        pass(&mut brackets, *piece)?;
        rest = after;
    }
    Ok(size)
}

/// Whether it is a blank, a comment, a line end or a join.
fn is_nothing(kind: Kind) -> bool
    ensures { result ≡ is_nothing kind }
{
    matches!(
        kind,
        Kind::Blank | Kind::Comment | Kind::LineEnd | Kind::Join
    )
}

/// Whether a logical line is not blank.
fn is_full(line: &[Piece]) -> bool
    ensures { result ≡ is_full line.now }
{
    for piece in line {
        if !is_nothing(piece.kind) {
            return true;
        }
    }
    false
}

/// The logical lines that are not blank.
pub(crate) fn full_lines<'a>(
    alloc: Global,
    pieces: &'a [Piece],
) -> Result<Vec<&'a [Piece]>, NoMemory>
    ensures { IfOk result (λ v. map (λ line. line.now) v.items ≡ full_lines pieces.now) }
{
    let mut lines = Vec::new(alloc);
    let mut rest = pieces;
    while !rest.is_empty() {
        let (line, after) = rest.split_at(line_size(alloc, rest)?);
        if is_full(line) {
            lines.push(line)?;
        }
        rest = after;
    }
    Ok(lines)
}
