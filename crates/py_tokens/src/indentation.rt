ghost use Rattle.std.specs.Prelude.{◌≡◌, ◌==◌, Some, None, if◌then◌else◌, [], drop, length, map, IfOk, OnOk};
ghost use Rattle.spec_tokens.specs.Refusals.{earlier, first_of};
ghost use Rattle.spec_tokens.specs.Lines.{leading, line_of, unit_behind, mixed_fault, mixed_refusals, innermost, dedents, columns_at, dedent_fault, dedent_refusals};
ghost use Rattle.spec_tokens.specs.declared.Fault.TheVariants.{BadDedent};

use crate::refusals::{spelling, with_fault};
use crate::stack::Stack;
use spec_tokens::{Fault, Kind, Piece, Refusal};
use std::alloc::Global;
use xh_outside::NoMemory;

/// The spaces and tabs that a logical line begins with.
pub(crate) fn leading<'a>(letters: &'a [char], line: &[Piece]) -> &'a [char]
    ensures { result.now ≡ leading letters.now line.now }
{
    match line.first() {
        Some(piece) if matches!(piece.kind, Kind::Blank) => spelling(letters, *piece),
        _ => &letters[..0],
    }
}

/// The line on which a logical line begins.
fn line_of(line: &[Piece]) -> u32
    ensures { result ≡ line_of line.now }
{
    match line.first() {
        Some(piece) => piece.line,
        None => 0,
    }
}

/// The letter by which lines are indented, behind a line with these leading letters.
fn unit_behind(unit: Option<char>, leading: &[char]) -> Option<char>
    ensures { result ≡ unit_behind unit leading.now }
{
    match unit {
        Some(letter) => Some(letter),
        None => leading.first().copied(),
    }
}

/// The fault of a line that is indented by another letter, too.
fn mixed_fault(unit: Option<char>, leading: &[char]) -> Option<Fault>
    ensures { result ≡ mixed_fault unit leading.now }
{
    let unit = unit?;
    for letter in leading {
        if *letter != unit {
            return Some(Fault::MixedIndent);
        }
    }
    None
}

/// Of refusals so far and those of lines that mix spaces and tabs, the one that is told.
pub(crate) fn with_mixed(
    first: Option<Refusal>,
    letters: &[char],
    lines: &[&[Piece]],
) -> Option<Refusal>
    ensures { result ≡ earlier first (first_of (mixed_refusals letters.now None (map (λ line. line.now) lines.now))) }
{
    let mut told = first;
    let mut unit = None;
    for line in lines {
        let leading = leading(letters, line);
        unit = unit_behind(unit, leading);
        told = with_fault(told, mixed_fault(unit, leading), line_of(line));
    }
    told
}

/// The innermost of the columns that are open; the column 0 always is.
pub(crate) fn innermost(columns: &Stack<usize>) -> usize
    ensures { result ≡ innermost columns.now }
{
    match columns.first() {
        Some(column) => column,
        None => 0,
    }
}

/// Closes the columns that are greater than the indentation, and tells how many these are.
fn close_columns(columns: &mut Stack<usize>, indent: usize) -> usize
    ensures count { result ≡ dedents indent columns.old }
    ensures left { columns.new ≡ drop (dedents indent columns.old) columns.old }
{
    let before = columns.len();
    while innermost(columns) > indent {
        columns.pop();
    }
    before - columns.len()
}

/// Opens or closes the columns that a line with this indentation opens or closes, and tells how many are closed.
pub(crate) fn enter(columns: &mut Stack<usize>, indent: usize) -> Result<usize, NoMemory>
    ensures columns { OnOk result (columns.new ≡ columns_at indent columns.old) }
    ensures count { IfOk result (λ n. n ≡ dedents indent columns.old) }
{
    if innermost(columns) < indent {
        columns.push(indent)?;
        return Ok(0);
    }
    Ok(close_columns(columns, indent))
}

/// Of refusals so far and those of lines that go back to no open column, the one that is told.
pub(crate) fn with_dedents(
    alloc: Global,
    first: Option<Refusal>,
    letters: &[char],
    lines: &[&[Piece]],
) -> Result<Option<Refusal>, NoMemory>
    ensures { IfOk result (λ o. o ≡ earlier first (first_of (dedent_refusals letters.now [] (map (λ line. line.now) lines.now)))) }
{
    let mut told = first;
    let mut columns = Stack::new(alloc);
    for line in lines {
        let indent = leading(letters, line).len();
        enter(&mut columns, indent)?;
        let fault = dedent_fault(&columns, indent);
        told = with_fault(told, fault, line_of(line));
    }
    Ok(told)
}

/// The fault of a line whose column is not open behind its start.
fn dedent_fault(columns: &Stack<usize>, indent: usize) -> Option<Fault>
    ensures { result ≡ (if innermost columns.now == indent then None else Some BadDedent) }
{
    if innermost(columns) == indent {
        None
    } else {
        Some(Fault::BadDedent)
    }
}
