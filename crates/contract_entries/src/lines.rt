ghost use Rattle.std.specs.Prelude.{◌≡◌, ◌==◌, map, IfOk};
ghost use Rattle.std.specs.List.{slice_split};
ghost use Rattle.spec_tokens.specs.Letters.{is_blank, run};
ghost use Rattle.spec_syntax.specs.Texts.{unindented};
ghost use Rattle.spec_contracts.specs.Docstrings.{numbered, lines_in};
ghost use Rattle.contract_entries.specs.Given.{line_in};

use crate::letters::{cut, indent};
use std::alloc::Global;
use xh_outside::NoMemory;

/// What stands between the quotes of a docstring.
#[derive(Clone, Copy)]
pub struct Docstring<'a> {
    pub letters: &'a [char],
    /// Whether the literal has the prefix r.
    pub raw: bool,
    /// The line on which it starts, from 1.
    pub line: u32,
    /// The number of blanks that the line on which it starts begins with.
    pub indent: u32,
}

/// A line of a docstring.
#[derive(Clone, Copy)]
pub(crate) struct DocLine<'a> {
    /// From 1, in the text that holds the docstring.
    pub number: u32,
    /// The number of spaces and tabs at its front.
    pub indent: usize,
    /// The letters behind them.
    pub text: &'a [char],
}

fn doc_line(letters: &[char], number: u32) -> DocLine<'_>
    ensures { line_in result ≡ record { number = number; indent = run is_blank letters.now; text = unindented letters.now } }
{
    let indent = indent(letters);
    DocLine {
        number,
        indent,
        text: &letters[indent..],
    }
}

// The lines of letters, of which the first has a number.
fn numbered<'a>(alloc: Global, letters: &'a [char], line: u32) -> Result<Vec<DocLine<'a>>, NoMemory>
    ensures { IfOk result (λ v. map line_in v.items ≡ numbered line (slice_split (λ c. c == 10) letters.now)) }
{
    let mut lines = Vec::new(alloc);
    let mut number = line;
    let (mut letters, mut rest) = cut(letters, '\n');
    loop {
        lines.push(doc_line(letters, number))?;
        let Some(behind) = rest else {
            return Ok(lines);
        };
        let Some(next) = number.checked_add(1) else {
            return Err(NoMemory);
        };
        number = next;
        (letters, rest) = cut(behind, '\n');
    }
}

/// The lines of a docstring.
pub(crate) fn lines_of<'a>(
    alloc: Global,
    docstring: Docstring<'a>,
) -> Result<Vec<DocLine<'a>>, NoMemory>
    ensures { IfOk result (λ v. map line_in v.items ≡ lines_in docstring.entry.line docstring.entry.indent docstring.entry.letters.now) }
{
    let mut lines = numbered(alloc, docstring.letters, docstring.line)?;
    if let Some(first) = lines.first_mut() {
        first.indent = docstring.indent as usize;
    }
    Ok(lines)
}
