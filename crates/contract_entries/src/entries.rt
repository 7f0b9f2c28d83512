ghost use Rattle.std.specs.Prelude.{◌≡◌, IfOk};
ghost use Rattle.spec_contracts.specs.Entries.{content_of, listed, spelled, unless_escaped};
ghost use Rattle.spec_contracts.specs.Heads.{names_in};
ghost use Rattle.contract_entries.specs.Given.{content_in};

use crate::letters::is_escaped;
use crate::names::names_in;
use spec_contracts::LineKind;
use std::alloc::Global;
use xh_outside::{Name, NoMemory};

/// What an entry holds.
#[derive(Drop)]
pub enum Content<'a> {
    /// The letters of an expression.
    Spelled(&'a [char]),
    /// The names of exception classes, of which there is at least one.
    Classes(Vec<Name>),
    /// Nothing that can be read.
    Unread,
}

/// One expression or one list of classes.
#[derive(Drop)]
pub struct Entry<'a> {
    /// The line on which it stands, from 1.
    pub line: u32,
    pub content: Content<'a>,
}

/// A contract line with its entries: what stands behind its colon, or each line of the block below it.
#[derive(Drop)]
pub struct Promise<'a> {
    /// The line, from 1, of the contract line.
    pub line: u32,
    pub kind: LineKind,
    /// The names in its brackets, where it has brackets.
    pub names: Option<Vec<Name>>,
    pub entries: Vec<Entry<'a>>,
}

/// What a line of a docstring holds whose letters are an expression.
pub(crate) fn expression<'a>(raw: bool, line: &'a [char], letters: &'a [char]) -> Content<'a>
    ensures { content_in result ≡ unless_escaped raw line.now (spelled letters.now) }
{
    if is_escaped(raw, line) {
        return Content::Unread;
    }
    Content::Spelled(letters)
}

// The classes that letters list.
fn listed<'a>(alloc: Global, letters: &[char]) -> Result<Content<'a>, NoMemory>
    ensures { IfOk result (λ c. content_in c ≡ listed (names_in letters.now)) }
{
    match names_in(alloc, letters)? {
        Some(names) => Ok(Content::Classes(names)),
        None => Ok(Content::Unread),
    }
}

/// What a contract line holds behind its colon.
pub(crate) fn content_of<'a>(
    alloc: Global,
    raw: bool,
    line: &'a [char],
    kind: LineKind,
    letters: &'a [char],
) -> Result<Content<'a>, NoMemory>
    ensures { IfOk result (λ c. content_in c ≡ unless_escaped raw line.now (content_of kind letters.now)) }
{
    if is_escaped(raw, line) {
        return Ok(Content::Unread);
    }
    match kind {
        LineKind::Raises => listed(alloc, letters),
        _ => Ok(Content::Spelled(letters)),
    }
}
