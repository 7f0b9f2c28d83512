ghost use Rattle.std.specs.Prelude.{◌≡◌, ◌<◌, ◌+◌, ◌^◌, ◌&&◌, ◌++◌, not, nat_lt, length, chars, encode_utf8_all, string_bytes, IfOk, OnOk, Some};
ghost use Rattle.spec_syntax.specs.Texts.{parsed_expression};
ghost use Rattle.spec_contracts.specs.declared.ContractFault.TheVariants.{BadExpression, UnknownName, Misplaced};
ghost use Rattle.spec_contracts.specs.Entries.{classes, spelled};
ghost use Rattle.spec_contracts.specs.Owners.{Owned};
ghost use Rattle.spec_contracts.specs.ContractLines.{classes_known, given_line, line_of, refusals_of, refused_if};
ghost use Rattle.contract_entries.specs.Given.{content_in, entry_in};
ghost use Rattle.contract_owners.specs.Members.{owner_in};
ghost use Rattle.contract_lines.specs.Errors.{is_refusal};
ghost use Rattle.contract_lines.specs.Given.{GivesLine, Grows, IsHeadOf, IsLineThere, IsListThere, IsSpelled, Reads, TellsMore, given, line_in, promise_of};

use crate::contracts::{ContractLine, Contracts};
use crate::names::{classes_known, list};
use crate::refusals::told_if;
use contract_entries::{Content, Entry};
use contract_owners::Owner;
use py_parser::{SyntaxError, expression};
use py_tree::{ExprId, Module, NamesId};
use spec_contracts::{ContractFault, LineKind, Refusal};
use std::alloc::Global;
use xh_outside::{Name, NoMemory};

/// A contract line without its expressions.
#[derive(Clone, Copy)]
pub(crate) struct Head {
    pub owner: Owner,
    pub kind: LineKind,
    /// From 1.
    pub line: u32,
    /// The names in its brackets, where it has brackets.
    pub names: Option<NamesId>,
    /// Whether these are parameters.
    pub is_known: bool,
    /// Whether it stands in a docstring of the other kind.
    pub is_misplaced: bool,
}

/// The contract lines that are read, and the first refusal among them.
#[derive(Drop)]
pub(crate) struct Reading {
    pub lines: Contracts,
    pub refusal: Option<Refusal>,
}

// The text of letters.
fn text_of(alloc: Global, letters: &[char]) -> Result<String, NoMemory>
    ensures { IfOk result (λ t. string_bytes t ≡ encode_utf8_all letters.now) }
{
    let text = letters.iter().copied().collect(alloc)?;
    Ok(text)
}

// Whether a text and its line are as small as what is read: each text below 2 GiB is.
fn is_small(text: &str, line: u32) -> bool
    ensures { result ≡ (nat_lt (length text.now) (2 ^ 31) && nat_lt (line + length text.now) (2 ^ 32)) }
{
    text.len() < 1 << 31 && line as usize + text.len() < 1 << 32
}

// Whether an error tells that a text is no expression.
fn is_refusal(error: SyntaxError) -> bool
    ensures { result ≡ is_refusal error }
{
    match error {
        SyntaxError::NoMemory => false,
        _ => true,
    }
}

// The expression that letters on a line are, where they are one.
#[tactic(auto, using(crate::proofs::Growth::grows_expressions, crate::proofs::Growth::grows_same))]
fn spelled(
    alloc: Global,
    letters: &[char],
    line: u32,
    into: &mut Module,
) -> Result<Option<ExprId>, NoMemory>
    ensures grown { Grows into.old into.new }
    ensures expression { IfOk result (λ o. IsSpelled into.new o (parsed_expression line letters.now)) }
{
    // its contract tells what holds of every module
    let _ = into.names_count();
    let text = text_of(alloc, letters)?;
    if !is_small(text.as_str(), line) {
        return Err(NoMemory);
    }
    match expression(alloc, text.as_str(), line, into) {
        Ok(e) => Ok(Some(e)),
        Err(error) if is_refusal(error) => Ok(None),
        Err(_) => Err(NoMemory),
    }
}

// The contract line of an entry with an expression, where that can be read.
fn spelled_line(
    alloc: Global,
    head: Head,
    line: u32,
    letters: &[char],
    into: &mut Module,
) -> Result<Option<ContractLine>, NoMemory>
    requires { IsListThere into.old head.names }
    ensures grown { Grows into.old into.new }
    ensures line { IfOk result (λ o. GivesLine into.new o (line_of (owner_in head.owner) (record { line = line; promise = promise_of into.old head; content = spelled letters.now }))) }
{
    // its contract tells what holds of every module
    let _ = into.names_count();
    let expr = spelled(alloc, letters, line, into)?;
    if expr.is_none() {
        return Ok(None);
    }
    Ok(Some(ContractLine {
        owner: head.owner,
        kind: head.kind,
        line,
        expr,
        names: head.names,
    }))
}

// The contract line of an entry that lists classes.
fn listed_line(
    alloc: Global,
    head: Head,
    line: u32,
    names: &[Name],
    into: &mut Module,
) -> Result<ContractLine, NoMemory>
    ensures grown { Grows into.old into.new }
    ensures line { IfOk result (λ l. IsLineThere into.new l × (line_of (owner_in head.owner) (record { line = line; promise = promise_of into.old head; content = classes names.now }) ≡ Some (line_in into.new l))) }
{
    let list = list(alloc, names, into)?;
    Ok(ContractLine {
        owner: head.owner,
        kind: head.kind,
        line,
        expr: None,
        names: Some(list),
    })
}

// The contract line of an entry, where it can be read.
#[tactic(auto, using(crate::proofs::Growth::grows_same))]
fn line_of(
    alloc: Global,
    head: Head,
    entry: &Entry,
    into: &mut Module,
) -> Result<Option<ContractLine>, NoMemory>
    requires { IsListThere into.old head.names }
    ensures grown { Grows into.old into.new }
    ensures line { IfOk result (λ o. GivesLine into.new o (line_of (owner_in head.owner) (entry_in (promise_of into.old head) entry.now))) }
{
    // its contract tells what holds of every module
    let _ = into.names_count();
    match &entry.content {
        Content::Spelled(letters) => spelled_line(alloc, head, entry.line, letters, into),
        Content::Classes(names) => {
            let line = listed_line(alloc, head, entry.line, names, into)?;
            Ok(Some(line))
        }
        Content::Unread => Ok(None),
    }
}

// Whether the names of an entry and of its contract line are known.
fn is_known(head: Head, entry: &Entry) -> bool
    ensures { result ≡ (head.is_known && classes_known (content_in entry.now.content)) }
{
    head.is_known && classes_known(&entry.content)
}

// What is told behind an entry, which may have no contract line.
fn told_behind(told: Option<Refusal>, head: Head, entry: &Entry, is_unread: bool) -> Option<Refusal>
    ensures { TellsMore told result (refused_if is_unread entry.now.line BadExpression ++ refused_if (not (head.is_known && classes_known (content_in entry.now.content))) head.line UnknownName ++ refused_if head.is_misplaced head.line Misplaced) }
{
    let is_known = is_known(head, entry);
    let told = told_if(told, is_unread, entry.line, ContractFault::BadExpression);
    let told = told_if(told, !is_known, head.line, ContractFault::UnknownName);
    told_if(told, head.is_misplaced, head.line, ContractFault::Misplaced)
}

// Appends a line, where there is one.
fn append(lines: &mut Contracts, line: Option<ContractLine>) -> Result<(), NoMemory>
    ensures { OnOk result (lines.new ≡ lines.old ++ given line) }
{
    match line {
        Some(line) => lines.push(line),
        None => Ok(()),
    }
}

/// Reads an entry of a contract line.
pub(crate) fn read_entry(
    alloc: Global,
    head: Head,
    entry: &Entry,
    into: &mut Module,
    reading: &mut Reading,
) -> Result<(), NoMemory>
    requires { IsListThere into.old head.names }
    ensures grown { Grows into.old into.new }
    ensures read { OnOk result ((o : Owned) → IsHeadOf into.old head o → Reads into.old into.new reading.old reading.new (given_line (line_of o.owner (entry_in (promise_of into.old head) entry.now))) (refusals_of o (entry_in (promise_of into.old head) entry.now))) }
{
    // its contract tells what holds of every module
    let _ = into.names_count();
    let line = line_of(alloc, head, entry, into)?;
    reading.refusal = told_behind(reading.refusal, head, entry, line.is_none());
    append(&mut reading.lines, line)
}
