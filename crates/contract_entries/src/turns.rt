ghost use Rattle.std.specs.Prelude.{◌≡◌, ◌++◌, ◌∷◌, [], IfOk, OnOk, None, Some};
ghost use Rattle.std.specs.Option.{option_map};
ghost use Rattle.spec_contracts.specs.Docstrings.{lines_in};
ghost use Rattle.spec_contracts.specs.Heads as heads;
ghost use Rattle.spec_contracts.specs.Entries.{begun, closed, continued, entries, entry_of, opened, opens, turn};
ghost use Rattle.contract_entries.specs.Given.{Turns, all_entries, block_entries, block_in, entries_in, head_in, line_in};

use crate::entries::{Content, Entry, Promise, content_of, expression};
use crate::heads::{Head, head_of};
use crate::letters::{is_comment, is_escaped, unindented};
use crate::lines::{DocLine, Docstring, lines_of};
use spec_contracts::LineKind;
use std::alloc::Global;
use xh_outside::NoMemory;

// A block that may go on.
#[derive(Drop)]
struct Block<'a> {
    promise: Promise<'a>,
    // The number of spaces and tabs before its contract line.
    indent: usize,
    // Whether it has no expression yet.
    is_empty: bool,
}

// Whether a block follows the contract line.
fn opens(head: &Head) -> bool
    ensures { result ≡ opens (head_in head.now) }
{
    head.kind != LineKind::Raises && unindented(head.rest).is_empty()
}

// The block of a contract line, with no entry yet.
fn opened<'a>(alloc: Global, line: DocLine<'a>, head: Head<'a>) -> Block<'a>
    ensures block { block_in result ≡ opened (line_in line.entry) (head_in head.entry) }
    ensures empty { result.promise.entries.items ≡ [] }
{
    Block {
        promise: Promise {
            line: line.number,
            kind: head.kind,
            names: head.names,
            entries: Vec::new(alloc),
        },
        indent: line.indent,
        is_empty: true,
    }
}

// A contract line that is read whole.
fn whole<'a>(
    alloc: Global,
    raw: bool,
    line: DocLine<'a>,
    head: Head<'a>,
) -> Result<Promise<'a>, NoMemory>
    ensures { IfOk result (λ p. entries_in p ≡ entry_of raw (line_in line.entry) (head_in head.entry) ∷ []) }
{
    let content = content_of(alloc, raw, line.text, head.kind, head.rest)?;
    let mut promise = opened(alloc, line, head).promise;
    promise.entries.push(Entry {
        line: line.number,
        content,
    })?;
    Ok(promise)
}

// Reads a line behind prose or behind a block.
fn begin<'a>(
    alloc: Global,
    raw: bool,
    line: DocLine<'a>,
    promises: &mut Vec<Promise<'a>>,
) -> Result<Option<Block<'a>>, NoMemory>
    ensures { IfOk result (λ b. Turns (all_entries promises.old.items) promises.new.items b (begun raw (line_in line.entry) (heads.head_of line.entry.text.now))) }
{
    let Some(head) = head_of(alloc, line.text)? else {
        return Ok(None);
    };
    if opens(&head) {
        return Ok(Some(opened(alloc, line, head)));
    }
    promises.push(whole(alloc, raw, line, head)?)?;
    Ok(None)
}

// Ends a block.
fn close<'a>(block: Block<'a>, promises: &mut Vec<Promise<'a>>) -> Result<(), NoMemory>
    ensures { OnOk result (all_entries promises.new.items ≡ all_entries promises.old.items ++ entries_in block.entry.promise ++ closed (block_in block.entry)) }
{
    let mut promise = block.promise;
    if block.is_empty {
        let line = promise.line;
        promise.entries.push(Entry {
            line,
            content: Content::Unread,
        })?;
    }
    promises.push(promise)?;
    Ok(())
}

// Reads a line of a block that is not empty.
fn go_on<'a>(raw: bool, line: DocLine<'a>, block: Block<'a>) -> Result<Block<'a>, NoMemory>
    ensures entries { IfOk result (λ b. entries_in b.promise ≡ entries_in block.entry.promise ++ (continued raw (block_in block.entry) (line_in line.entry)).entries) }
    ensures block { IfOk result (λ b. Some (block_in b) ≡ (continued raw (block_in block.entry) (line_in line.entry)).block) }
{
    let mut block = block;
    let content = if !is_comment(line.text) {
        block.is_empty = false;
        expression(raw, line.text, line.text)
    } else if is_escaped(raw, line.text) {
        Content::Unread
    } else {
        return Ok(block);
    };
    block.promise.entries.push(Entry {
        line: line.number,
        content,
    })?;
    Ok(block)
}

// Reads a line, where a block may be open.
fn turn<'a>(
    alloc: Global,
    raw: bool,
    line: DocLine<'a>,
    block: Option<Block<'a>>,
    promises: &mut Vec<Promise<'a>>,
) -> Result<Option<Block<'a>>, NoMemory>
    ensures { IfOk result (λ b. Turns (all_entries promises.old.items ++ block_entries block.entry) promises.new.items b (turn raw (option_map block_in block.entry) (line_in line.entry))) }
{
    let Some(block) = block else {
        return begin(alloc, raw, line, promises);
    };
    if line.text.is_empty() {
        return Ok(Some(block));
    }
    if block.indent < line.indent {
        return Ok(Some(go_on(raw, line, block)?));
    }
    close(block, promises)?;
    begin(alloc, raw, line, promises)
}

/// The contract lines of a docstring in their order, with their entries. It takes time linear in the number of letters.
///
/// # Errors
///
/// There is no memory for them, or a line has no number below 2^32.
pub fn promises<'a>(alloc: Global, docstring: Docstring<'a>) -> Result<Vec<Promise<'a>>, NoMemory>
    ensures { IfOk result (λ v. all_entries v.items ≡ entries docstring.entry.raw None (lines_in docstring.entry.line docstring.entry.indent docstring.entry.letters.now)) }
{
    let lines = lines_of(alloc, docstring)?;
    let mut promises = Vec::new(alloc);
    let mut block = None;
    for line in &lines {
        block = turn(alloc, docstring.raw, *line, block, &mut promises)?;
    }
    if let Some(block) = block {
        close(block, &mut promises)?;
    }
    Ok(promises)
}
