ghost use Rattle.std.specs.Prelude.{◌≡◌, IfOk};
ghost use Rattle.spec_syntax.specs.Placement.{smallest};
ghost use Rattle.py_outline.specs.Orders.{header_at, from_next, past_block, block_faults, next_faults, follow_faults, order_faults};
ghost use Rattle.py_outline.specs.Told.{least};

use crate::headers::{goes_on, is_catch_all, is_except, is_try, may_follow};
use crate::stack::Stack;
use crate::told::with_fault;
use crate::{HeaderKind, Outline};
use std::alloc::Global;
use xh_outside::NoMemory;

/// The header of a line, where it stands in `depth` blocks.
fn header_at(depth: usize, outline: Outline) -> Option<HeaderKind>
    ensures { result ≡ header_at depth outline }
{
    if outline.depth == depth {
        outline.form.header()
    } else {
        None
    }
}

/// Of the line told so far and those of faults between a line and the very next one, the smallest.
fn with_block_faults(told: Option<u32>, outline: Outline, next: Option<Outline>) -> Option<u32>
    ensures { result ≡ least told (smallest (block_faults outline next)) }
{
    let awaits_block = outline.form.awaits_block();
    match next {
        None => with_fault(told, awaits_block, outline.line),
        Some(next) if !awaits_block => with_fault(told, next.depth > outline.depth, next.line),
        Some(next) if next.depth <= outline.depth => with_fault(told, true, outline.line),
        Some(next) => {
            let is_fault = next.depth - outline.depth > 1 || goes_on(next.form.header());
            with_fault(told, is_fault, next.line)
        }
    }
}

/// Of the line told so far and those of faults between a line and the next one behind its block, the smallest.
fn with_next_faults(told: Option<u32>, outline: Outline, next: Option<Outline>) -> Option<u32>
    ensures { result ≡ least told (smallest (next_faults outline next)) }
{
    let header = outline.form.header();
    match next {
        None => with_fault(told, is_try(header), outline.line),
        Some(next) => {
            let after = header_at(outline.depth, next);
            with_follow_faults(told, outline, next, header, after)
        }
    }
}

/// The same, where these are the header of the line and that of the next one in its block.
fn with_follow_faults(
    told: Option<u32>,
    outline: Outline,
    next: Outline,
    header: Option<HeaderKind>,
    after: Option<HeaderKind>,
) -> Option<u32>
    ensures { result ≡ least told (smallest (follow_faults outline next header after)) }
{
    let told = with_fault(told, !may_follow(header, after), next.line);
    let told = with_fault(told, is_try(header) && !is_except(after), outline.line);
    with_fault(told, is_catch_all(header) && is_except(after), outline.line)
}

/// Drops the first lines, as long as they stand in more than `depth` blocks.
fn drop_deeper(behind: &mut Stack<Outline>, depth: usize)
    ensures { behind.new ≡ from_next depth behind.old }
{
    while let Some(outline) = behind.first() {
        if outline.depth <= depth {
            return;
        }
        behind.pop();
    }
}

/// Drops the lines of the block that a line awaits.
fn drop_block(behind: &mut Stack<Outline>, outline: Outline)
    ensures { behind.new ≡ past_block outline behind.old }
{
    if outline.form.awaits_block() {
        drop_deeper(behind, outline.depth);
    }
}

/// The smallest line of a fault between lines.
// Goes from the last line to the first. A line that awaits a block looks for the first one behind it that is no deeper,
// so the lines of that block are of no use to any line before, and each line is dropped at most once.
pub(crate) fn order_fault(alloc: Global, outlines: &[Outline]) -> Result<Option<u32>, NoMemory>
    ensures { IfOk result (λ line. line ≡ smallest (order_faults outlines.now)) }
{
    let mut told = None;
    let mut behind = Stack::new(alloc);
    for outline in outlines.iter().rev() {
        told = with_block_faults(told, *outline, behind.first());
        drop_block(&mut behind, *outline);
        told = with_next_faults(told, *outline, behind.first());
        behind.push(*outline)?;
    }
    Ok(told)
}
