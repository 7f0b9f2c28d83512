ghost use Rattle.std.specs.Prelude.{◌+◌, ◌^◌, ◌<◌, List, Option, length, drop};
ghost use Rattle.spec_trees.specs.Stmt.{Simple};
ghost use Rattle.spec_grammar.specs.Blocks as spelled;
ghost use Rattle.spec_grammar.specs.BlockReading.{block_with, body_with, statement_below};
ghost use Rattle.py_tree.specs.Arena.{IsModule, shown_stmt};
ghost use Rattle.py_tree.specs.Stmts.{block_tree, AreStmtsBelow};
ghost use Rattle.py_placed.specs.Placed.{ArePlaced};
ghost use Rattle.py_blocks.specs.Given.{AreThere, GivesBlock, GivesStatement};
ghost use Rattle.py_blocks.specs.Growth.{line_extents, Builds};
ghost use Rattle.py_blocks.specs.Heads.{IsOwn};

use super::compounds::headed;
use crate::frame::Frame;
use crate::heads::line_at;
use py_lines::LineNode;
use py_placed::PlacedLine;
use py_tree::{Module, StmtId};
use py_words::Unread;
use std::alloc::Global;

// A statement, and the place behind it.
#[cycle(building)]
#[tactic(auto, using(crate::proofs::Growth::builds_then, crate::proofs::Growth::builds_same, crate::proofs::Growth::there_later))]
fn statement(
    alloc: Global,
    lines: &[PlacedLine],
    into: &mut Module,
    frame: Frame,
    pos: usize,
) -> Result<(StmtId, usize), Unread>
    requires module { IsModule into.old }
    requires placed { AreThere into.old lines.now }
    requires frame { frame.depth + frame.room < 2 ^ 64 }
    ensures built { Builds (line_extents lines.now) into.old into.new }
    ensures read { (ps : List spelled.PlacedLine) → ArePlaced into.old lines.now ps → GivesStatement into.new ps result (statement_below frame.room frame.depth (drop pos ps)) }
{
    if frame.room == 0 {
        return Err(Unread::NoForm);
    }
    let inner = Frame {
        room: frame.room - 1,
        turns: frame.room,
        depth: frame.depth,
    };
    let Some(line) = line_at(lines, frame.depth, pos) else {
        return Err(Unread::NoForm);
    };
    match &line.node {
        LineNode::Simple(simple) => Ok((*simple, pos + 1)),
        LineNode::Header(header) => headed(alloc, lines, into, inner, header, None, pos),
        LineNode::HeaderSimple(header, own) => {
            headed(alloc, lines, into, inner, header, Some(*own), pos)
        }
    }
}

// The statements of a block behind those that were built, and the place behind them.
#[cycle(building)]
#[tactic(auto, using(crate::proofs::Growth::builds_then, crate::proofs::Growth::builds_same, crate::proofs::Growth::there_later))]
pub(crate) fn block(
    alloc: Global,
    lines: &[PlacedLine],
    into: &mut Module,
    frame: Frame,
    before: Vec<StmtId>,
    start: usize,
) -> Result<(Vec<StmtId>, usize), Unread>
    requires module { IsModule into.old }
    requires placed { AreThere into.old lines.now }
    requires frame { frame.depth + frame.room < 2 ^ 64 }
    requires before { AreStmtsBelow (length into.old.stmts) before.items }
    ensures built { Builds (line_extents lines.now) into.old into.new }
    ensures read { (ps : List spelled.PlacedLine) → ArePlaced into.old lines.now ps → GivesBlock into.new ps result (block_with (statement_below frame.room frame.depth) frame.turns (block_tree (shown_stmt into.old) before.items) (drop start ps)) }
{
    let mut list = before;
    let mut pos = start;
    'list: for _ in 0..frame.turns {
        match statement(alloc, lines, into, frame, pos) {
            Ok((next, after)) => {
                list.push(next)?;
                pos = after;
            }
            Err(Unread::NoForm) => return Ok((list, pos)),
            Err(Unread::NoMemory) => return Err(Unread::NoMemory),
        }
    }
    Err(Unread::NoForm)
}

// The block of a header: the statement on its line, or else the lines that stand one block deeper.
#[cycle(building)]
#[tactic(auto, using(crate::proofs::Growth::builds_then, crate::proofs::Growth::builds_same, crate::proofs::Growth::there_later))]
pub(super) fn suite(
    alloc: Global,
    lines: &[PlacedLine],
    into: &mut Module,
    frame: Frame,
    own: Option<StmtId>,
    pos: usize,
) -> Result<(Vec<StmtId>, usize), Unread>
    requires module { IsModule into.old }
    requires placed { AreThere into.old lines.now }
    requires frame { frame.depth + 1 + frame.room < 2 ^ 64 }
    ensures built { Builds (line_extents lines.now) into.old into.new }
    ensures read { (ps : List spelled.PlacedLine) → ArePlaced into.old lines.now ps → (d : Option Simple) → IsOwn into.old own d → GivesBlock into.new ps result (body_with (statement_below frame.room) frame.turns frame.depth d (drop pos ps)) }
{
    let mut body = Vec::new(alloc);
    if let Some(statement) = own {
        body.push(statement)?;
        return Ok((body, pos));
    }
    let deeper = Frame {
        room: frame.room,
        turns: frame.turns,
        depth: frame.depth + 1,
    };
    let (first, next) = statement(alloc, lines, into, deeper, pos)?;
    body.push(first)?;
    block(alloc, lines, into, deeper, body, next)
}
