ghost use Rattle.std.specs.Prelude.{◌+◌, ◌^◌, ◌<◌, List, [], ◌∷◌, length, drop};
ghost use Rattle.spec_trees.specs.Module as tree;
ghost use Rattle.spec_grammar.specs.Blocks as spelled;
ghost use Rattle.spec_grammar.specs.Blocks.{catches_all};
ghost use Rattle.spec_grammar.specs.BlockReading.{branches_with, else_with, handlers_with, statement_below};
ghost use Rattle.py_tree.specs.Arena.{IsModule, shown_stmt};
ghost use Rattle.py_tree.specs.Stmts.{handlers_tree, texts_of, AreHandlersBelow};
ghost use Rattle.py_placed.specs.Placed.{ArePlaced};
ghost use Rattle.py_blocks.specs.Given.{AreThere, GivesBlock, GivesBranches, GivesHandlers};
ghost use Rattle.py_blocks.specs.Growth.{line_extents, Builds};

use super::statements::suite;
use crate::frame::Frame;
use crate::heads::{elif_at, else_at, except_at};
use crate::nodes::catches_all;
use py_placed::PlacedLine;
use py_tree::{BranchNode, HandlerNode, Module, StmtId};
use py_words::Unread;
use std::alloc::Global;

// Any `elif`, each with its block, and the place behind them.
#[cycle(building)]
#[tactic(auto, using(crate::proofs::Growth::builds_then, crate::proofs::Growth::builds_same, crate::proofs::Growth::there_later))]
pub(super) fn branches(
    alloc: Global,
    lines: &[PlacedLine],
    into: &mut Module,
    frame: Frame,
    start: usize,
) -> Result<(Vec<BranchNode>, usize), Unread>
    requires module { IsModule into.old }
    requires placed { AreThere into.old lines.now }
    requires frame { frame.depth + 1 + frame.room < 2 ^ 64 }
    ensures built { Builds (line_extents lines.now) into.old into.new }
    ensures read { (ps : List spelled.PlacedLine) → ArePlaced into.old lines.now ps → GivesBranches into.new ps result (branches_with (statement_below frame.room) frame.turns frame.depth frame.turns tree.no_branch (drop start ps)) }
{
    let mut list = Vec::new(alloc);
    let mut pos = start;
    'list: for _ in 0..frame.turns {
        let Some((line, condition, own)) = elif_at(lines, frame.depth, pos) else {
            return Ok((list, pos));
        };
        let (body, next) = suite(alloc, lines, into, frame, own, pos + 1)?;
        list.push(BranchNode {
            line,
            condition,
            body,
        })?;
        pos = next;
    }
    Err(Unread::NoForm)
}

// Any `except` behind the first, each with its block, and the place behind them. None follows one that catches all.
#[cycle(building)]
#[tactic(auto, using(crate::proofs::Growth::builds_then, crate::proofs::Growth::builds_same, crate::proofs::Growth::there_later))]
pub(super) fn handlers(
    alloc: Global,
    lines: &[PlacedLine],
    into: &mut Module,
    frame: Frame,
    first: HandlerNode,
    start: usize,
) -> Result<(Vec<HandlerNode>, usize), Unread>
    requires module { IsModule into.old }
    requires placed { AreThere into.old lines.now }
    requires frame { frame.depth + 1 + frame.room < 2 ^ 64 }
    requires first { AreHandlersBelow into.old (length into.old.stmts) (first ∷ []) }
    ensures built { Builds (line_extents lines.now) into.old into.new }
    ensures read { (ps : List spelled.PlacedLine) → ArePlaced into.old lines.now ps → GivesHandlers into.new ps result (handlers_with (statement_below frame.room) frame.turns frame.depth frame.turns (catches_all (texts_of into.old first.classes)) (handlers_tree into.old (shown_stmt into.old) (first ∷ [])) (drop start ps)) }
{
    let mut is_last = catches_all(into, first.classes);
    let mut list = Vec::new(alloc);
    list.push(first)?;
    let mut pos = start;
    'list: for _ in 0..frame.turns {
        if is_last {
            return Ok((list, pos));
        }
        let Some((line, classes, own)) = except_at(lines, frame.depth, pos) else {
            return Ok((list, pos));
        };
        let (body, next) = suite(alloc, lines, into, frame, own, pos + 1)?;
        is_last = catches_all(into, classes);
        list.push(HandlerNode {
            line,
            classes,
            body,
        })?;
        pos = next;
    }
    Err(Unread::NoForm)
}

// The block of an `else`, which is empty where there is none, and the place behind it.
#[cycle(building)]
#[tactic(auto, using(crate::proofs::Growth::builds_then, crate::proofs::Growth::builds_same, crate::proofs::Growth::there_later))]
pub(super) fn otherwise(
    alloc: Global,
    lines: &[PlacedLine],
    into: &mut Module,
    frame: Frame,
    pos: usize,
) -> Result<(Vec<StmtId>, usize), Unread>
    requires module { IsModule into.old }
    requires placed { AreThere into.old lines.now }
    requires frame { frame.depth + 1 + frame.room < 2 ^ 64 }
    ensures built { Builds (line_extents lines.now) into.old into.new }
    ensures read { (ps : List spelled.PlacedLine) → ArePlaced into.old lines.now ps → GivesBlock into.new ps result (else_with (statement_below frame.room) frame.turns frame.depth (drop pos ps)) }
{
    match else_at(lines, frame.depth, pos) {
        Some((_, own)) => suite(alloc, lines, into, frame, own, pos + 1),
        None => Ok((Vec::new(alloc), pos)),
    }
}
