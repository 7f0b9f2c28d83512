ghost use Rattle.std.specs.Prelude.{◌+◌, ◌^◌, ◌<◌, List, Option, length, drop};
ghost use Rattle.spec_trees.specs.Stmt.{Simple};
ghost use Rattle.spec_grammar.specs.Blocks as spelled;
ghost use Rattle.spec_grammar.specs.BlockReading.{headed_with, statement_below, tried_with};
ghost use Rattle.py_tree.specs.Arena.{IsModule, shown, shown_stmt};
ghost use Rattle.py_tree.specs.Names.{text_of};
ghost use Rattle.py_tree.specs.Stmts.{block_tree, AreStmtsBelow};
ghost use Rattle.py_lines.specs.Headers.{header_tree};
ghost use Rattle.py_placed.specs.Placed.{ArePlaced};
ghost use Rattle.py_blocks.specs.Given.{if_behind, for_behind, while_behind, AreThere, GivesStatement};
ghost use Rattle.py_blocks.specs.Growth.{line_extents, Builds};
ghost use Rattle.py_blocks.specs.Heads.{IsHead, IsOwn};

use super::clauses::{branches, handlers, otherwise};
use super::statements::suite;
use crate::frame::Frame;
use crate::heads::{except_at, last_line};
use crate::nodes::add;
use py_lines::HeaderNode;
use py_placed::PlacedLine;
use py_tree::{ExprId, HandlerNode, Module, NameId, StmtId, StmtNode};
use py_words::Unread;
use std::alloc::Global;

// The statement that a header begins, which stands at a place with what is on its line, and the place behind it.
#[cycle(building)]
#[tactic(auto, using(crate::proofs::Growth::builds_then, crate::proofs::Growth::builds_same, crate::proofs::Growth::there_later))]
pub(super) fn headed(
    alloc: Global,
    lines: &[PlacedLine],
    into: &mut Module,
    frame: Frame,
    header: &HeaderNode,
    own: Option<StmtId>,
    pos: usize,
) -> Result<(StmtId, usize), Unread>
    requires module { IsModule into.old }
    requires placed { AreThere into.old lines.now }
    requires frame { frame.depth + 1 + frame.room < 2 ^ 64 }
    requires place { pos + 1 < 2 ^ 64 }
    requires head { IsHead lines.now pos header.now own }
    ensures built { Builds (line_extents lines.now) into.old into.new }
    ensures read { (ps : List spelled.PlacedLine) → ArePlaced into.old lines.now ps → (d : Option Simple) → IsOwn into.old own d → GivesStatement into.new ps result (headed_with (statement_below frame.room) frame.turns frame.depth (header_tree into.old header.now) d (drop (pos + 1) ps)) }
{
    let (body, next) = suite(alloc, lines, into, frame, own, pos + 1)?;
    match header {
        HeaderNode::Def {
            line,
            name,
            parameters,
            result,
        } => {
            let node = StmtNode::Def {
                line: *line,
                last: last_line(lines, pos),
                name: *name,
                parameters: Vec::from_slice(alloc, parameters)?,
                result: *result,
                body,
            };
            Ok((add(into, node)?, next))
        }
        HeaderNode::Class { line, name } => {
            let node = StmtNode::Class {
                line: *line,
                last: last_line(lines, pos),
                name: *name,
                body,
            };
            Ok((add(into, node)?, next))
        }
        HeaderNode::If { line, condition } => {
            choice(alloc, lines, into, frame, *line, *condition, body, next)
        }
        HeaderNode::While { line, condition } => {
            while_loop(alloc, lines, into, frame, *line, *condition, body, next)
        }
        HeaderNode::For {
            line,
            variable,
            iterable,
        } => {
            let walk = (*variable, *iterable);
            for_loop(alloc, lines, into, frame, *line, walk, body, next)
        }
        HeaderNode::Try { line } => tried(alloc, lines, into, frame, *line, body, next),
        HeaderNode::Elif { .. } | HeaderNode::Else { .. } | HeaderNode::Except { .. } => {
            Err(Unread::NoForm)
        }
    }
}

// An `if`, behind its first block.
#[cycle(building)]
#[tactic(auto, using(crate::proofs::Growth::builds_then, crate::proofs::Growth::builds_same, crate::proofs::Growth::there_later))]
fn choice(
    alloc: Global,
    lines: &[PlacedLine],
    into: &mut Module,
    frame: Frame,
    line: u32,
    condition: ExprId,
    body: Vec<StmtId>,
    pos: usize,
) -> Result<(StmtId, usize), Unread>
    requires module { IsModule into.old }
    requires placed { AreThere into.old lines.now }
    requires frame { frame.depth + 1 + frame.room < 2 ^ 64 }
    requires condition { condition.index < length into.old.exprs }
    requires body { AreStmtsBelow (length into.old.stmts) body.items }
    ensures built { Builds (line_extents lines.now) into.old into.new }
    ensures read { (ps : List spelled.PlacedLine) → ArePlaced into.old lines.now ps → GivesStatement into.new ps result (if_behind (statement_below frame.room) frame.turns frame.depth line (shown into.old condition.index) (block_tree (shown_stmt into.old) body.items) (drop pos ps)) }
{
    let (branches, after) = branches(alloc, lines, into, frame, pos)?;
    let (otherwise, end) = otherwise(alloc, lines, into, frame, after)?;
    let node = StmtNode::If {
        line,
        condition,
        body,
        branches,
        otherwise,
    };
    Ok((add(into, node)?, end))
}

// A `while`, behind its first block.
#[cycle(building)]
#[tactic(auto, using(crate::proofs::Growth::builds_then, crate::proofs::Growth::builds_same, crate::proofs::Growth::there_later))]
fn while_loop(
    alloc: Global,
    lines: &[PlacedLine],
    into: &mut Module,
    frame: Frame,
    line: u32,
    condition: ExprId,
    body: Vec<StmtId>,
    pos: usize,
) -> Result<(StmtId, usize), Unread>
    requires module { IsModule into.old }
    requires placed { AreThere into.old lines.now }
    requires frame { frame.depth + 1 + frame.room < 2 ^ 64 }
    requires condition { condition.index < length into.old.exprs }
    requires body { AreStmtsBelow (length into.old.stmts) body.items }
    ensures built { Builds (line_extents lines.now) into.old into.new }
    ensures read { (ps : List spelled.PlacedLine) → ArePlaced into.old lines.now ps → GivesStatement into.new ps result (while_behind (statement_below frame.room) frame.turns frame.depth line (shown into.old condition.index) (block_tree (shown_stmt into.old) body.items) (drop pos ps)) }
{
    let (otherwise, end) = otherwise(alloc, lines, into, frame, pos)?;
    let node = StmtNode::While {
        line,
        condition,
        body,
        otherwise,
    };
    Ok((add(into, node)?, end))
}

// A `for` with its variable and what that walks over, behind its first block.
#[cycle(building)]
#[tactic(auto, using(crate::proofs::Growth::builds_then, crate::proofs::Growth::builds_same, crate::proofs::Growth::there_later))]
fn for_loop(
    alloc: Global,
    lines: &[PlacedLine],
    into: &mut Module,
    frame: Frame,
    line: u32,
    walk: (NameId, ExprId),
    body: Vec<StmtId>,
    pos: usize,
) -> Result<(StmtId, usize), Unread>
    requires module { IsModule into.old }
    requires placed { AreThere into.old lines.now }
    requires frame { frame.depth + 1 + frame.room < 2 ^ 64 }
    requires variable { walk.0.index < length into.old.names }
    requires iterable { walk.1.index < length into.old.exprs }
    requires body { AreStmtsBelow (length into.old.stmts) body.items }
    ensures built { Builds (line_extents lines.now) into.old into.new }
    ensures read { (ps : List spelled.PlacedLine) → ArePlaced into.old lines.now ps → GivesStatement into.new ps result (for_behind (statement_below frame.room) frame.turns frame.depth line (text_of into.old.names walk.0) (shown into.old walk.1.index) (block_tree (shown_stmt into.old) body.items) (drop pos ps)) }
{
    let (variable, iterable) = walk;
    let (otherwise, end) = otherwise(alloc, lines, into, frame, pos)?;
    let node = StmtNode::For {
        line,
        variable,
        iterable,
        body,
        otherwise,
    };
    Ok((add(into, node)?, end))
}

// A `try`, behind its first block.
#[cycle(building)]
#[tactic(auto, using(crate::proofs::Growth::builds_then, crate::proofs::Growth::builds_same, crate::proofs::Growth::there_later))]
fn tried(
    alloc: Global,
    lines: &[PlacedLine],
    into: &mut Module,
    frame: Frame,
    line: u32,
    body: Vec<StmtId>,
    pos: usize,
) -> Result<(StmtId, usize), Unread>
    requires module { IsModule into.old }
    requires placed { AreThere into.old lines.now }
    requires frame { frame.depth + 1 + frame.room < 2 ^ 64 }
    requires body { AreStmtsBelow (length into.old.stmts) body.items }
    ensures built { Builds (line_extents lines.now) into.old into.new }
    ensures read { (ps : List spelled.PlacedLine) → ArePlaced into.old lines.now ps → GivesStatement into.new ps result (tried_with (statement_below frame.room) frame.turns frame.depth line (block_tree (shown_stmt into.old) body.items) (drop pos ps)) }
{
    let Some((first_line, classes, own)) = except_at(lines, frame.depth, pos) else {
        return Err(Unread::NoForm);
    };
    let (caught, next) = suite(alloc, lines, into, frame, own, pos + 1)?;
    let first = HandlerNode {
        line: first_line,
        classes,
        body: caught,
    };
    let (handlers, after) = handlers(alloc, lines, into, frame, first, next)?;
    let (otherwise, end) = otherwise(alloc, lines, into, frame, after)?;
    let node = StmtNode::Try {
        line,
        body,
        handlers,
        otherwise,
    };
    Ok((add(into, node)?, end))
}
