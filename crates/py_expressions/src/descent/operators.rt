ghost use Rattle.std.specs.Prelude.{◌<◌, ◌≤◌, length, drop};
ghost use Rattle.spec_trees.specs.Expr.{no_links};
ghost use Rattle.spec_grammar.specs.Grammar.{loosest};
ghost use Rattle.spec_grammar.specs.Reading.{below, expr_with, level_with, chain_with, links_with};
ghost use Rattle.py_tree.specs.Arena.{IsModule, shown};
ghost use Rattle.py_expressions.specs.Given.{Grows, GivesExpr, GivesLinks, operands_with};

use super::primaries::prim;
use crate::nodes::{add, joined};
use py_tree::{ExprId, ExprNode, Link, Module};
use py_words::{LineWords, Unread};
use spec_grammar::Mark;
use std::alloc::Global;

// The level of `or`, the loosest operator.
pub(super) const LOOSEST: usize = 10;

// The operators of the levels below this one group from the left, and those of the others make one node of a chain.
const FIRST_CHAIN: usize = 6;

// An expression, one nesting further in.
#[cycle(descent)]
#[tactic(auto, using(crate::proofs::Growth::grows_then, crate::proofs::Growth::grows_same))]
pub(crate) fn expr(
    alloc: Global,
    words: &LineWords,
    into: &mut Module,
    room: usize,
    pos: usize,
) -> Result<(ExprId, usize), Unread>
    requires module { IsModule into.old }
    ensures grown { Grows into.old into.new }
    ensures read { GivesExpr words.now into.new result ((below room).expr (drop pos words.now)) }
{
    if room == 0 {
        return Err(Unread::NoForm);
    }
    conditional(alloc, words, into, room - 1, pos)
}

// A form of a level, one nesting further in.
#[cycle(descent)]
#[tactic(auto, using(crate::proofs::Growth::grows_then, crate::proofs::Growth::grows_same))]
pub(super) fn nested(
    alloc: Global,
    words: &LineWords,
    into: &mut Module,
    room: usize,
    of: usize,
    pos: usize,
) -> Result<(ExprId, usize), Unread>
    requires module { IsModule into.old }
    requires level { of ≤ loosest }
    ensures grown { Grows into.old into.new }
    ensures read { GivesExpr words.now into.new result ((below room).level of (drop pos words.now)) }
{
    if room == 0 {
        return Err(Unread::NoForm);
    }
    level(alloc, words, into, room - 1, of, pos)
}

// An operand of the loosest level, or a conditional expression.
#[cycle(descent)]
#[tactic(auto, using(crate::proofs::Growth::grows_then, crate::proofs::Growth::grows_same))]
fn conditional(
    alloc: Global,
    words: &LineWords,
    into: &mut Module,
    room: usize,
    pos: usize,
) -> Result<(ExprId, usize), Unread>
    requires module { IsModule into.old }
    ensures grown { Grows into.old into.new }
    ensures read { GivesExpr words.now into.new result (expr_with (below room) (drop pos words.now)) }
{
    let (value, next) = level(alloc, words, into, room, LOOSEST, pos)?;
    let Some(start) = words.sign(next, Mark::If) else {
        return Ok((value, next));
    };
    let (condition, after) = nested(alloc, words, into, room, LOOSEST, start)?;
    let Some(last) = words.sign(after, Mark::Else) else {
        return Err(Unread::NoForm);
    };
    let (otherwise, end) = expr(alloc, words, into, room, last)?;
    let choice = add(
        into,
        ExprNode::Choice {
            line: words.line(pos),
            value,
            condition,
            otherwise,
        },
    )?;
    Ok((choice, end))
}

// A form of a level: an operator before its operand, or operands of the level below with operators between them.
#[cycle(descent)]
#[tactic(auto, using(crate::proofs::Growth::grows_then, crate::proofs::Growth::grows_same))]
fn level(
    alloc: Global,
    words: &LineWords,
    into: &mut Module,
    room: usize,
    of: usize,
    pos: usize,
) -> Result<(ExprId, usize), Unread>
    requires module { IsModule into.old }
    requires level { of ≤ loosest }
    ensures grown { Grows into.old into.new }
    ensures read { GivesExpr words.now into.new result (level_with (below room) of (drop pos words.now)) }
{
    if let Some((operator, start)) = words.prefix(pos, of) {
        let (operand, next) = nested(alloc, words, into, room, of, start)?;
        let prefixed = add(
            into,
            ExprNode::Prefixed {
                line: words.line(pos),
                operator,
                operand,
            },
        )?;
        return Ok((prefixed, next));
    }
    if of == 0 {
        return prim(alloc, words, into, room, pos);
    }
    operands(alloc, words, into, room, of - 1, pos)
}

// Operands of a level with operators between them.
#[cycle(descent)]
#[tactic(auto, using(crate::proofs::Growth::grows_then, crate::proofs::Growth::grows_same))]
fn operands(
    alloc: Global,
    words: &LineWords,
    into: &mut Module,
    room: usize,
    of: usize,
    pos: usize,
) -> Result<(ExprId, usize), Unread>
    requires module { IsModule into.old }
    requires level { of < loosest }
    ensures grown { Grows into.old into.new }
    ensures read { GivesExpr words.now into.new result (operands_with (below room) of (drop pos words.now)) }
{
    let (first, next) = level(alloc, words, into, room, of, pos)?;
    let line = words.line(pos);
    if of < FIRST_CHAIN {
        return chain(alloc, words, into, room, of, line, first, next);
    }
    let (links, end) = links(alloc, words, into, room, of, next)?;
    Ok((joined(into, line, first, links)?, end))
}

// The operators of a level that group from the left, behind the operand `first` of a form that begins on a line.
#[cycle(descent)]
#[tactic(auto, using(crate::proofs::Growth::grows_then, crate::proofs::Growth::grows_same))]
fn chain(
    alloc: Global,
    words: &LineWords,
    into: &mut Module,
    room: usize,
    of: usize,
    line: u32,
    first: ExprId,
    start: usize,
) -> Result<(ExprId, usize), Unread>
    requires module { IsModule into.old }
    requires level { of < loosest }
    requires first { first.index < length into.old.exprs }
    ensures grown { Grows into.old into.new }
    ensures read { GivesExpr words.now into.new result (chain_with (level_with (below room) of) of line room (shown into.old first.index) (drop start words.now)) }
{
    let mut left = first;
    let mut pos = start;
    'operators: for _ in 0..room {
        let Some((operator, next)) = words.operator(pos, of) else {
            return Ok((left, pos));
        };
        let (right, after) = level(alloc, words, into, room, of, next)?;
        left = add(
            into,
            ExprNode::Binary {
                line,
                operator,
                left,
                right,
            },
        )?;
        pos = after;
    }
    Err(Unread::NoForm)
}

// The operators of a level that make one chain, each with the operand behind it.
#[cycle(descent)]
#[tactic(auto, using(crate::proofs::Growth::grows_then, crate::proofs::Growth::grows_same))]
fn links(
    alloc: Global,
    words: &LineWords,
    into: &mut Module,
    room: usize,
    of: usize,
    start: usize,
) -> Result<(Vec<Link>, usize), Unread>
    requires module { IsModule into.old }
    requires level { of < loosest }
    ensures grown { Grows into.old into.new }
    ensures read { GivesLinks (λ v. v.items) words.now into.new result (links_with (level_with (below room) of) of room no_links (drop start words.now)) }
{
    let mut links = Vec::new(alloc);
    let mut pos = start;
    'operators: for _ in 0..room {
        let Some((operator, next)) = words.operator(pos, of) else {
            return Ok((links, pos));
        };
        let (operand, after) = level(alloc, words, into, room, of, next)?;
        links.push(Link { operator, operand })?;
        pos = after;
    }
    Err(Unread::NoForm)
}
