ghost use Rattle.std.specs.Prelude.{◌<◌, false, length, drop};
ghost use Rattle.spec_grammar.specs.Reading.{below, prim_with, suffixes_with, atom_with, signed_with, group_with, subscript_with, slice_with};
ghost use Rattle.py_tree.specs.Arena.{IsModule, shown};
ghost use Rattle.py_tree.specs.Exprs.{bound_tree, IsBoundBelow};
ghost use Rattle.py_expressions.specs.Given.{Grows, GivesExpr};

use super::calls::arguments;
use super::displays::{dict, list};
use super::operators::expr;
use crate::leaves::leaf;
use crate::nodes::{add, add_name};
use py_tree::{ExprId, ExprNode, Module};
use py_words::{LineWords, Unread};
use spec_grammar::Mark;
use std::alloc::Global;

// What stands alone, or an attribute, a call, an index or a slice of such a form.
#[cycle(descent)]
#[tactic(auto, using(crate::proofs::Growth::grows_then, crate::proofs::Growth::grows_same))]
pub(crate) fn prim(
    alloc: Global,
    words: &LineWords,
    into: &mut Module,
    room: usize,
    pos: usize,
) -> Result<(ExprId, usize), Unread>
    requires module { IsModule into.old }
    ensures grown { Grows into.old into.new }
    ensures read { GivesExpr words.now into.new result (prim_with (below room) (drop pos words.now)) }
{
    let (first, next) = atom(alloc, words, into, room, pos)?;
    suffixes(alloc, words, into, room, words.line(pos), first, next)
}

// What stands behind `first`, a form that begins on a line.
#[cycle(descent)]
#[tactic(auto, using(crate::proofs::Growth::grows_then, crate::proofs::Growth::grows_same))]
fn suffixes(
    alloc: Global,
    words: &LineWords,
    into: &mut Module,
    room: usize,
    line: u32,
    first: ExprId,
    start: usize,
) -> Result<(ExprId, usize), Unread>
    requires module { IsModule into.old }
    requires first { first.index < length into.old.exprs }
    ensures grown { Grows into.old into.new }
    ensures read { GivesExpr words.now into.new result (suffixes_with (below room) line room (shown into.old first.index) (drop start words.now)) }
{
    let mut value = first;
    let mut pos = start;
    'suffixes: for _ in 0..room {
        if let Some(inner) = words.sign(pos, Mark::OpenParen) {
            let (arguments, after) = arguments(alloc, words, into, room, inner)?;
            value = add(
                into,
                ExprNode::Call {
                    line,
                    function: value,
                    arguments,
                },
            )?;
            pos = after;
            continue;
        }
        if let Some(inner) = words.sign(pos, Mark::OpenBracket) {
            let (part, after) = subscript(alloc, words, into, room, line, value, inner)?;
            value = part;
            pos = after;
            continue;
        }
        let Some(behind) = words.sign(pos, Mark::Dot) else {
            return Ok((value, pos));
        };
        let Some((text, after)) = words.name(behind) else {
            return Err(Unread::NoForm);
        };
        let name = add_name(into, text)?;
        value = add(
            into,
            ExprNode::Attribute {
                line,
                object: value,
                name,
            },
        )?;
        pos = after;
    }
    Err(Unread::NoForm)
}

// An index or a slice of `object`, a form that begins on a line, behind the opening bracket.
#[cycle(descent)]
#[tactic(auto, using(crate::proofs::Growth::grows_then, crate::proofs::Growth::grows_same))]
fn subscript(
    alloc: Global,
    words: &LineWords,
    into: &mut Module,
    room: usize,
    line: u32,
    object: ExprId,
    pos: usize,
) -> Result<(ExprId, usize), Unread>
    requires module { IsModule into.old }
    requires object { object.index < length into.old.exprs }
    ensures grown { Grows into.old into.new }
    ensures read { GivesExpr words.now into.new result (subscript_with (below room) line (shown into.old object.index) (drop pos words.now)) }
{
    if let Some(start) = words.sign(pos, Mark::Colon) {
        return slice(alloc, words, into, room, line, object, None, start);
    }
    let (index, next) = expr(alloc, words, into, room, pos)?;
    if let Some(end) = words.sign(next, Mark::CloseBracket) {
        let node = add(
            into,
            ExprNode::Index {
                line,
                object,
                index,
            },
        )?;
        return Ok((node, end));
    }
    let Some(start) = words.sign(next, Mark::Colon) else {
        return Err(Unread::NoForm);
    };
    slice(alloc, words, into, room, line, object, Some(index), start)
}

// A slice of `object`, a form that begins on a line, behind the colon.
#[cycle(descent)]
#[tactic(auto, using(crate::proofs::Growth::grows_then, crate::proofs::Growth::grows_same))]
fn slice(
    alloc: Global,
    words: &LineWords,
    into: &mut Module,
    room: usize,
    line: u32,
    object: ExprId,
    from: Option<ExprId>,
    pos: usize,
) -> Result<(ExprId, usize), Unread>
    requires module { IsModule into.old }
    requires object { object.index < length into.old.exprs }
    requires from { IsBoundBelow (length into.old.exprs) from }
    ensures grown { Grows into.old into.new }
    ensures read { GivesExpr words.now into.new result (slice_with (below room) line (shown into.old object.index) (bound_tree (shown into.old) from) (drop pos words.now)) }
{
    if let Some(end) = words.sign(pos, Mark::CloseBracket) {
        let node = add(
            into,
            ExprNode::Slice {
                line,
                object,
                from,
                to: None,
            },
        )?;
        return Ok((node, end));
    }
    let (to, next) = expr(alloc, words, into, room, pos)?;
    let Some(end) = words.sign(next, Mark::CloseBracket) else {
        return Err(Unread::NoForm);
    };
    let node = add(
        into,
        ExprNode::Slice {
            line,
            object,
            from,
            to: Some(to),
        },
    )?;
    Ok((node, end))
}

// What stands alone: a name, an integer, strings, or what a sign begins.
#[cycle(descent)]
#[tactic(auto, using(crate::proofs::Growth::grows_then, crate::proofs::Growth::grows_same))]
fn atom(
    alloc: Global,
    words: &LineWords,
    into: &mut Module,
    room: usize,
    pos: usize,
) -> Result<(ExprId, usize), Unread>
    requires module { IsModule into.old }
    ensures grown { Grows into.old into.new }
    ensures read { GivesExpr words.now into.new result (atom_with (below room) (drop pos words.now)) }
{
    if let Some((mark, next)) = words.any_sign(pos) {
        return signed(alloc, words, into, room, mark, words.line(pos), next);
    }
    leaf(alloc, words, into, pos)
}

// What the sign before it begins, which stands on a line.
#[cycle(descent)]
#[tactic(auto, using(crate::proofs::Growth::grows_then, crate::proofs::Growth::grows_same))]
fn signed(
    alloc: Global,
    words: &LineWords,
    into: &mut Module,
    room: usize,
    mark: Mark,
    line: u32,
    pos: usize,
) -> Result<(ExprId, usize), Unread>
    requires module { IsModule into.old }
    ensures grown { Grows into.old into.new }
    ensures read { GivesExpr words.now into.new result (signed_with (below room) mark line (drop pos words.now)) }
{
    match mark {
        Mark::OpenParen => group(alloc, words, into, room, line, pos),
        Mark::OpenBracket => list(alloc, words, into, room, line, pos),
        Mark::OpenBrace => dict(alloc, words, into, room, line, pos),
        Mark::True => Ok((add(into, ExprNode::Truth { line, value: true })?, pos)),
        Mark::False => Ok((add(into, ExprNode::Truth { line, value: false })?, pos)),
        Mark::None => Ok((add(into, ExprNode::None { line })?, pos)),
        _ => Err(Unread::NoForm),
    }
}

// An expression in brackets, behind the opening one, which stands on a line.
#[cycle(descent)]
#[tactic(auto, using(crate::proofs::Growth::grows_then, crate::proofs::Growth::grows_same))]
fn group(
    alloc: Global,
    words: &LineWords,
    into: &mut Module,
    room: usize,
    line: u32,
    pos: usize,
) -> Result<(ExprId, usize), Unread>
    requires module { IsModule into.old }
    ensures grown { Grows into.old into.new }
    ensures read { GivesExpr words.now into.new result (group_with (below room) line (drop pos words.now)) }
{
    let (inner, next) = expr(alloc, words, into, room, pos)?;
    let Some(end) = words.sign(next, Mark::CloseParen) else {
        return Err(Unread::NoForm);
    };
    Ok((add(into, ExprNode::Group { line, inner })?, end))
}
