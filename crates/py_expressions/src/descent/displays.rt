ghost use Rattle.std.specs.Prelude.{◌<◌, List, length, drop};
ghost use Rattle.spec_trees.specs.Expr as tree;
ghost use Rattle.spec_trees.specs.Expr.{item, no_exprs, no_pairs};
ghost use Rattle.spec_grammar.specs.Reading.{below, list_with, items_with, dict_with, pairs_with, pair_with};
ghost use Rattle.py_tree.specs.Arena.{IsModule, shown};
ghost use Rattle.py_expressions.specs.Given.{Grows, GivesExpr, GivesItems, GivesPair, GivesPairs};

use super::generators::generator;
use super::operators::expr;
use crate::nodes::add;
use py_tree::{ExprId, ExprNode, Module, Pair};
use py_words::{LineWords, Unread};
use spec_grammar::Mark;
use std::alloc::Global;

// A list or a comprehension, behind the opening bracket, which stands on a line.
#[cycle(descent)]
#[tactic(auto, using(crate::proofs::Growth::grows_then, crate::proofs::Growth::grows_same))]
pub(super) fn list(
    alloc: Global,
    words: &LineWords,
    into: &mut Module,
    room: usize,
    line: u32,
    pos: usize,
) -> Result<(ExprId, usize), Unread>
    requires module { IsModule into.old }
    ensures grown { Grows into.old into.new }
    ensures read { GivesExpr words.now into.new result (list_with (below room) line (drop pos words.now)) }
{
    if let Some(end) = words.sign(pos, Mark::CloseBracket) {
        let items = Vec::new(alloc);
        return Ok((add(into, ExprNode::List { line, items })?, end));
    }
    let (first, next) = expr(alloc, words, into, room, pos)?;
    if let Some(start) = words.sign(next, Mark::For) {
        let (generator, after) = generator(alloc, words, into, room, first, start)?;
        let Some(end) = words.sign(after, Mark::CloseBracket) else {
            return Err(Unread::NoForm);
        };
        return Ok((add(into, ExprNode::Comprehension { line, generator })?, end));
    }
    let (items, end) = items(alloc, words, into, room, first, next)?;
    Ok((add(into, ExprNode::List { line, items })?, end))
}

// The items of a list from `first` on, and the bracket that closes them.
#[cycle(descent)]
#[tactic(auto, using(crate::proofs::Growth::grows_then, crate::proofs::Growth::grows_same))]
fn items(
    alloc: Global,
    words: &LineWords,
    into: &mut Module,
    room: usize,
    first: ExprId,
    start: usize,
) -> Result<(Vec<ExprId>, usize), Unread>
    requires module { IsModule into.old }
    requires first { first.index < length into.old.exprs }
    ensures grown { Grows into.old into.new }
    ensures read { GivesItems (λ v. v.items) words.now into.new result (items_with (below room) room (item (shown into.old first.index) no_exprs) (drop start words.now)) }
{
    let mut list = Vec::from_slice(alloc, &[first])?;
    let mut pos = start;
    'list: for _ in 0..room {
        if let Some(end) = words.sign(pos, Mark::CloseBracket) {
            return Ok((list, end));
        }
        let Some(next) = words.sign(pos, Mark::Comma) else {
            return Err(Unread::NoForm);
        };
        if let Some(end) = words.sign(next, Mark::CloseBracket) {
            return Ok((list, end));
        }
        let (value, after) = expr(alloc, words, into, room, next)?;
        list.push(value)?;
        pos = after;
    }
    Err(Unread::NoForm)
}

// A dict, behind the opening brace, which stands on a line.
#[cycle(descent)]
#[tactic(auto, using(crate::proofs::Growth::grows_then, crate::proofs::Growth::grows_same))]
pub(super) fn dict(
    alloc: Global,
    words: &LineWords,
    into: &mut Module,
    room: usize,
    line: u32,
    pos: usize,
) -> Result<(ExprId, usize), Unread>
    requires module { IsModule into.old }
    ensures grown { Grows into.old into.new }
    ensures read { GivesExpr words.now into.new result (dict_with (below room) line (drop pos words.now)) }
{
    if let Some(end) = words.sign(pos, Mark::CloseBrace) {
        let pairs = Vec::new(alloc);
        return Ok((add(into, ExprNode::Dict { line, pairs })?, end));
    }
    let (first, next) = pair(alloc, words, into, room, pos)?;
    let (pairs, end) = pairs(alloc, words, into, room, first, next)?;
    Ok((add(into, ExprNode::Dict { line, pairs })?, end))
}

// A key, a colon and a value.
#[cycle(descent)]
#[tactic(auto, using(crate::proofs::Growth::grows_then, crate::proofs::Growth::grows_same))]
fn pair(
    alloc: Global,
    words: &LineWords,
    into: &mut Module,
    room: usize,
    pos: usize,
) -> Result<(Pair, usize), Unread>
    requires module { IsModule into.old }
    ensures grown { Grows into.old into.new }
    ensures read { GivesPair words.now into.new result (pair_with (below room) (drop pos words.now)) }
{
    let (key, next) = expr(alloc, words, into, room, pos)?;
    let Some(start) = words.sign(next, Mark::Colon) else {
        return Err(Unread::NoForm);
    };
    let (value, end) = expr(alloc, words, into, room, start)?;
    Ok((Pair { key, value }, end))
}

// The pairs of a dict from `first` on, and the brace that closes them.
#[cycle(descent)]
#[tactic(auto, using(crate::proofs::Growth::grows_then, crate::proofs::Growth::grows_same))]
fn pairs(
    alloc: Global,
    words: &LineWords,
    into: &mut Module,
    room: usize,
    first: Pair,
    start: usize,
) -> Result<(Vec<Pair>, usize), Unread>
    requires module { IsModule into.old }
    requires key { first.key.index < length into.old.exprs }
    requires value { first.value.index < length into.old.exprs }
    ensures grown { Grows into.old into.new }
    ensures read { GivesPairs (λ v. v.items) words.now into.new result (pairs_with (below room) room (tree.pair (shown into.old first.key.index) (shown into.old first.value.index) no_pairs) (drop start words.now)) }
{
    let mut list = Vec::from_slice(alloc, &[first])?;
    let mut pos = start;
    'list: for _ in 0..room {
        if let Some(end) = words.sign(pos, Mark::CloseBrace) {
            return Ok((list, end));
        }
        let Some(next) = words.sign(pos, Mark::Comma) else {
            return Err(Unread::NoForm);
        };
        if let Some(end) = words.sign(next, Mark::CloseBrace) {
            return Ok((list, end));
        }
        let (item, after) = pair(alloc, words, into, room, next)?;
        list.push(item)?;
        pos = after;
    }
    Err(Unread::NoForm)
}
