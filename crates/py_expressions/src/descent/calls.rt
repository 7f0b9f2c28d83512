ghost use Rattle.std.specs.Prelude.{◌<◌, ℕ, List, false, length, drop};
ghost use Rattle.spec_grammar.specs.Reading.{below, arguments_with, args_with, arg_with, for_at};
ghost use Rattle.py_words.specs.Found.{Finds};
ghost use Rattle.py_tree.specs.Arena.{IsModule, shown};
ghost use Rattle.py_tree.specs.Exprs.{argument_list_tree, name_of, AreArgumentsBelow, IsNameBelow};
ghost use Rattle.py_expressions.specs.Given.{Grows, GivesArgument, GivesList, GivesArguments, list_from};

use super::generators::generator;
use super::operators::expr;
use crate::nodes::add_name;
use py_tree::{Argument, ArgumentsNode, Module, NameId};
use py_words::{LineWords, Unread};
use spec_grammar::Mark;
use std::alloc::Global;

// The place behind the `for` that makes an argument without a name the element of a generator.
fn for_behind(words: &LineWords, name: Option<NameId>, pos: usize) -> Option<usize>
    ensures { (names : List (List ℕ)) → Finds words.now result (for_at (name_of names name) (drop pos words.now)) }
{
    match name {
        Some(_) => None,
        None => words.sign(pos, Mark::For),
    }
}

// The arguments of a call and the bracket that closes them.
#[cycle(descent)]
#[tactic(auto, using(crate::proofs::Growth::grows_then, crate::proofs::Growth::grows_same))]
pub(crate) fn arguments(
    alloc: Global,
    words: &LineWords,
    into: &mut Module,
    room: usize,
    pos: usize,
) -> Result<(ArgumentsNode, usize), Unread>
    requires module { IsModule into.old }
    ensures grown { Grows into.old into.new }
    ensures read { GivesArguments words.now into.new result (arguments_with (below room) (drop pos words.now)) }
{
    if let Some(end) = words.sign(pos, Mark::CloseParen) {
        return Ok((ArgumentsNode::Listed(Vec::new(alloc)), end));
    }
    let (first, next) = argument(alloc, words, into, room, false, pos)?;
    if let Some(start) = for_behind(words, first.name, next) {
        let (node, after) = generator(alloc, words, into, room, first.value, start)?;
        let Some(end) = words.sign(after, Mark::CloseParen) else {
            return Err(Unread::NoForm);
        };
        return Ok((ArgumentsNode::Generated(node), end));
    }
    let (list, end) = argument_list(alloc, words, into, room, first, next)?;
    Ok((ArgumentsNode::Listed(list), end))
}

// The arguments from `first` on, and the bracket that closes them.
#[cycle(descent)]
#[tactic(auto, using(crate::proofs::Growth::grows_then, crate::proofs::Growth::grows_same))]
fn argument_list(
    alloc: Global,
    words: &LineWords,
    into: &mut Module,
    room: usize,
    first: Argument,
    start: usize,
) -> Result<(Vec<Argument>, usize), Unread>
    requires module { IsModule into.old }
    requires name { IsNameBelow (length into.old.names) first.name }
    requires value { first.value.index < length into.old.exprs }
    ensures grown { Grows into.old into.new }
    ensures read { GivesList (λ v. v.items) words.now into.new result (list_from (below room) (name_of into.old.names first.name) (shown into.old first.value.index) (drop start words.now)) }
{
    let list = Vec::from_slice(alloc, &[first])?;
    if let Some(end) = words.sign(start, Mark::CloseParen) {
        return Ok((list, end));
    }
    let Some(next) = words.sign(start, Mark::Comma) else {
        return Err(Unread::NoForm);
    };
    more_arguments(alloc, words, into, room, first.name.is_some(), list, next)
}

// The arguments behind a comma, after others, and the bracket that closes them. `keyword` tells whether the last one
// has a name.
#[cycle(descent)]
#[tactic(auto, using(crate::proofs::Growth::grows_then, crate::proofs::Growth::grows_same))]
fn more_arguments(
    alloc: Global,
    words: &LineWords,
    into: &mut Module,
    room: usize,
    keyword: bool,
    before: Vec<Argument>,
    start: usize,
) -> Result<(Vec<Argument>, usize), Unread>
    requires module { IsModule into.old }
    requires before { AreArgumentsBelow (length into.old.names) (length into.old.exprs) before.items }
    ensures grown { Grows into.old into.new }
    ensures read { GivesList (λ v. v.items) words.now into.new result (args_with (below room) room keyword (argument_list_tree into.old.names (shown into.old) before.items) (drop start words.now)) }
{
    let mut list = before;
    let mut named = keyword;
    let mut pos = start;
    'list: for _ in 0..room {
        if let Some(end) = words.sign(pos, Mark::CloseParen) {
            return Ok((list, end));
        }
        let (item, after) = argument(alloc, words, into, room, named, pos)?;
        named = item.name.is_some();
        list.push(item)?;
        if let Some(end) = words.sign(after, Mark::CloseParen) {
            return Ok((list, end));
        }
        let Some(next) = words.sign(after, Mark::Comma) else {
            return Err(Unread::NoForm);
        };
        pos = next;
    }
    Err(Unread::NoForm)
}

// An argument. Behind one with a name, it must have one too.
#[cycle(descent)]
#[tactic(auto, using(crate::proofs::Growth::grows_then, crate::proofs::Growth::grows_same))]
fn argument(
    alloc: Global,
    words: &LineWords,
    into: &mut Module,
    room: usize,
    keyword: bool,
    pos: usize,
) -> Result<(Argument, usize), Unread>
    requires module { IsModule into.old }
    ensures grown { Grows into.old into.new }
    ensures read { GivesArgument words.now into.new result (arg_with (below room) keyword (drop pos words.now)) }
{
    if let Some((text, start)) = words.keyword(pos) {
        let name = add_name(into, text)?;
        let (value, next) = expr(alloc, words, into, room, start)?;
        let named = Argument {
            name: Some(name),
            value,
        };
        return Ok((named, next));
    }
    if keyword {
        return Err(Unread::NoForm);
    }
    let (value, next) = expr(alloc, words, into, room, pos)?;
    Ok((Argument { name: None, value }, next))
}
