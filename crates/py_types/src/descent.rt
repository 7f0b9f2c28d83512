ghost use Rattle.std.specs.Prelude.{◌<◌, ◌-◌, length, drop};
ghost use Rattle.spec_trees.specs.Stmt.{no_types, type_item};
ghost use Rattle.spec_grammar.specs.TypeReading.{members_with, type_arguments_with, type_below};
ghost use Rattle.py_tree.specs.Arena.{IsModule, shown_type};
ghost use Rattle.py_types.specs.Given.{Grows, GivesType, GivesTypes, atom_below, named_below};

use crate::leaves::leaf;
use crate::nodes::{add_named, joined};
use py_tree::{Module, TypeId};
use py_words::{LineWords, Mark, Unread};
use std::alloc::Global;

/// A type. The room bounds its nesting and the number of types side by side, as the definition's number does.
#[cycle(descent)]
#[tactic(auto, using(crate::proofs::Growth::grows_then, crate::proofs::Growth::grows_same))]
pub(crate) fn whole(
    alloc: Global,
    words: &LineWords,
    into: &mut Module,
    room: usize,
    pos: usize,
) -> Result<(TypeId, usize), Unread>
    requires module { IsModule into.old }
    ensures grown { Grows into.old into.new }
    ensures read { GivesType words.now into.new result (type_below room (drop pos words.now)) }
{
    if room == 0 {
        return Err(Unread::NoForm);
    }
    let (first, next) = atom(alloc, words, into, room, pos)?;
    let (rest, end) = members(alloc, words, into, room, next)?;
    let joined = joined(into, words.line(pos), first, rest)?;
    Ok((joined, end))
}

// The types behind the first one, each after a `|`.
#[cycle(descent)]
#[tactic(auto, using(crate::proofs::Growth::grows_then, crate::proofs::Growth::grows_same))]
fn members(
    alloc: Global,
    words: &LineWords,
    into: &mut Module,
    room: usize,
    start: usize,
) -> Result<(Vec<TypeId>, usize), Unread>
    requires module { IsModule into.old }
    requires room { 0 < room }
    ensures grown { Grows into.old into.new }
    ensures read { GivesTypes (λ v. v.items) words.now into.new result (members_with (atom_below room) room no_types (drop start words.now)) }
{
    let mut list = Vec::new(alloc);
    let mut pos = start;
    'list: for _ in 0..room {
        let Some(next) = words.sign(pos, Mark::Bar) else {
            return Ok((list, pos));
        };
        let (item, after) = atom(alloc, words, into, room, next)?;
        list.push(item)?;
        pos = after;
    }
    Err(Unread::NoForm)
}

// A type without a `|` outside brackets.
#[cycle(descent)]
fn atom(
    alloc: Global,
    words: &LineWords,
    into: &mut Module,
    room: usize,
    pos: usize,
) -> Result<(TypeId, usize), Unread>
    requires module { IsModule into.old }
    requires room { 0 < room }
    ensures grown { Grows into.old into.new }
    ensures read { GivesType words.now into.new result (atom_below room (drop pos words.now)) }
{
    if let Some((text, next)) = words.name(pos) {
        return named(alloc, words, into, room, words.line(pos), text, next);
    }
    leaf(alloc, words, into, pos)
}

// A name, which stands on a line, with the arguments that follow it, where there are any.
#[cycle(descent)]
#[tactic(auto, using(crate::proofs::Growth::grows_then))]
fn named(
    alloc: Global,
    words: &LineWords,
    into: &mut Module,
    room: usize,
    line: u32,
    text: &str,
    pos: usize,
) -> Result<(TypeId, usize), Unread>
    requires module { IsModule into.old }
    requires room { 0 < room }
    ensures grown { Grows into.old into.new }
    ensures read { GivesType words.now into.new result (named_below room line text.now (drop pos words.now)) }
{
    let Some(start) = words.sign(pos, Mark::OpenBracket) else {
        return Ok((add_named(into, line, text, Vec::new(alloc))?, pos));
    };
    let (first, next) = whole(alloc, words, into, room - 1, start)?;
    let (arguments, end) = arguments(alloc, words, into, room, first, next)?;
    Ok((add_named(into, line, text, arguments)?, end))
}

// The arguments of a name from `first` on, and the bracket that closes them.
#[cycle(descent)]
#[tactic(auto, using(crate::proofs::Growth::grows_then, crate::proofs::Growth::grows_same))]
fn arguments(
    alloc: Global,
    words: &LineWords,
    into: &mut Module,
    room: usize,
    first: TypeId,
    start: usize,
) -> Result<(Vec<TypeId>, usize), Unread>
    requires module { IsModule into.old }
    requires room { 0 < room }
    requires first { first.index < length into.old.types }
    ensures grown { Grows into.old into.new }
    ensures read { GivesTypes (λ v. v.items) words.now into.new result (type_arguments_with (type_below (room - 1)) room (type_item (shown_type into.old first.index) no_types) (drop start words.now)) }
{
    let mut list = Vec::new(alloc);
    list.push(first)?;
    let mut pos = start;
    'list: for _ in 0..room {
        if let Some(end) = words.sign(pos, Mark::CloseBracket) {
            return Ok((list, end));
        }
        let Some(next) = words.sign(pos, Mark::Comma) else {
            return Err(Unread::NoForm);
        };
        let (item, after) = whole(alloc, words, into, room - 1, next)?;
        list.push(item)?;
        pos = after;
    }
    Err(Unread::NoForm)
}
