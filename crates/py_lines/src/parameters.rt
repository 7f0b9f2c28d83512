ghost use Rattle.std.specs.Prelude.{◌≡◌, [], suc, length, drop};
ghost use Rattle.spec_grammar.specs.HeaderReading.{type_behind, read_parameter, parameters_with};
ghost use Rattle.py_tree.specs.Arena.{IsModule};
ghost use Rattle.py_statements.specs.Given.{Grows};
ghost use Rattle.py_lines.specs.Given.{GivesAnnotation, GivesParameter, GivesParameters};

use crate::names::add_name;
use py_statements::read_value;
use py_tree::{Module, ParameterNode, TypeId};
use py_types::read_type;
use py_words::{LineWords, Mark, Unread};
use std::alloc::Global;

/// The type behind a mark, where the mark stands at the place.
#[tactic(auto, using(py_statements::proofs::Growth::grows_same, py_statements::proofs::Growth::plain_same, py_statements::proofs::Growth::grows_types, py_statements::proofs::Growth::plain_types))]
pub(crate) fn type_behind(
    alloc: Global,
    words: &LineWords,
    into: &mut Module,
    mark: Mark,
    pos: usize,
) -> Result<(Option<TypeId>, usize), Unread>
    requires module { IsModule into.old }
    ensures grown { Grows into.old into.new }
    ensures read { GivesAnnotation words.now into.new result (type_behind mark (drop pos words.now)) }
{
    let Some(start) = words.sign(pos, mark) else {
        return Ok((None, pos));
    };
    let (found, end) = read_type(alloc, words, into, start)?;
    Ok((Some(found), end))
}

// A name with the type and the default behind it, where they are there.
#[tactic(auto, using(py_statements::proofs::Growth::grows_then, py_statements::proofs::Growth::plain_then, py_statements::proofs::Growth::grows_same, py_statements::proofs::Growth::plain_same))]
fn parameter(
    alloc: Global,
    words: &LineWords,
    into: &mut Module,
    pos: usize,
) -> Result<(ParameterNode, usize), Unread>
    requires module { IsModule into.old }
    ensures grown { Grows into.old into.new }
    ensures read { GivesParameter words.now into.new result (read_parameter (drop pos words.now)) }
{
    let Some((text, next)) = words.name(pos) else {
        return Err(Unread::NoForm);
    };
    let name = add_name(into, text)?;
    let (annotation, after) = type_behind(alloc, words, into, Mark::Colon, next)?;
    let (default, end) = read_value(alloc, words, into, after)?;
    let node = ParameterNode {
        name,
        annotation,
        default,
    };
    Ok((node, end))
}

// One more than the number of words behind a place. No more parameters begin there.
fn room_behind(words: &LineWords, pos: usize) -> usize
    ensures { result ≡ suc (length (drop pos words.now)) }
{
    words.len().saturating_sub(pos) + 1
}

/// The parameters behind an opening bracket, and the place behind the bracket that closes them.
#[tactic(auto, using(py_statements::proofs::Growth::grows_then, py_statements::proofs::Growth::plain_then, py_statements::proofs::Growth::grows_same, py_statements::proofs::Growth::plain_same))]
pub(crate) fn parameters(
    alloc: Global,
    words: &LineWords,
    into: &mut Module,
    start: usize,
) -> Result<(Vec<ParameterNode>, usize), Unread>
    requires module { IsModule into.old }
    ensures grown { Grows into.old into.new }
    ensures read { GivesParameters (λ v. v.items) words.now into.new result (parameters_with (suc (length (drop start words.now))) [] (drop start words.now)) }
{
    let room = room_behind(words, start);
    let mut list = Vec::new(alloc);
    let mut pos = start;
    'list: for _ in 0..room {
        if let Some(end) = words.sign(pos, Mark::CloseParen) {
            return Ok((list, end));
        }
        let (item, after) = parameter(alloc, words, into, pos)?;
        list.push(item)?;
        if let Some(end) = words.sign(after, Mark::CloseParen) {
            return Ok((list, end));
        }
        let Some(next) = words.sign(after, Mark::Comma) else {
            return Err(Unread::NoForm);
        };
        pos = next;
    }
    Err(Unread::NoForm)
}
