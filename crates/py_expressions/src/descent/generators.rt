ghost use Rattle.std.specs.Prelude.{◌<◌, length, drop};
ghost use Rattle.spec_trees.specs.Expr.{no_exprs};
ghost use Rattle.spec_grammar.specs.Reading.{below, generator_with, conditions_with};
ghost use Rattle.py_tree.specs.Arena.{IsModule, shown};
ghost use Rattle.py_expressions.specs.Given.{Grows, GivesItems, GivesGenerator};

use super::operators::{LOOSEST, nested};
use crate::nodes::add_name;
use py_tree::{ExprId, GeneratorNode, Module};
use py_words::{LineWords, Unread};
use spec_grammar::Mark;
use std::alloc::Global;

// A generator, behind the `for` that follows its element.
#[cycle(descent)]
#[tactic(auto, using(crate::proofs::Growth::grows_then, crate::proofs::Growth::grows_same))]
pub(super) fn generator(
    alloc: Global,
    words: &LineWords,
    into: &mut Module,
    room: usize,
    element: ExprId,
    pos: usize,
) -> Result<(GeneratorNode, usize), Unread>
    requires module { IsModule into.old }
    requires element { element.index < length into.old.exprs }
    ensures grown { Grows into.old into.new }
    ensures read { GivesGenerator words.now into.new result (generator_with (below room) (shown into.old element.index) (drop pos words.now)) }
{
    let Some((text, after)) = words.name(pos) else {
        return Err(Unread::NoForm);
    };
    let Some(start) = words.sign(after, Mark::In) else {
        return Err(Unread::NoForm);
    };
    let variable = add_name(into, text)?;
    let (iterable, next) = nested(alloc, words, into, room, LOOSEST, start)?;
    let (conditions, end) = conditions(alloc, words, into, room, next)?;
    let node = GeneratorNode {
        element,
        variable,
        iterable,
        conditions,
    };
    Ok((node, end))
}

// The conditions of a generator.
#[cycle(descent)]
#[tactic(auto, using(crate::proofs::Growth::grows_then, crate::proofs::Growth::grows_same))]
fn conditions(
    alloc: Global,
    words: &LineWords,
    into: &mut Module,
    room: usize,
    start: usize,
) -> Result<(Vec<ExprId>, usize), Unread>
    requires module { IsModule into.old }
    ensures grown { Grows into.old into.new }
    ensures read { GivesItems (λ v. v.items) words.now into.new result (conditions_with (below room) room no_exprs (drop start words.now)) }
{
    let mut list = Vec::new(alloc);
    let mut pos = start;
    'list: for _ in 0..room {
        let Some(next) = words.sign(pos, Mark::If) else {
            return Ok((list, pos));
        };
        let (condition, after) = nested(alloc, words, into, room, LOOSEST, next)?;
        list.push(condition)?;
        pos = after;
    }
    Err(Unread::NoForm)
}
