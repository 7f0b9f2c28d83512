ghost use Rattle.std.specs.Prelude.{drop};
ghost use Rattle.py_tree.specs.Arena.{IsModule};
ghost use Rattle.py_types.specs.Given.{Grows, GivesType, leaf_with};

use crate::nodes::add;
use py_tree::{Module, TypeId, TypeNode};
use py_words::{LineWords, Mark, Unread};
use std::alloc::Global;

/// A type in quotes, or `None`.
#[tactic(auto, using(crate::proofs::Growth::grows_same))]
pub(crate) fn leaf(
    alloc: Global,
    words: &LineWords,
    into: &mut Module,
    pos: usize,
) -> Result<(TypeId, usize), Unread>
    requires module { IsModule into.old }
    ensures grown { Grows into.old into.new }
    ensures read { GivesType words.now into.new result (leaf_with (drop pos words.now)) }
{
    if let Some((part, next)) = words.part(alloc, pos)? {
        let line = part.line;
        return Ok((add(into, TypeNode::Text { line, part })?, next));
    }
    let line = words.line(pos);
    let Some(next) = words.sign(pos, Mark::None) else {
        return Err(Unread::NoForm);
    };
    Ok((add(into, TypeNode::None { line })?, next))
}
