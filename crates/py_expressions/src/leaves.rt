ghost use Rattle.std.specs.Prelude.{drop};
ghost use Rattle.py_tree.specs.Arena.{IsModule};
ghost use Rattle.py_expressions.specs.Given.{Grows, GivesExpr, leaf_with, text_with};

use crate::nodes::{add, add_name};
use py_tree::{ExprId, ExprNode, Module};
use py_words::{LineWords, Unread, Word};
use std::alloc::Global;

/// A name, an integer or strings.
#[tactic(auto, using(crate::proofs::Growth::grows_then, crate::proofs::Growth::grows_same))]
pub(crate) fn leaf(
    alloc: Global,
    words: &LineWords,
    into: &mut Module,
    pos: usize,
) -> Result<(ExprId, usize), Unread>
    requires module { IsModule into.old }
    ensures grown { Grows into.old into.new }
    ensures read { GivesExpr words.now into.new result (leaf_with (drop pos words.now)) }
{
    match words.first(pos) {
        Some(Word::Name { line, text }) => {
            let name = add_name(into, text.as_str())?;
            Ok((add(into, ExprNode::Name { line: *line, name })?, pos + 1))
        }
        Some(Word::Integer { line, value }) => {
            let node = ExprNode::Integer {
                line: *line,
                value: *value,
            };
            Ok((add(into, node)?, pos + 1))
        }
        Some(Word::Text(_)) => strings(alloc, words, into, pos),
        _ => Err(Unread::NoForm),
    }
}

// Adjacent string literals.
#[tactic(auto, using(crate::proofs::Growth::grows_then, crate::proofs::Growth::grows_same))]
fn strings(
    alloc: Global,
    words: &LineWords,
    into: &mut Module,
    pos: usize,
) -> Result<(ExprId, usize), Unread>
    requires module { IsModule into.old }
    ensures grown { Grows into.old into.new }
    ensures read { GivesExpr words.now into.new result (text_with (drop pos words.now)) }
{
    let Some((first, next)) = words.part(alloc, pos)? else {
        return Err(Unread::NoForm);
    };
    let (rest, end) = words.strings(alloc, next)?;
    let line = first.line;
    Ok((add(into, ExprNode::Text { line, first, rest })?, end))
}
