ghost use Rattle.std.specs.Prelude.{◌≡◌, ◌<◌, length, drop};
ghost use Rattle.spec_grammar.specs.StatementReading.{is_index, is_target, read_target};
ghost use Rattle.py_tree.specs.Arena.{shown};
ghost use Rattle.py_expressions.specs.Given.{GivesExpr};
ghost use Rattle.py_statements.specs.Given.{Grows};

use crate::expressions::primary;
use py_tree::{ExprId, ExprNode, Module};
use py_words::{LineWords, Unread};
use std::alloc::Global;

// Whether a value can be given to an expression. Brackets round it are a node, which is none of these.
fn is_target(of: &Module, e: ExprId) -> bool
    requires { e.index < length of.now.exprs }
    ensures { result ≡ is_target (shown of.now e.index) }
{
    matches!(
        of.expr(e),
        ExprNode::Name { .. } | ExprNode::Attribute { .. } | ExprNode::Index { .. }
    )
}

/// Whether an expression is an index, which can be removed.
pub(crate) fn is_index(of: &Module, e: ExprId) -> bool
    requires { e.index < length of.now.exprs }
    ensures { result ≡ is_index (shown of.now e.index) }
{
    matches!(of.expr(e), ExprNode::Index { .. })
}

/// The target that the words at a place begin with, and the place behind it.
pub(crate) fn read_target(
    alloc: Global,
    words: &LineWords,
    into: &mut Module,
    pos: usize,
) -> Result<(ExprId, usize), Unread>
    ensures grown { Grows into.old into.new }
    ensures read { GivesExpr words.now into.new result (read_target (drop pos words.now)) }
{
    let (target, next) = primary(alloc, words, into, pos)?;
    if !is_target(into, target) {
        return Err(Unread::NoForm);
    }
    Ok((target, next))
}
