ghost use Rattle.std.specs.Prelude.{◌≡◌, suc, length, drop};
ghost use Rattle.spec_grammar.specs.Reading.{read_expr};
ghost use Rattle.spec_grammar.specs.StatementReading.{read_prim, read_arguments};
ghost use Rattle.py_expressions.specs.Given.{Grows, GivesExpr, GivesArguments};

use crate::descent::{arguments, expr, prim};
use py_tree::{ArgumentsNode, ExprId, Module};
use py_words::{LineWords, Unread};
use std::alloc::Global;

// One more than the number of words behind a place. No form that begins there is nested more often.
fn room_behind(words: &LineWords, pos: usize) -> usize
    ensures { result ≡ suc (length (drop pos words.now)) }
{
    words.len().saturating_sub(pos) + 1
}

/// The expression that the words at a place begin with, and the place behind it (Python 3.12 language reference,
/// "Expressions").
///
/// # Errors
///
/// `NoForm` exactly where they begin with none, and `NoMemory` where there is no memory for its nodes.
pub fn read_expression(
    alloc: Global,
    words: &LineWords,
    into: &mut Module,
    pos: usize,
) -> Result<(ExprId, usize), Unread>
    ensures grown { Grows into.old into.new }
    ensures read { GivesExpr words.now into.new result (read_expr (drop pos words.now)) }
{
    // its contract tells that the parts of each node are there
    let _ = into.exprs_count();
    expr(alloc, words, into, room_behind(words, pos), pos)
}

/// The primary that the words at a place begin with, and the place behind it (Python 3.12 language reference,
/// "Primaries").
///
/// # Errors
///
/// `NoForm` exactly where they begin with none, and `NoMemory` where there is no memory for its nodes.
pub fn read_primary(
    alloc: Global,
    words: &LineWords,
    into: &mut Module,
    pos: usize,
) -> Result<(ExprId, usize), Unread>
    ensures grown { Grows into.old into.new }
    ensures read { GivesExpr words.now into.new result (read_prim (drop pos words.now)) }
{
    let _ = into.exprs_count();
    prim(alloc, words, into, room_behind(words, pos), pos)
}

/// The arguments behind an opening bracket, and the place behind the bracket that closes them (Python 3.12 language
/// reference, "Calls").
///
/// # Errors
///
/// `NoForm` exactly where there are none, and `NoMemory` where there is no memory for their nodes.
pub fn read_call_arguments(
    alloc: Global,
    words: &LineWords,
    into: &mut Module,
    pos: usize,
) -> Result<(ArgumentsNode, usize), Unread>
    ensures grown { Grows into.old into.new }
    ensures read { GivesArguments words.now into.new result (read_arguments (drop pos words.now)) }
{
    let _ = into.exprs_count();
    arguments(alloc, words, into, room_behind(words, pos), pos)
}
