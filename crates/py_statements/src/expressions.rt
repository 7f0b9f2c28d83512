ghost use Rattle.std.specs.Prelude.{drop};
ghost use Rattle.spec_grammar.specs.Reading.{expr_of, read_expr};
ghost use Rattle.spec_grammar.specs.TypeReading.{read_type};
ghost use Rattle.spec_grammar.specs.StatementReading.{read_prim, read_arguments, read_value};
ghost use Rattle.py_expressions.specs.Given.{GivesExpr, GivesArguments};
ghost use Rattle.py_types.specs.Given.{GivesType};
ghost use Rattle.py_statements.specs.Given.{Grows, GivesValue, GivesWhole};

use crate::ends::at_end;
use py_expressions::{read_call_arguments, read_expression, read_primary};
use py_tree::{ArgumentsNode, ExprId, Module, TypeId};
use py_types::read_type;
use py_words::{LineWords, Mark, Unread};
use std::alloc::Global;

/// The expression that the words at a place begin with, and the place behind it.
#[tactic(auto, using(crate::proofs::Growth::grows_expressions, crate::proofs::Growth::plain_expressions))]
pub(crate) fn expression(
    alloc: Global,
    words: &LineWords,
    into: &mut Module,
    pos: usize,
) -> Result<(ExprId, usize), Unread>
    ensures grown { Grows into.old into.new }
    ensures read { GivesExpr words.now into.new result (read_expr (drop pos words.now)) }
{
    read_expression(alloc, words, into, pos)
}

/// The primary that the words at a place begin with, and the place behind it.
#[tactic(auto, using(crate::proofs::Growth::grows_expressions, crate::proofs::Growth::plain_expressions))]
pub(crate) fn primary(
    alloc: Global,
    words: &LineWords,
    into: &mut Module,
    pos: usize,
) -> Result<(ExprId, usize), Unread>
    ensures grown { Grows into.old into.new }
    ensures read { GivesExpr words.now into.new result (read_prim (drop pos words.now)) }
{
    read_primary(alloc, words, into, pos)
}

/// The arguments behind an opening bracket, and the place behind the bracket that closes them.
#[tactic(auto, using(crate::proofs::Growth::grows_expressions, crate::proofs::Growth::plain_expressions))]
pub(crate) fn call_arguments(
    alloc: Global,
    words: &LineWords,
    into: &mut Module,
    pos: usize,
) -> Result<(ArgumentsNode, usize), Unread>
    ensures grown { Grows into.old into.new }
    ensures read { GivesArguments words.now into.new result (read_arguments (drop pos words.now)) }
{
    read_call_arguments(alloc, words, into, pos)
}

/// The type that the words at a place begin with, and the place behind it.
#[tactic(auto, using(crate::proofs::Growth::grows_types, crate::proofs::Growth::plain_types))]
pub(crate) fn annotation(
    alloc: Global,
    words: &LineWords,
    into: &mut Module,
    pos: usize,
) -> Result<(TypeId, usize), Unread>
    ensures grown { Grows into.old into.new }
    ensures read { GivesType words.now into.new result (read_type (drop pos words.now)) }
{
    read_type(alloc, words, into, pos)
}

/// The expression that all the words from a place on spell.
pub(crate) fn whole_expression(
    alloc: Global,
    words: &LineWords,
    into: &mut Module,
    pos: usize,
) -> Result<ExprId, Unread>
    ensures grown { Grows into.old into.new }
    ensures read { GivesWhole into.new result (expr_of (drop pos words.now)) }
{
    let (value, next) = expression(alloc, words, into, pos)?;
    if !at_end(words, next) {
        return Err(Unread::NoForm);
    }
    Ok(value)
}

/// The value behind `=`, where one stands at a place, and the place behind it.
///
/// # Errors
///
/// `NoForm` exactly where a `=` stands there with no expression behind it, and `NoMemory` where there is no memory for its
/// nodes.
#[tactic(auto, using(crate::proofs::Growth::grows_same, crate::proofs::Growth::plain_same))]
pub fn read_value(
    alloc: Global,
    words: &LineWords,
    into: &mut Module,
    pos: usize,
) -> Result<(Option<ExprId>, usize), Unread>
    ensures grown { Grows into.old into.new }
    ensures read { GivesValue words.now into.new result (read_value (drop pos words.now)) }
{
    // its contract tells what holds of every module
    let _ = into.exprs_count();
    let Some(start) = words.sign(pos, Mark::Assign) else {
        return Ok((None, pos));
    };
    let (value, next) = expression(alloc, words, into, start)?;
    Ok((Some(value), next))
}
