ghost use Rattle.std.specs.Prelude.{◌<◌, length, drop};
ghost use Rattle.spec_grammar.specs.StatementReading.{evaluate_of, annotate_of, targeted_of, unmarked_of};
ghost use Rattle.py_tree.specs.Arena.{IsModule, shown};
ghost use Rattle.py_statements.specs.Given.{Grows, GivesSimple, assign_of, augment_of};

use crate::ends::at_end;
use crate::expressions::{annotation, read_value, whole_expression};
use crate::nodes::add;
use crate::targets::read_target;
use py_tree::{ExprId, Module, Operator, StmtId, StmtNode};
use py_words::{LineWords, Mark, Unread};
use std::alloc::Global;

// An expression that is a statement.
#[tactic(auto, using(crate::proofs::Growth::grows_then, crate::proofs::Growth::plain_then))]
fn evaluate(
    alloc: Global,
    words: &LineWords,
    into: &mut Module,
    pos: usize,
) -> Result<StmtId, Unread>
    ensures grown { Grows into.old into.new }
    ensures read { GivesSimple into.new result (evaluate_of (drop pos words.now)) }
{
    let value = whole_expression(alloc, words, into, pos)?;
    let line = words.line(pos);
    Ok(add(into, StmtNode::Evaluate { line, value })?)
}

// What follows the `=` behind a target, in a statement that begins on a line.
#[tactic(auto, using(crate::proofs::Growth::grows_then, crate::proofs::Growth::plain_then))]
fn assign(
    alloc: Global,
    words: &LineWords,
    into: &mut Module,
    line: u32,
    target: ExprId,
    pos: usize,
) -> Result<StmtId, Unread>
    requires module { IsModule into.old }
    requires target { target.index < length into.old.exprs }
    ensures grown { Grows into.old into.new }
    ensures read { GivesSimple into.new result (assign_of line (shown into.old target.index) (drop pos words.now)) }
{
    let value = whole_expression(alloc, words, into, pos)?;
    let node = StmtNode::Assign {
        line,
        target,
        value,
    };
    Ok(add(into, node)?)
}

// What follows the colon behind a target, in a statement that begins on a line.
#[tactic(auto, using(crate::proofs::Growth::grows_then, crate::proofs::Growth::plain_then))]
fn annotate(
    alloc: Global,
    words: &LineWords,
    into: &mut Module,
    line: u32,
    target: ExprId,
    pos: usize,
) -> Result<StmtId, Unread>
    requires module { IsModule into.old }
    requires target { target.index < length into.old.exprs }
    ensures grown { Grows into.old into.new }
    ensures read { GivesSimple into.new result (annotate_of line (shown into.old target.index) (drop pos words.now)) }
{
    let (annotation, next) = annotation(alloc, words, into, pos)?;
    let (value, end) = read_value(alloc, words, into, next)?;
    if !at_end(words, end) {
        return Err(Unread::NoForm);
    }
    let node = StmtNode::Annotate {
        line,
        target,
        annotation,
        value,
    };
    Ok(add(into, node)?)
}

// What follows the sign of an augmented assignment behind a target, in a statement that begins on a line.
#[tactic(auto, using(crate::proofs::Growth::grows_then, crate::proofs::Growth::plain_then))]
fn augment(
    alloc: Global,
    words: &LineWords,
    into: &mut Module,
    line: u32,
    target: ExprId,
    operator: Operator,
    pos: usize,
) -> Result<StmtId, Unread>
    requires module { IsModule into.old }
    requires target { target.index < length into.old.exprs }
    ensures grown { Grows into.old into.new }
    ensures read { GivesSimple into.new result (augment_of line (shown into.old target.index) operator (drop pos words.now)) }
{
    let value = whole_expression(alloc, words, into, pos)?;
    let node = StmtNode::Augment {
        line,
        target,
        operator,
        value,
    };
    Ok(add(into, node)?)
}

// The statement at a place, whose target ends before `next`. Where what follows gives it no value, the words are read again
// as an expression.
fn targeted(
    alloc: Global,
    words: &LineWords,
    into: &mut Module,
    pos: usize,
    target: ExprId,
    next: usize,
) -> Result<StmtId, Unread>
    requires module { IsModule into.old }
    requires target { target.index < length into.old.exprs }
    ensures grown { Grows into.old into.new }
    ensures read { GivesSimple into.new result (targeted_of (drop pos words.now) (shown into.old target.index) (drop next words.now)) }
{
    let line = words.line(pos);
    if let Some(start) = words.sign(next, Mark::Assign) {
        return assign(alloc, words, into, line, target, start);
    }
    if let Some(start) = words.sign(next, Mark::Colon) {
        return annotate(alloc, words, into, line, target, start);
    }
    if let Some((operator, start)) = words.augmented(next) {
        return augment(alloc, words, into, line, target, operator, start);
    }
    evaluate(alloc, words, into, pos)
}

/// The statement that the words from a place on spell, where no keyword of a statement begins it.
#[tactic(auto, using(crate::proofs::Growth::grows_then, crate::proofs::Growth::plain_then))]
pub(crate) fn unmarked(
    alloc: Global,
    words: &LineWords,
    into: &mut Module,
    pos: usize,
) -> Result<StmtId, Unread>
    ensures grown { Grows into.old into.new }
    ensures read { GivesSimple into.new result (unmarked_of (drop pos words.now)) }
{
    match read_target(alloc, words, into, pos) {
        Ok((target, next)) => targeted(alloc, words, into, pos, target, next),
        Err(Unread::NoForm) => evaluate(alloc, words, into, pos),
        Err(Unread::NoMemory) => Err(Unread::NoMemory),
    }
}
