ghost use Rattle.std.specs.Prelude.{drop};
ghost use Rattle.spec_grammar.specs.declared.Mark.TheVariants as mark;
ghost use Rattle.spec_grammar.specs.Marks.{sign_at};
ghost use Rattle.spec_grammar.specs.HeaderReading.{brackets_at, def_of, class_of, for_of, read_caught, except_of, headed_of, read_header};
ghost use Rattle.py_tree.specs.Arena.{IsModule};
ghost use Rattle.py_expressions.specs.Given.{GivesExpr};
ghost use Rattle.py_words.specs.Found.{Finds};
ghost use Rattle.py_statements.specs.Given.{Grows, GivesNames};
ghost use Rattle.py_lines.specs.Given.{GivesPlace, GivesHeader, last_expression};

use crate::names::{add_name, add_names};
use crate::nodes::HeaderNode;
use crate::parameters::{parameters, type_behind};
use py_expressions::read_expression;
use py_statements::read_bracketed;
use py_tree::{ExprId, Module, NamesId};
use py_words::{LineWords, Mark, Unread};
use std::alloc::Global;

// The place behind the colon that ends a header.
fn colon(words: &LineWords, pos: usize) -> Result<usize, Unread>
    ensures { GivesPlace words.now result (sign_at mark.Colon (drop pos words.now)) }
{
    match words.sign(pos, Mark::Colon) {
        Some(end) => Ok(end),
        None => Err(Unread::NoForm),
    }
}

// The place behind `()`, or the place itself where no bracket stands there.
fn brackets(words: &LineWords, pos: usize) -> Option<usize>
    ensures { Finds words.now result (brackets_at (drop pos words.now)) }
{
    match words.sign(pos, Mark::OpenParen) {
        Some(inner) => words.sign(inner, Mark::CloseParen),
        None => Some(pos),
    }
}

// An expression, and the place behind the colon that follows it.
#[tactic(auto, using(py_statements::proofs::Growth::grows_same, py_statements::proofs::Growth::plain_same, py_statements::proofs::Growth::grows_expressions, py_statements::proofs::Growth::plain_expressions))]
fn last_expression(
    alloc: Global,
    words: &LineWords,
    into: &mut Module,
    pos: usize,
) -> Result<(ExprId, usize), Unread>
    requires module { IsModule into.old }
    ensures grown { Grows into.old into.new }
    ensures read { GivesExpr words.now into.new result (last_expression (drop pos words.now)) }
{
    let (value, next) = read_expression(alloc, words, into, pos)?;
    let end = colon(words, next)?;
    Ok((value, end))
}

// The header of a function, behind the `def` on a line.
#[tactic(auto, using(py_statements::proofs::Growth::grows_then, py_statements::proofs::Growth::plain_then, py_statements::proofs::Growth::grows_same, py_statements::proofs::Growth::plain_same))]
fn def(
    alloc: Global,
    words: &LineWords,
    into: &mut Module,
    line: u32,
    pos: usize,
) -> Result<(HeaderNode, usize), Unread>
    requires module { IsModule into.old }
    ensures grown { Grows into.old into.new }
    ensures read { GivesHeader words.now into.new result (def_of line (drop pos words.now)) }
{
    let Some((text, next)) = words.name(pos) else {
        return Err(Unread::NoForm);
    };
    let Some(start) = words.sign(next, Mark::OpenParen) else {
        return Err(Unread::NoForm);
    };
    let name = add_name(into, text)?;
    let (parameters, after) = parameters(alloc, words, into, start)?;
    let (result, last) = type_behind(alloc, words, into, Mark::Arrow, after)?;
    let end = colon(words, last)?;
    let header = HeaderNode::Def {
        line,
        name,
        parameters,
        result,
    };
    Ok((header, end))
}

// The header of a class, behind the `class` on a line.
#[tactic(auto, using(py_statements::proofs::Growth::grows_same, py_statements::proofs::Growth::plain_same))]
fn class(
    words: &LineWords,
    into: &mut Module,
    line: u32,
    pos: usize,
) -> Result<(HeaderNode, usize), Unread>
    requires module { IsModule into.old }
    ensures grown { Grows into.old into.new }
    ensures read { GivesHeader words.now into.new result (class_of line (drop pos words.now)) }
{
    let Some((text, next)) = words.name(pos) else {
        return Err(Unread::NoForm);
    };
    let Some(last) = brackets(words, next) else {
        return Err(Unread::NoForm);
    };
    let end = colon(words, last)?;
    let name = add_name(into, text)?;
    Ok((HeaderNode::Class { line, name }, end))
}

// The header of a loop over items, behind the `for` on a line.
#[tactic(auto, using(py_statements::proofs::Growth::grows_then, py_statements::proofs::Growth::plain_then, py_statements::proofs::Growth::grows_same, py_statements::proofs::Growth::plain_same))]
fn for_loop(
    alloc: Global,
    words: &LineWords,
    into: &mut Module,
    line: u32,
    pos: usize,
) -> Result<(HeaderNode, usize), Unread>
    requires module { IsModule into.old }
    ensures grown { Grows into.old into.new }
    ensures read { GivesHeader words.now into.new result (for_of line (drop pos words.now)) }
{
    let Some((text, next)) = words.name(pos) else {
        return Err(Unread::NoForm);
    };
    let Some(start) = words.sign(next, Mark::In) else {
        return Err(Unread::NoForm);
    };
    let variable = add_name(into, text)?;
    let (iterable, end) = last_expression(alloc, words, into, start)?;
    let header = HeaderNode::For {
        line,
        variable,
        iterable,
    };
    Ok((header, end))
}

// The classes behind an `except`: one name, names in brackets, or none.
#[tactic(auto, using(py_statements::proofs::Growth::grows_then, py_statements::proofs::Growth::plain_then, py_statements::proofs::Growth::grows_same, py_statements::proofs::Growth::plain_same))]
fn caught(
    alloc: Global,
    words: &LineWords,
    into: &mut Module,
    pos: usize,
) -> Result<(NamesId, usize), Unread>
    requires module { IsModule into.old }
    ensures grown { Grows into.old into.new }
    ensures read { GivesNames words.now into.new result (read_caught (drop pos words.now)) }
{
    if let Some((text, next)) = words.name(pos) {
        let name = add_name(into, text)?;
        return Ok((add_names(into, &[name])?, next));
    }
    if let Some(start) = words.sign(pos, Mark::OpenParen) {
        return read_bracketed(alloc, words, into, start);
    }
    Ok((add_names(into, &[])?, pos))
}

// The header of a handler, behind the `except` on a line.
#[tactic(auto, using(py_statements::proofs::Growth::grows_then, py_statements::proofs::Growth::plain_then, py_statements::proofs::Growth::grows_same, py_statements::proofs::Growth::plain_same))]
fn except(
    alloc: Global,
    words: &LineWords,
    into: &mut Module,
    line: u32,
    pos: usize,
) -> Result<(HeaderNode, usize), Unread>
    requires module { IsModule into.old }
    ensures grown { Grows into.old into.new }
    ensures read { GivesHeader words.now into.new result (except_of line (drop pos words.now)) }
{
    let (classes, last) = caught(alloc, words, into, pos)?;
    let end = colon(words, last)?;
    Ok((HeaderNode::Except { line, classes }, end))
}

// The header that a sign on a line begins, from the place behind the sign.
#[tactic(auto, using(py_statements::proofs::Growth::grows_same, py_statements::proofs::Growth::plain_same))]
fn headed(
    alloc: Global,
    words: &LineWords,
    into: &mut Module,
    mark: Mark,
    line: u32,
    pos: usize,
) -> Result<(HeaderNode, usize), Unread>
    requires module { IsModule into.old }
    ensures grown { Grows into.old into.new }
    ensures read { GivesHeader words.now into.new result (headed_of mark line (drop pos words.now)) }
{
    match mark {
        Mark::Def => def(alloc, words, into, line, pos),
        Mark::Class => class(words, into, line, pos),
        Mark::If => {
            let (condition, end) = last_expression(alloc, words, into, pos)?;
            Ok((HeaderNode::If { line, condition }, end))
        }
        Mark::Elif => {
            let (condition, end) = last_expression(alloc, words, into, pos)?;
            Ok((HeaderNode::Elif { line, condition }, end))
        }
        Mark::Else => Ok((HeaderNode::Else { line }, colon(words, pos)?)),
        Mark::While => {
            let (condition, end) = last_expression(alloc, words, into, pos)?;
            Ok((HeaderNode::While { line, condition }, end))
        }
        Mark::For => for_loop(alloc, words, into, line, pos),
        Mark::Try => Ok((HeaderNode::Try { line }, colon(words, pos)?)),
        Mark::Except => except(alloc, words, into, line, pos),
        _ => Err(Unread::NoForm),
    }
}

/// The header that the words at a place begin with, and the place behind its colon (Python 3.12 language reference,
/// "Compound statements").
///
/// # Errors
///
/// `NoForm` exactly where they begin with none, and `NoMemory` where there is no memory for its parts.
#[tactic(auto, using(py_statements::proofs::Growth::grows_same, py_statements::proofs::Growth::plain_same))]
pub fn read_header(
    alloc: Global,
    words: &LineWords,
    into: &mut Module,
    pos: usize,
) -> Result<(HeaderNode, usize), Unread>
    ensures grown { Grows into.old into.new }
    ensures read { GivesHeader words.now into.new result (read_header (drop pos words.now)) }
{
    // its contract tells what holds of every module
    let _ = into.names_count();
    let Some((mark, start)) = words.any_sign(pos) else {
        return Err(Unread::NoForm);
    };
    headed(alloc, words, into, mark, words.line(pos), start)
}
