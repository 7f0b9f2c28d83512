ghost use Rattle.std.specs.Prelude.{◌≡◌, ◌<◌, length, drop};
ghost use Rattle.spec_trees.specs.Stmt.{Simple};
ghost use Rattle.spec_trees.specs.Module as tree;
ghost use Rattle.spec_grammar.specs.StatementReading.{return_of, alone, message_of, assert_of, raised_of, raise_of, delete_of, import_of, from_of};
ghost use Rattle.py_tree.specs.Arena.{IsModule, shown, shown_stmt};
ghost use Rattle.py_tree.specs.Names.{text_of};
ghost use Rattle.py_tree.specs.Stmts.{stmt_tree, AreStmtPartsThere};
ghost use Rattle.py_statements.specs.Given.{Grows, IsPlain, GivesSimple};

use crate::ends::at_end;
use crate::expressions::{call_arguments, expression, primary, whole_expression};
use crate::names::{read_imported, read_names};
use crate::nodes::{add, add_name};
use crate::targets::is_index;
use py_tree::{ExprId, Module, NameId, StmtId, StmtNode};
use py_words::{LineWords, Mark, Unread};
use std::alloc::Global;

/// What follows a `return`, which stands on a line.
#[tactic(auto, using(crate::proofs::Growth::grows_then, crate::proofs::Growth::plain_then, crate::proofs::Growth::grows_same, crate::proofs::Growth::plain_same))]
pub(crate) fn return_statement(
    alloc: Global,
    words: &LineWords,
    into: &mut Module,
    line: u32,
    pos: usize,
) -> Result<StmtId, Unread>
    ensures grown { Grows into.old into.new }
    ensures read { GivesSimple into.new result (return_of line (drop pos words.now)) }
{
    if at_end(words, pos) {
        return Ok(add(into, StmtNode::Return { line, value: None })?);
    }
    let value = whole_expression(alloc, words, into, pos)?;
    let node = StmtNode::Return {
        line,
        value: Some(value),
    };
    Ok(add(into, node)?)
}

/// The statement of a keyword behind which nothing may stand.
#[tactic(auto, using(crate::proofs::Growth::grows_then, crate::proofs::Growth::plain_then, crate::proofs::Growth::grows_same, crate::proofs::Growth::plain_same))]
pub(crate) fn alone(
    words: &LineWords,
    into: &mut Module,
    node: StmtNode,
    pos: usize,
) -> Result<StmtId, Unread>
    requires module { IsModule into.old }
    requires parts { AreStmtPartsThere into.old node }
    requires plain { IsPlain node }
    ensures grown { Grows into.old into.new }
    ensures read { (d : Simple) → stmt_tree into.old (shown_stmt into.old) node ≡ tree.simple d → GivesSimple into.new result (alone d (drop pos words.now)) }
{
    if !at_end(words, pos) {
        return Err(Unread::NoForm);
    }
    Ok(add(into, node)?)
}

/// What follows an `assert`, which stands on a line.
#[tactic(auto, using(crate::proofs::Growth::grows_then, crate::proofs::Growth::plain_then, crate::proofs::Growth::grows_same, crate::proofs::Growth::plain_same))]
pub(crate) fn assert_statement(
    alloc: Global,
    words: &LineWords,
    into: &mut Module,
    line: u32,
    pos: usize,
) -> Result<StmtId, Unread>
    ensures grown { Grows into.old into.new }
    ensures read { GivesSimple into.new result (assert_of line (drop pos words.now)) }
{
    let (condition, next) = expression(alloc, words, into, pos)?;
    asserted(alloc, words, into, line, condition, next)
}

// What follows the condition of an `assert`.
#[tactic(auto, using(crate::proofs::Growth::grows_then, crate::proofs::Growth::plain_then, crate::proofs::Growth::grows_same, crate::proofs::Growth::plain_same))]
fn asserted(
    alloc: Global,
    words: &LineWords,
    into: &mut Module,
    line: u32,
    condition: ExprId,
    pos: usize,
) -> Result<StmtId, Unread>
    requires module { IsModule into.old }
    requires condition { condition.index < length into.old.exprs }
    ensures grown { Grows into.old into.new }
    ensures read { GivesSimple into.new result (message_of line (shown into.old condition.index) (drop pos words.now)) }
{
    if at_end(words, pos) {
        let node = StmtNode::Assert {
            line,
            condition,
            message: None,
        };
        return Ok(add(into, node)?);
    }
    let Some(start) = words.sign(pos, Mark::Comma) else {
        return Err(Unread::NoForm);
    };
    let message = whole_expression(alloc, words, into, start)?;
    let node = StmtNode::Assert {
        line,
        condition,
        message: Some(message),
    };
    Ok(add(into, node)?)
}

/// What follows a `raise`, which stands on a line.
#[tactic(auto, using(crate::proofs::Growth::grows_then, crate::proofs::Growth::plain_then, crate::proofs::Growth::grows_same, crate::proofs::Growth::plain_same))]
pub(crate) fn raise_statement(
    alloc: Global,
    words: &LineWords,
    into: &mut Module,
    line: u32,
    pos: usize,
) -> Result<StmtId, Unread>
    requires module { IsModule into.old }
    ensures grown { Grows into.old into.new }
    ensures read { GivesSimple into.new result (raise_of line (drop pos words.now)) }
{
    if at_end(words, pos) {
        return Ok(add(into, StmtNode::Reraise { line })?);
    }
    let Some((text, next)) = words.name(pos) else {
        return Err(Unread::NoForm);
    };
    let class = add_name(into, text)?;
    raised(alloc, words, into, line, class, next)
}

// What follows the class of a `raise`.
#[tactic(auto, using(crate::proofs::Growth::grows_then, crate::proofs::Growth::plain_then, crate::proofs::Growth::grows_same, crate::proofs::Growth::plain_same))]
fn raised(
    alloc: Global,
    words: &LineWords,
    into: &mut Module,
    line: u32,
    class: NameId,
    pos: usize,
) -> Result<StmtId, Unread>
    requires module { IsModule into.old }
    requires class { class.index < length into.old.names }
    ensures grown { Grows into.old into.new }
    ensures read { GivesSimple into.new result (raised_of line (text_of into.old.names class) (drop pos words.now)) }
{
    if at_end(words, pos) {
        let node = StmtNode::Raise {
            line,
            class,
            arguments: None,
        };
        return Ok(add(into, node)?);
    }
    let Some(start) = words.sign(pos, Mark::OpenParen) else {
        return Err(Unread::NoForm);
    };
    let (arguments, end) = call_arguments(alloc, words, into, start)?;
    if !at_end(words, end) {
        return Err(Unread::NoForm);
    }
    let node = StmtNode::Raise {
        line,
        class,
        arguments: Some(arguments),
    };
    Ok(add(into, node)?)
}

/// What follows a `del`, which stands on a line.
#[tactic(auto, using(crate::proofs::Growth::grows_then, crate::proofs::Growth::plain_then))]
pub(crate) fn delete_statement(
    alloc: Global,
    words: &LineWords,
    into: &mut Module,
    line: u32,
    pos: usize,
) -> Result<StmtId, Unread>
    ensures grown { Grows into.old into.new }
    ensures read { GivesSimple into.new result (delete_of line (drop pos words.now)) }
{
    let (target, end) = primary(alloc, words, into, pos)?;
    if !at_end(words, end) {
        return Err(Unread::NoForm);
    }
    if !is_index(into, target) {
        return Err(Unread::NoForm);
    }
    Ok(add(into, StmtNode::Delete { line, target })?)
}

/// What follows an `import` that begins a statement, which stands on a line.
#[tactic(auto, using(crate::proofs::Growth::grows_then, crate::proofs::Growth::plain_then))]
pub(crate) fn import_statement(
    alloc: Global,
    words: &LineWords,
    into: &mut Module,
    line: u32,
    pos: usize,
) -> Result<StmtId, Unread>
    ensures grown { Grows into.old into.new }
    ensures read { GivesSimple into.new result (import_of line (drop pos words.now)) }
{
    let (path, end) = read_names(alloc, words, into, Mark::Dot, pos)?;
    if !at_end(words, end) {
        return Err(Unread::NoForm);
    }
    Ok(add(into, StmtNode::Import { line, path })?)
}

/// What follows a `from`, which stands on a line.
#[tactic(auto, using(crate::proofs::Growth::grows_then, crate::proofs::Growth::plain_then, crate::proofs::Growth::grows_same, crate::proofs::Growth::plain_same))]
pub(crate) fn from_statement(
    alloc: Global,
    words: &LineWords,
    into: &mut Module,
    line: u32,
    pos: usize,
) -> Result<StmtId, Unread>
    requires module { IsModule into.old }
    ensures grown { Grows into.old into.new }
    ensures read { GivesSimple into.new result (from_of line (drop pos words.now)) }
{
    let Some((text, after)) = words.name(pos) else {
        return Err(Unread::NoForm);
    };
    let Some(start) = words.sign(after, Mark::Import) else {
        return Err(Unread::NoForm);
    };
    let module = add_name(into, text)?;
    let (names, end) = read_imported(alloc, words, into, start)?;
    if !at_end(words, end) {
        return Err(Unread::NoForm);
    }
    let node = StmtNode::ImportFrom {
        line,
        module,
        names,
    };
    Ok(add(into, node)?)
}
