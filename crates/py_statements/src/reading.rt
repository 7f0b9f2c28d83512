ghost use Rattle.std.specs.Prelude.{drop};
ghost use Rattle.spec_grammar.specs.StatementReading.{simple_of};
ghost use Rattle.py_statements.specs.Given.{Grows, GivesSimple};

use crate::assignments::unmarked;
use crate::keywords::{
    alone, assert_statement, delete_statement, from_statement, import_statement, raise_statement,
    return_statement,
};
use py_tree::{Module, StmtId, StmtNode};
use py_words::{LineWords, Mark, Unread};
use std::alloc::Global;

/// The simple statement that all the words from a place on spell (Python 3.12 language reference, "Simple statements").
///
/// # Errors
///
/// `NoForm` exactly where they spell none, and `NoMemory` where there is no memory for its nodes. After an error the module
/// has what was there, and may have more names and nodes.
pub fn read_simple(
    alloc: Global,
    words: &LineWords,
    into: &mut Module,
    pos: usize,
) -> Result<StmtId, Unread>
    ensures grown { Grows into.old into.new }
    ensures read { GivesSimple into.new result (simple_of (drop pos words.now)) }
{
    // its contract tells what holds of every module
    let _ = into.stmts_count();
    let Some((mark, next)) = words.any_sign(pos) else {
        return unmarked(alloc, words, into, pos);
    };
    let line = words.line(pos);
    match mark {
        Mark::Return => return_statement(alloc, words, into, line, next),
        Mark::Pass => alone(words, into, StmtNode::Pass { line }, next),
        Mark::Break => alone(words, into, StmtNode::Break { line }, next),
        Mark::Continue => alone(words, into, StmtNode::Continue { line }, next),
        Mark::Assert => assert_statement(alloc, words, into, line, next),
        Mark::Raise => raise_statement(alloc, words, into, line, next),
        Mark::Del => delete_statement(alloc, words, into, line, next),
        Mark::Import => import_statement(alloc, words, into, line, next),
        Mark::From => from_statement(alloc, words, into, line, next),
        _ => unmarked(alloc, words, into, pos),
    }
}
