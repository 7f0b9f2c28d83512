ghost use Rattle.std.specs.Prelude.{drop};
ghost use Rattle.spec_grammar.specs.HeaderReading.{headed_line, read_line};
ghost use Rattle.py_tree.specs.Arena.{IsModule};
ghost use Rattle.py_statements.specs.Given.{Grows};
ghost use Rattle.py_lines.specs.Given.{GivesLine};
ghost use Rattle.py_lines.specs.Headers.{header_tree, IsHeaderThere};

use crate::headers::read_header;
use crate::nodes::{HeaderNode, LineNode};
use py_statements::read_simple;
use py_tree::Module;
use py_words::{LineWords, Unread};
use std::alloc::Global;

// A header with the statement behind it, where words are left.
#[tactic(auto, using(py_statements::proofs::Growth::grows_same, py_statements::proofs::Growth::plain_same))]
fn headed_line(
    alloc: Global,
    words: &LineWords,
    into: &mut Module,
    header: HeaderNode,
    pos: usize,
) -> Result<LineNode, Unread>
    requires module { IsModule into.old }
    requires header { IsHeaderThere into.old header }
    ensures grown { Grows into.old into.new }
    ensures read { GivesLine into.new result (headed_line (header_tree into.old header) (drop pos words.now)) }
{
    let Some(_) = words.first(pos) else {
        return Ok(LineNode::Header(header));
    };
    let statement = read_simple(alloc, words, into, pos)?;
    Ok(LineNode::HeaderSimple(header, statement))
}

/// The line that all the words spell (Python 3.12 language reference, "Simple statements" and "Compound statements").
///
/// # Errors
///
/// `NoForm` exactly where they spell none, and `NoMemory` where there is no memory for its parts.
#[tactic(auto, using(py_statements::proofs::Growth::grows_then, py_statements::proofs::Growth::plain_then))]
pub fn read_line(alloc: Global, words: &LineWords, into: &mut Module) -> Result<LineNode, Unread>
    ensures grown { Grows into.old into.new }
    ensures read { GivesLine into.new result (read_line words.now) }
{
    match read_header(alloc, words, into, 0) {
        Ok((header, next)) => headed_line(alloc, words, into, header, next),
        Err(Unread::NoForm) => {
            let statement = read_simple(alloc, words, into, 0)?;
            Ok(LineNode::Simple(statement))
        }
        Err(Unread::NoMemory) => Err(Unread::NoMemory),
    }
}
