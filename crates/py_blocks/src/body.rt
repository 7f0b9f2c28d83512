ghost use Rattle.std.specs.Prelude.{List};
ghost use Rattle.spec_grammar.specs.Blocks as spelled;
ghost use Rattle.spec_grammar.specs.BlockReading.{module_of};
ghost use Rattle.py_placed.specs.Placed.{ArePlaced};
ghost use Rattle.py_blocks.specs.Given.{AreThere, GivesBody};
ghost use Rattle.py_blocks.specs.Growth.{line_extents, Builds};

use crate::building::block;
use crate::frame::Frame;
use py_placed::PlacedLine;
use py_tree::{Module, StmtId};
use py_words::Unread;
use std::alloc::Global;

/// The statements of a module itself that all its lines spell, each with its blocks (Python 3.12 language reference,
/// "Compound statements"). A function or class has the line on which its block ends. The time that this takes grows
/// with the number of lines, and for each function or class once more with the lines of its block.
///
/// # Errors
///
/// `NoForm` exactly where the lines spell no module, and `NoMemory` where there is no memory for its statements.
pub fn build(alloc: Global, lines: &[PlacedLine], into: &mut Module) -> Result<Vec<StmtId>, Unread>
    requires { AreThere into.old lines.now }
    ensures built { Builds (line_extents lines.now) into.old into.new }
    ensures read { (ps : List spelled.PlacedLine) → ArePlaced into.old lines.now ps → GivesBody into.new result (module_of ps) }
{
    // its contract tells that the parts of each node are there
    let _ = into.stmts_count();
    let count = lines.len() + 1;
    let frame = Frame {
        room: count,
        turns: count,
        depth: 0,
    };
    let (body, end) = block(alloc, lines, into, frame, Vec::new(alloc), 0)?;
    if end < lines.len() {
        return Err(Unread::NoForm);
    }
    Ok(body)
}
