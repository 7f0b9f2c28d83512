ghost use Rattle.std.specs.Prelude.{◌≡◌, List, [], map, None, Ok, IfOk};
ghost use Rattle.spec_grammar.specs.Blocks as spelled;
ghost use Rattle.spec_grammar.specs.BlockReading.{module_of};
ghost use Rattle.spec_syntax.specs.Lines.{word_lines};
ghost use Rattle.spec_syntax.specs.Phases.{block_of, by_depth, by_lines, first_deep, first_misplaced, parsed, read_lines};
ghost use Rattle.py_statements.specs.Given.{ArePlainBehind};
ghost use Rattle.py_words.specs.Lines.{line_seen};
ghost use Rattle.py_placed.specs.Extents.{extents, span_of_words};
ghost use Rattle.py_placed.specs.Placed.{ArePlaced};
ghost use Rattle.py_blocks.specs.Given.{AreThere};
ghost use Rattle.py_blocks.specs.Growth.{line_extents, HaveExtents};
ghost use Rattle.py_parser.specs.Parsed.{GivesModule};

use crate::errors::SyntaxError;
use crate::phases::{first_deep, outlines};
use crate::tops::push_tops;
use py_blocks::{Unread, build};
use py_loads::first_overloaded;
use py_outline::first_misplaced;
use py_placed::{PlacedLine, read_lines};
use py_tokens::Tokens;
use py_tree::Module;
use py_words::{WordLine, word_lines};
use std::alloc::Global;

/// The module that the tokens of a text spell. Each phase goes over all lines before the next one begins: loads, the form
/// of lines, nesting, blocks. A function or class has the line on which the last word of its block ends.
///
/// # Errors
///
/// `TooDeep` at the first line whose load is above what is admitted, or else `Line` at the first that is no line, or else
/// `TooDeep` at the first with an expression that is too high or in too many blocks, or else `Block` at the smallest line
/// that stands where it may not or lacks what must follow it. `NoMemory` where there is no memory.
pub fn module(alloc: Global, tokens: &Tokens) -> Result<Module, SyntaxError>
    ensures parsed { GivesModule result (parsed (word_lines tokens.now.scan)) }
    ensures extents { IfOk result (λ m. HaveExtents (extents (map span_of_words (word_lines tokens.now.scan))) m.stmts) }
{
    let lines = word_lines(alloc, tokens)?;
    if let Some(line) = first_overloaded(alloc, &lines)? {
        return Err(SyntaxError::TooDeep(line));
    }
    read(alloc, &lines)
}

// The module that lines spell of which none is overloaded.
fn read(alloc: Global, lines: &[WordLine]) -> Result<Module, SyntaxError>
    ensures parsed { GivesModule result (by_lines (read_lines (map line_seen lines.now))) }
    ensures extents { IfOk result (λ m. HaveExtents (extents (map span_of_words (map line_seen lines.now))) m.stmts) }
{
    let mut trees = Module::new(alloc);
    let placed = read_lines(alloc, lines, &mut trees)?;
    checked(alloc, &placed, trees)
}

// The module that lines spell, with the trees of the lines.
fn checked(alloc: Global, lines: &[PlacedLine], trees: Module) -> Result<Module, SyntaxError>
    requires placed { AreThere trees lines.now }
    requires tops { trees.tops ≡ [] }
    requires plain { ArePlainBehind 0 trees.stmts }
    ensures parsed { (ps : List spelled.PlacedLine) → ArePlaced trees lines.now ps → GivesModule result (by_depth ps (first_deep ps)) }
    ensures extents { IfOk result (λ m. HaveExtents (line_extents lines.now) m.stmts) }
{
    if let Some(line) = first_deep(&trees, lines) {
        return Err(SyntaxError::TooDeep(line));
    }
    let outlines = outlines(alloc, &trees, lines)?;
    if let Some(line) = first_misplaced(alloc, &outlines)? {
        return Err(SyntaxError::Block(line));
    }
    whole(alloc, lines, trees)
}

// The module that lines spell which stand where they may, with the trees of the lines.
fn whole(alloc: Global, lines: &[PlacedLine], trees: Module) -> Result<Module, SyntaxError>
    requires placed { AreThere trees lines.now }
    requires tops { trees.tops ≡ [] }
    requires plain { ArePlainBehind 0 trees.stmts }
    requires there { (ps : List spelled.PlacedLine) → ArePlaced trees lines.now ps → first_misplaced ps ≡ None }
    ensures parsed { (ps : List spelled.PlacedLine) → ArePlaced trees lines.now ps → GivesModule result (Ok (block_of (module_of ps))) }
    ensures extents { IfOk result (λ m. HaveExtents (line_extents lines.now) m.stmts) }
{
    let mut module = trees;
    let body = match build(alloc, lines, &mut module) {
        Ok(body) => body,
        // lines that stand where they may spell a module
        Err(Unread::NoForm) => return Err(SyntaxError::Block(0)),
        Err(Unread::NoMemory) => return Err(SyntaxError::NoMemory),
    };
    push_tops(&mut module, &body)?;
    Ok(module)
}
