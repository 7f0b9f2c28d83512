ghost use Rattle.std.specs.Prelude.{◌≡◌, ◌+◌, map, IfOk, IfSome};
ghost use Rattle.spec_grammar.specs.HeaderReading.{read_line};
ghost use Rattle.spec_syntax.specs.Phases.{read_lines};
ghost use Rattle.py_statements.specs.Given.{Grows};
ghost use Rattle.py_words.specs.Lines.{line_seen};
ghost use Rattle.py_words.specs.Seen.{seen};
ghost use Rattle.py_placed.specs.Extents.{line_feeds, end_of, last_end, span_of, span_of_words};
ghost use Rattle.py_placed.specs.Placed.{GivesLines};
ghost use Rattle.py_placed.specs.Given.{GivesPlaced};

use crate::errors::Misread;
use crate::placed::PlacedLine;
use py_lines::read_line;
use py_tree::Module;
use py_words::{LineWords, Unread, Word, WordLine};
use std::alloc::Global;

// The line on which a text ends that begins on a line, where its number fits in 32 bits.
fn line_behind(line: u32, text: &str) -> Option<u32>
    ensures { IfSome result (λ n. n ≡ line + line_feeds text.now) }
{
    let mut last = line;
    for byte in text.as_bytes() {
        if *byte == b'\n' {
            last = last.checked_add(1)?;
        }
    }
    Some(last)
}

// The line on which a word ends, where its number fits in 32 bits.
fn end_of(word: &Word) -> Option<u32>
    ensures { IfSome result (λ n. n ≡ end_of (seen word.now)) }
{
    match word {
        Word::Text(part) => line_behind(part.line, part.source.as_str()),
        _ => Some(word.line()),
    }
}

// The line on which the last word ends, where its number fits in 32 bits. It is 0 where there is no word.
fn last_line(words: &LineWords) -> Option<u32>
    ensures { IfSome result (λ n. n ≡ last_end 0 words.now) }
{
    let Some(pos) = words.len().checked_sub(1) else {
        return Some(0);
    };
    match words.first(pos) {
        Some(word) => end_of(word),
        None => Some(0),
    }
}

// A line in its place.
#[tactic(auto, using(py_statements::proofs::Growth::grows_same, py_statements::proofs::Growth::plain_same))]
fn placed_line(alloc: Global, line: &WordLine, into: &mut Module) -> Result<PlacedLine, Misread>
    ensures grown { Grows into.old into.new }
    ensures read { GivesPlaced into.new result (line_seen line.now) (read_line line.now.words) }
    ensures span { IfOk result (λ x. span_of x ≡ span_of_words (line_seen line.now)) }
{
    let first = line.words.line(0);
    let node = match read_line(alloc, &line.words, into) {
        Ok(node) => node,
        Err(Unread::NoForm) => return Err(Misread::NoLine(first)),
        Err(Unread::NoMemory) => return Err(Misread::NoMemory),
    };
    let Some(last) = last_line(&line.words) else {
        return Err(Misread::NoMemory);
    };
    Ok(PlacedLine {
        depth: line.depth,
        first,
        last,
        node,
    })
}

/// All lines of a module (Python 3.12 language reference, "Simple statements" and "Compound statements"), from the
/// first to the last.
///
/// # Errors
///
/// `NoLine` has the number of the first line whose words spell none. `NoMemory` comes where there is no memory for what
/// was read, or where the number of a line does not fit in 32 bits.
#[tactic(auto, using(py_statements::proofs::Growth::grows_then, py_statements::proofs::Growth::grows_same, py_statements::proofs::Growth::plain_same))]
pub fn read_lines(
    alloc: Global,
    lines: &[WordLine],
    into: &mut Module,
) -> Result<Vec<PlacedLine>, Misread>
    ensures grown { Grows into.old into.new }
    ensures read { GivesLines into.new result (read_lines (map line_seen lines.now)) }
    ensures spans { IfOk result (λ xs. map span_of xs.items ≡ map span_of_words (map line_seen lines.now)) }
{
    // its contract tells what holds of every module
    let _ = into.names_count();
    let mut list = Vec::new(alloc);
    for line in lines {
        let placed = placed_line(alloc, line, into)?;
        list.push(placed)?;
    }
    Ok(list)
}
