ghost use Rattle.std.specs.Prelude.{◌≡◌, ◌<◌, [], ◌∷◌, length, drop};
ghost use Rattle.spec_grammar.specs.StatementReading.{next_name, more_names, read_names, closing_at, read_bracketed, read_imported};
ghost use Rattle.py_words.specs.Found.{Finds, FindsSeen};
ghost use Rattle.py_tree.specs.Arena.{IsModule};
ghost use Rattle.py_tree.specs.Names.{text_of};
ghost use Rattle.py_statements.specs.Given.{Grows, GivesNameList, GivesNames};

use crate::nodes::{add_name, add_names};
use py_tree::{Module, NameId, NamesId};
use py_words::{LineWords, Mark, Unread};
use std::alloc::Global;

// The number of words from a place on. No more names begin there.
fn words_from(words: &LineWords, pos: usize) -> usize
    ensures { result ≡ length (drop pos words.now) }
{
    words.len().saturating_sub(pos)
}

// The name behind a separator, and the place behind it.
fn next_name(words: &LineWords, separator: Mark, pos: usize) -> Option<(&str, usize)>
    ensures { FindsSeen (λ t. t.now) words.now result (next_name separator (drop pos words.now)) }
{
    words.name(words.sign(pos, separator)?)
}

// The names from `first` on, each further one behind a separator.
#[tactic(auto, using(crate::proofs::Growth::grows_then, crate::proofs::Growth::plain_then, crate::proofs::Growth::grows_same, crate::proofs::Growth::plain_same))]
fn more_names(
    alloc: Global,
    words: &LineWords,
    into: &mut Module,
    separator: Mark,
    room: usize,
    first: NameId,
    start: usize,
) -> Result<(Vec<NameId>, usize), Unread>
    requires module { IsModule into.old }
    requires first { first.index < length into.old.names }
    ensures grown { Grows into.old into.new }
    ensures read { GivesNameList (λ v. v.items) words.now into.new result (more_names separator room (text_of into.old.names first ∷ []) (drop start words.now)) }
{
    let mut list = Vec::from_slice(alloc, &[first])?;
    let mut pos = start;
    'list: for _ in 0..room {
        let Some((text, after)) = next_name(words, separator, pos) else {
            return Ok((list, pos));
        };
        let name = add_name(into, text)?;
        list.push(name)?;
        pos = after;
    }
    Err(Unread::NoForm)
}

/// The names that the words at a place begin with, with a separator between each two, and the place behind them. They
/// become one list of the module.
///
/// # Errors
///
/// `NoForm` exactly where no name stands at the place, and `NoMemory` where there is no memory for the names.
#[tactic(auto, using(crate::proofs::Growth::grows_then, crate::proofs::Growth::plain_then, crate::proofs::Growth::grows_same, crate::proofs::Growth::plain_same))]
pub fn read_names(
    alloc: Global,
    words: &LineWords,
    into: &mut Module,
    separator: Mark,
    pos: usize,
) -> Result<(NamesId, usize), Unread>
    ensures grown { Grows into.old into.new }
    ensures read { GivesNames words.now into.new result (read_names separator (drop pos words.now)) }
{
    // its contract tells what holds of every module
    let _ = into.names_count();
    let Some((text, next)) = words.name(pos) else {
        return Err(Unread::NoForm);
    };
    let first = add_name(into, text)?;
    let room = words_from(words, pos);
    let (names, end) = more_names(alloc, words, into, separator, room, first, next)?;
    Ok((add_names(into, &names)?, end))
}

// The place behind a closing bracket, which a comma may precede.
fn closing(words: &LineWords, pos: usize) -> Option<usize>
    ensures { Finds words.now result (closing_at (drop pos words.now)) }
{
    if let Some(end) = words.sign(pos, Mark::CloseParen) {
        return Some(end);
    }
    words.sign(words.sign(pos, Mark::Comma)?, Mark::CloseParen)
}

/// The names behind an opening bracket, with a comma between each two and perhaps behind the last one, and the place behind
/// the bracket that closes them. They become one list of the module.
///
/// # Errors
///
/// `NoForm` exactly where there is no name, or no closing bracket behind them, and `NoMemory` where there is no memory for
/// the names.
pub fn read_bracketed(
    alloc: Global,
    words: &LineWords,
    into: &mut Module,
    pos: usize,
) -> Result<(NamesId, usize), Unread>
    ensures grown { Grows into.old into.new }
    ensures read { GivesNames words.now into.new result (read_bracketed (drop pos words.now)) }
{
    let (names, next) = read_names(alloc, words, into, Mark::Comma, pos)?;
    let Some(end) = closing(words, next) else {
        return Err(Unread::NoForm);
    };
    Ok((names, end))
}

/// The names that are imported, in brackets or without, and the place behind them.
pub(crate) fn read_imported(
    alloc: Global,
    words: &LineWords,
    into: &mut Module,
    pos: usize,
) -> Result<(NamesId, usize), Unread>
    ensures grown { Grows into.old into.new }
    ensures read { GivesNames words.now into.new result (read_imported (drop pos words.now)) }
{
    if let Some(start) = words.sign(pos, Mark::OpenParen) {
        return read_bracketed(alloc, words, into, start);
    }
    read_names(alloc, words, into, Mark::Comma, pos)
}
