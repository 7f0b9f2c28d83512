ghost use Rattle.std.specs.Prelude.{drop};
ghost use Rattle.spec_grammar.specs.TypeReading.{read_type};
ghost use Rattle.py_types.specs.Given.{Grows, GivesType};

use crate::descent::whole;
use py_tree::{Module, TypeId};
use py_words::{LineWords, Unread};
use std::alloc::Global;

/// The type that the words begin with from a place on, and the place behind it. `Err` has `NoForm` where they begin
/// with no type, and `NoMemory` where there is no memory for it. After an error the module has what was there, and
/// may have more names and types.
#[tactic(auto, using(crate::proofs::Growth::grows_same, crate::proofs::Turns::enough_room))]
pub fn read_type(
    alloc: Global,
    words: &LineWords,
    into: &mut Module,
    pos: usize,
) -> Result<(TypeId, usize), Unread>
    ensures grown { Grows into.old into.new }
    ensures read { GivesType words.now into.new result (read_type (drop pos words.now)) }
{
    // The contract of the count tells what holds of every module, which the descent asks for.
    let _ = into.types_count();
    let room = words.len().saturating_sub(pos) + 1;
    whole(alloc, words, into, room, pos)
}
