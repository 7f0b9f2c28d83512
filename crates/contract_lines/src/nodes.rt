ghost use Rattle.std.specs.Prelude.{◌≡◌, ◌<◌, length, map, IfOk};
ghost use Rattle.py_tree.specs.Names.{AreNamesBelow, text_of};
ghost use Rattle.py_tree.specs.Stmts.{texts_of};
ghost use Rattle.contract_lines.specs.Given.{Grows};

use py_tree::{Module, NameId, NamesId};
use xh_outside::NoMemory;

/// Adds a name, where it is not there yet.
#[tactic(auto, using(crate::proofs::Growth::grows_name, crate::proofs::Growth::grows_equal, crate::proofs::Growth::text_found))]
pub(crate) fn add_name(into: &mut Module, text: &str) -> Result<NameId, NoMemory>
    ensures grown { Grows into.old into.new }
    ensures there { IfOk result (λ n. n.index < length into.new.names) }
    ensures text { IfOk result (λ n. text_of into.new.names n ≡ text.now) }
{
    into.add_name(text)
}

/// Adds a list of names that are there.
#[tactic(auto, using(crate::proofs::Growth::grows_list, crate::proofs::Growth::grows_equal, crate::proofs::Growth::texts_added))]
pub(crate) fn add_names(into: &mut Module, names: &[NameId]) -> Result<NamesId, NoMemory>
    requires names { AreNamesBelow (length into.old.names) names.now }
    ensures grown { Grows into.old into.new }
    ensures there { IfOk result (λ l. l.index < length into.new.lists) }
    ensures texts { IfOk result (λ l. texts_of into.new l ≡ map (text_of into.old.names) names.now) }
{
    into.add_names(names)
}
