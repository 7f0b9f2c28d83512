ghost use Rattle.std.specs.Prelude.{◌≡◌, ◌<◌, length, map, IfOk};
ghost use Rattle.py_tree.specs.Arena.{shown_stmt};
ghost use Rattle.py_tree.specs.Names.{text_of, AreNamesBelow};
ghost use Rattle.py_tree.specs.Stmts.{texts_of, stmt_tree, AreStmtPartsThere};
ghost use Rattle.py_statements.specs.Given.{Grows, IsPlain};

use py_tree::{Module, NameId, NamesId, StmtId, StmtNode};
use xh_outside::NoMemory;

/// Adds a statement whose parts are there and that is no function and no class.
#[tactic(auto, using(crate::proofs::Growth::grows_stmt, crate::proofs::Growth::plain_stmt, crate::proofs::Growth::grows_equal, crate::proofs::Growth::plain_equal))]
pub(crate) fn add(into: &mut Module, node: StmtNode) -> Result<StmtId, NoMemory>
    requires parts { AreStmtPartsThere into.old node }
    requires plain { IsPlain node }
    ensures grown { Grows into.old into.new }
    ensures there { IfOk result (λ s. s.index < length into.new.stmts) }
    ensures tree { IfOk result (λ s. shown_stmt into.new s.index ≡ stmt_tree into.old (shown_stmt into.old) node) }
{
    into.add_stmt(node)
}

/// Adds a name, where it is not there yet.
#[tactic(auto, using(crate::proofs::Growth::grows_name, crate::proofs::Growth::plain_name, crate::proofs::Growth::grows_equal, crate::proofs::Growth::plain_equal, crate::proofs::Growth::text_found))]
pub(crate) fn add_name(into: &mut Module, text: &str) -> Result<NameId, NoMemory>
    ensures grown { Grows into.old into.new }
    ensures there { IfOk result (λ n. n.index < length into.new.names) }
    ensures text { IfOk result (λ n. text_of into.new.names n ≡ text.now) }
{
    into.add_name(text)
}

/// Adds a list of names that are there.
#[tactic(auto, using(crate::proofs::Growth::grows_list, crate::proofs::Growth::plain_list, crate::proofs::Growth::grows_equal, crate::proofs::Growth::plain_equal, crate::proofs::Growth::texts_added))]
pub(crate) fn add_names(into: &mut Module, names: &[NameId]) -> Result<NamesId, NoMemory>
    requires names { AreNamesBelow (length into.old.names) names.now }
    ensures grown { Grows into.old into.new }
    ensures there { IfOk result (λ l. l.index < length into.new.lists) }
    ensures texts { IfOk result (λ l. texts_of into.new l ≡ map (text_of into.old.names) names.now) }
{
    into.add_names(names)
}
