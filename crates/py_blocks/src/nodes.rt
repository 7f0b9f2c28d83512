ghost use Rattle.std.specs.Prelude.{◌≡◌, ◌<◌, ℕ, List, length, IfOk};
ghost use Rattle.spec_grammar.specs.Blocks.{catches_all};
ghost use Rattle.py_tree.specs.Arena.{IsModule, shown_stmt};
ghost use Rattle.py_tree.specs.Stmts.{texts_of, stmt_tree, AreStmtPartsThere};
ghost use Rattle.py_blocks.specs.Growth.{Builds, HasExtent};

use py_tree::{Module, NamesId, StmtId, StmtNode};
use xh_outside::NoMemory;

/// Adds a statement whose parts are there.
#[tactic(auto, using(crate::proofs::Growth::builds_stmt, crate::proofs::Growth::builds_equal))]
pub(crate) fn add(into: &mut Module, node: StmtNode) -> Result<StmtId, NoMemory>
    requires module { IsModule into.old }
    requires parts { AreStmtPartsThere into.old node }
    ensures built { (xs : List (ℕ × ℕ)) → HasExtent xs node → Builds xs into.old into.new }
    ensures there { IfOk result (λ s. s.index < length into.new.stmts) }
    ensures tree { IfOk result (λ s. shown_stmt into.new s.index ≡ stmt_tree into.old (shown_stmt into.old) node) }
{
    into.add_stmt(node)
}

/// Whether a handler with these classes catches all.
pub(crate) fn catches_all(module: &Module, classes: NamesId) -> bool
    requires { classes.index < length «module».now.lists }
    ensures { result ≡ catches_all (texts_of «module».now classes) }
{
    module.names_len(classes) == 0
}
