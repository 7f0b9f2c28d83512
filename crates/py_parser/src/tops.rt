ghost use Rattle.std.specs.Prelude.{◌≡◌, ◌++◌, length, OnOk};
ghost use Rattle.py_tree.specs.Stmts.{AreStmtsBelow};

use py_tree::{Module, StmtId};
use xh_outside::NoMemory;

/// Makes statements that are there those of the module itself, behind the ones that are.
pub(crate) fn push_tops(into: &mut Module, statements: &[StmtId]) -> Result<(), NoMemory>
    requires { AreStmtsBelow (length into.old.stmts) statements.now }
    ensures { OnOk result (into.new ≡ record into.old { tops = into.old.tops ++ statements.now }) }
{
    for statement in statements {
        into.push_top(*statement)?;
    }
    Ok(())
}
