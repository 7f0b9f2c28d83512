ghost use Rattle.std.specs.Prelude.{◌<◌, length};
ghost use Rattle.spec_names.specs.Members.{each, statement_refusals, unless_member, unless_method};
ghost use Rattle.py_tree.specs.Arena.{module_tree, shown_stmt};
ghost use Rattle.py_tree.specs.Stmts.{AreStmtsBelow, block_tree};
ghost use Rattle.told_refusals.specs.Telling.{Tells};

use module_members::{line_of, member_of, method_of, methods};
use py_tree::{Module, StmtId};
use spec_names::{ProfileFault, Refusal};
use told_refusals::told_if;

// What is told behind a statement of a class.
fn told_of_method(module: &Module, s: StmtId, told: Option<Refusal>) -> Option<Refusal>
    requires { s.index < length «module».now.stmts }
    ensures { Tells told result (unless_method (shown_stmt «module».now s.index)) }
{
    let is_refused = method_of(module, s).is_none();
    let line = line_of(module, s);
    told_if(told, is_refused, line, ProfileFault::ModuleStatement)
}

// What is told behind the statements of a class.
fn told_of_methods(module: &Module, body: &[StmtId], told: Option<Refusal>) -> Option<Refusal>
    requires { AreStmtsBelow (length «module».now.stmts) body.now }
    ensures { Tells told result (each unless_method (block_tree (shown_stmt «module».now) body.now)) }
{
    let mut told = told;
    for s in body {
        told = told_of_method(module, *s, told);
    }
    told
}

// What is told behind a statement of a module.
fn told_of_member(module: &Module, s: StmtId, told: Option<Refusal>) -> Option<Refusal>
    requires { s.index < length «module».now.stmts }
    ensures { Tells told result (unless_member (shown_stmt «module».now s.index)) }
{
    let is_refused = member_of(module, s).is_none();
    let line = line_of(module, s);
    let told = told_if(told, is_refused, line, ProfileFault::ModuleStatement);
    told_of_methods(module, methods(module, s), told)
}

/// What is told behind the statements of a module and of its classes that are not admitted.
pub(crate) fn told_of_statements(module: &Module, told: Option<Refusal>) -> Option<Refusal>
    ensures { Tells told result (statement_refusals (module_tree «module».now).body) }
{
    let mut told = told;
    for i in 0..module.top() {
        told = told_of_member(module, module.top_stmt(i), told);
    }
    told
}
