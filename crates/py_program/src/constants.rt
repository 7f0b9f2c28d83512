ghost use Rattle.std.specs.Prelude.{◌≡◌, ◌<◌, ℕ, List, length, map, IfOk};
ghost use Rattle.std.specs.List.{All};
ghost use Rattle.spec_names.specs.Members.{member_of};
ghost use Rattle.spec_programs.specs.Definitions.{constant_named, is_constant_named, value_in};
ghost use Rattle.py_tree.specs.Arena.{module_tree, shown_stmt};
ghost use Rattle.py_tree.specs.Exprs.{IsBoundBelow, IsNameBelow};
ghost use Rattle.py_tree.specs.Stmts.{optional_expr};
ghost use Rattle.py_program.specs.Named.{has_text};

use module_members::{Member, member_of};
use py_tree::{ExprId, Module, NameId, StmtId, StmtNode};
use std::alloc::Global;
use xh_outside::NoMemory;

// The name of the constant that a statement of a module defines, if it defines one.
fn constant_name(module: &Module, s: StmtId) -> Option<NameId>
    requires { s.index < length «module».now.stmts }
    ensures text { (x : List ℕ) → has_text «module».now.names x result ≡ is_constant_named x (member_of (shown_stmt «module».now s.index)) }
    ensures there { IsNameBelow (length «module».now.names) result }
{
    match member_of(module, s) {
        Some(Member::Constant(name)) => Some(name),
        _ => None,
    }
}

// The value that a statement assigns.
fn value(module: &Module, s: StmtId) -> Option<ExprId>
    requires { s.index < length «module».now.stmts }
    ensures value { optional_expr «module».now result ≡ value_in (shown_stmt «module».now s.index) }
    ensures there { IsBoundBelow (length «module».now.exprs) result }
{
    match module.stmt(s) {
        StmtNode::Assign { value, .. } => Some(*value),
        StmtNode::Annotate { value, .. } => *value,
        _ => None,
    }
}

/// The value of the constant of each name, of which the first definition counts.
pub(crate) fn constants(alloc: Global, module: &Module) -> Result<Vec<Option<ExprId>>, NoMemory>
    ensures constants { IfOk result (λ v. map (optional_expr «module».now) v.items ≡ map (constant_named (module_tree «module».now).body) «module».now.names) }
    ensures values { IfOk result (λ v. All (IsBoundBelow (length «module».now.exprs)) v.items) }
{
    let mut constants = vec![in alloc; None; module.names_count()]?;
    let mut behind = module.top();
    // from the last statement on, so that the first of a name counts
    while behind > 0 {
        behind -= 1;
        let statement = module.top_stmt(behind);
        if let Some(name) = constant_name(module, statement) {
            constants[name.index] = value(module, statement);
        }
    }
    Ok(constants)
}
