ghost use Rattle.std.specs.Prelude.{◌≡◌, ◌<◌, length, MatchOption};
ghost use Rattle.std.specs.Option.{option_map};
ghost use Rattle.spec_names.specs.Members.{constant_of, is_admitted_module, member_of, method_of, methods_in};
ghost use Rattle.py_tree.specs.Arena.{shown, shown_stmt};
ghost use Rattle.py_tree.specs.Stmts.{AreStmtsBelow, block_tree};
ghost use Rattle.module_members.specs.Defining.{IsThere, member_in};

use crate::constants::{is_constant, is_text};
use crate::main_test::is_main_test;
use py_tree::{ExprId, ExprNode, Module, NameId, NamesId, StmtId, StmtNode};

/// What a statement of a module or a class defines.
#[derive(Clone, Copy, Debug, PartialEq, Eq)]
pub enum Member {
    /// Nothing that has a name.
    Unnamed,
    Imported(NamesId),
    Constant(NameId),
    Function(NameId),
    Class(NameId),
}

// Whether names may be imported from a module.
fn is_admitted_module(name: &str) -> bool
    ensures { result ≡ is_admitted_module name.now }
{
    name == "typing" || name == "__future__"
}

// The constant that a target gets.
fn constant(module: &Module, target: ExprId, value: ExprId) -> Option<Member>
    requires target { target.index < length «module».now.exprs }
    requires value { value.index < length «module».now.exprs }
    ensures member { option_map (member_in «module».now) result ≡ constant_of (shown «module».now target.index) (shown «module».now value.index) }
    ensures there { IsThere «module».now result }
{
    match module.expr(target) {
        ExprNode::Name { name, .. } if is_constant(module, value) => Some(Member::Constant(*name)),
        _ => None,
    }
}

/// What a statement defines in a module, or None where a module does not admit it.
pub fn member_of(module: &Module, s: StmtId) -> Option<Member>
    requires { s.index < length «module».now.stmts }
    ensures member { option_map (member_in «module».now) result ≡ member_of (shown_stmt «module».now s.index) }
    ensures there { IsThere «module».now result }
{
    match module.stmt(s) {
        StmtNode::Evaluate { value, .. } if is_text(module, *value) => Some(Member::Unnamed),
        StmtNode::Pass { .. } => Some(Member::Unnamed),
        StmtNode::ImportFrom {
            module: from,
            names,
            ..
        } if is_admitted_module(module.name_text(*from)) => Some(Member::Imported(*names)),
        StmtNode::Assign { target, value, .. } => constant(module, *target, *value),
        StmtNode::Annotate {
            target,
            value: Some(value),
            ..
        } => constant(module, *target, *value),
        StmtNode::Def { name, .. } => Some(Member::Function(*name)),
        StmtNode::Class { name, .. } => Some(Member::Class(*name)),
        StmtNode::If {
            condition,
            branches,
            otherwise,
            ..
        } if branches.is_empty() && otherwise.is_empty() && is_main_test(module, *condition) => {
            Some(Member::Unnamed)
        }
        _ => None,
    }
}

/// What a statement defines in a class, or None where a class does not admit it.
pub fn method_of(module: &Module, s: StmtId) -> Option<Member>
    requires { s.index < length «module».now.stmts }
    ensures member { option_map (member_in «module».now) result ≡ method_of (shown_stmt «module».now s.index) }
    ensures there { IsThere «module».now result }
{
    match module.stmt(s) {
        StmtNode::Evaluate { value, .. } if is_text(module, *value) => Some(Member::Unnamed),
        StmtNode::Pass { .. } => Some(Member::Unnamed),
        StmtNode::Def { name, .. } => Some(Member::Function(*name)),
        _ => None,
    }
}

/// The statements of a class. A statement of another kind has none.
pub fn methods(module: &Module, s: StmtId) -> &[StmtId]
    requires { s.index < length «module».now.stmts }
    ensures block { block_tree (shown_stmt «module».now) result.now ≡ methods_in (shown_stmt «module».now s.index) }
    ensures there { AreStmtsBelow (length «module».now.stmts) result.now }
{
    match module.stmt(s) {
        StmtNode::Class { body, .. } => body,
        _ => &[],
    }
}
