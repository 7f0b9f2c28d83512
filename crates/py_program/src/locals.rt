ghost use Rattle.std.specs.Prelude.{◌≡◌, ◌<◌, length};
ghost use Rattle.std.specs.Str.{bytes_eq};
ghost use Rattle.spec_contracts.specs.ContractLines.{is_among};
ghost use Rattle.spec_names.specs.Names.{names_of};
ghost use Rattle.spec_programs.specs.Definitions.{is_local};
ghost use Rattle.spec_uses.specs.Statements.{assigned, assigned_by, assigned_in_branches, assigned_in_handlers, targeted};
ghost use Rattle.py_tree.specs.Arena.{shown, shown_stmt};
ghost use Rattle.py_tree.specs.Names.{text_of};
ghost use Rattle.py_tree.specs.Stmts.{AreBranchesBelow, AreHandlersBelow, AreParametersThere, AreStmtsBelow, block_tree, branches_tree, handlers_tree, parameters_tree};
ghost use Rattle.py_program.specs.Entries.{defined_in};
ghost use Rattle.py_program.specs.Programs.{IsProgram, OfFunction};

use crate::{FnId, Program};
use py_tree::{
    BranchNode, ExprId, ExprNode, HandlerNode, Module, NameId, ParameterNode, StmtId, StmtNode,
};

// Whether two names are one, which their texts tell too.
fn is_same(module: &Module, one: NameId, other: NameId) -> bool
    requires one { one.index < length «module».now.names }
    requires other { other.index < length «module».now.names }
    ensures { result ≡ bytes_eq (text_of «module».now.names one) (text_of «module».now.names other) }
{
    // its contract tells that names differ in their texts
    let _ = module.names_count();
    one.index == other.index
}

// Whether a name is that of a parameter.
fn is_parameter(module: &Module, parameters: &[ParameterNode], name: NameId) -> bool
    requires parameters { AreParametersThere «module».now parameters.now }
    requires name { name.index < length «module».now.names }
    ensures { result ≡ is_among (names_of (parameters_tree «module».now parameters.now)) (text_of «module».now.names name) }
{
    for parameter in parameters {
        if is_same(module, name, parameter.name) {
            return true;
        }
    }
    false
}

// Whether a target is a name.
fn is_target(module: &Module, target: ExprId, name: NameId) -> bool
    requires target { target.index < length «module».now.exprs }
    requires name { name.index < length «module».now.names }
    ensures { result ≡ is_among (targeted (shown «module».now target.index)) (text_of «module».now.names name) }
{
    match module.expr(target) {
        ExprNode::Name { name: assigned, .. } => is_same(module, name, *assigned),
        _ => false,
    }
}

// Whether the blocks of `elif` assign a name.
#[cycle(assigns)]
fn branches_assign(module: &Module, branches: &[BranchNode], name: NameId) -> bool
    requires branches { AreBranchesBelow «module».now (length «module».now.stmts) branches.now }
    requires name { name.index < length «module».now.names }
    ensures { result ≡ is_among (assigned_in_branches (branches_tree «module».now (shown_stmt «module».now) branches.now)) (text_of «module».now.names name) }
{
    for branch in branches {
        if block_assigns(module, &branch.body, name) {
            return true;
        }
    }
    false
}

// Whether the blocks of `except` assign a name.
#[cycle(assigns)]
fn handlers_assign(module: &Module, handlers: &[HandlerNode], name: NameId) -> bool
    requires handlers { AreHandlersBelow «module».now (length «module».now.stmts) handlers.now }
    requires name { name.index < length «module».now.names }
    ensures { result ≡ is_among (assigned_in_handlers (handlers_tree «module».now (shown_stmt «module».now) handlers.now)) (text_of «module».now.names name) }
{
    for handler in handlers {
        if block_assigns(module, &handler.body, name) {
            return true;
        }
    }
    false
}

// Whether a statement assigns a name.
#[cycle(assigns)]
fn statement_assigns(module: &Module, s: StmtId, name: NameId) -> bool
    requires statement { s.index < length «module».now.stmts }
    requires name { name.index < length «module».now.names }
    ensures { result ≡ is_among (assigned_by (shown_stmt «module».now s.index)) (text_of «module».now.names name) }
{
    match module.stmt(s) {
        StmtNode::Assign { target, .. }
        | StmtNode::Annotate { target, .. }
        | StmtNode::Augment { target, .. } => is_target(module, *target, name),
        StmtNode::If {
            body,
            branches,
            otherwise,
            ..
        } => {
            block_assigns(module, body, name)
                || branches_assign(module, branches, name)
                || block_assigns(module, otherwise, name)
        }
        StmtNode::While {
            body,
            otherwise,
            ..
        } => block_assigns(module, body, name) || block_assigns(module, otherwise, name),
        StmtNode::For {
            variable,
            body,
            otherwise,
            ..
        } => {
            is_same(module, name, *variable)
                || block_assigns(module, body, name)
                || block_assigns(module, otherwise, name)
        }
        StmtNode::Try {
            body,
            handlers,
            otherwise,
            ..
        } => {
            block_assigns(module, body, name)
                || handlers_assign(module, handlers, name)
                || block_assigns(module, otherwise, name)
        }
        _ => false,
    }
}

// Whether the statements of a block assign a name, in nested blocks too.
#[cycle(assigns)]
fn block_assigns(module: &Module, body: &[StmtId], name: NameId) -> bool
    requires body { AreStmtsBelow (length «module».now.stmts) body.now }
    requires name { name.index < length «module».now.names }
    ensures { result ≡ is_among (assigned (block_tree (shown_stmt «module».now) body.now)) (text_of «module».now.names name) }
{
    for s in body {
        if statement_assigns(module, *s, name) {
            return true;
        }
    }
    false
}

impl Program {
    /// Whether a name is local to a function: that of a parameter, or one that its body assigns. It takes time linear in the
    /// number of parameters and of statements of the body, in nested blocks too, and calls itself as deep as blocks stand in
    /// each other.
    pub fn is_local(&self, f: FnId, n: NameId) -> bool
        requires function { f.index < length self.now.functions }
        requires name { n.index < length self.now.source.names }
        ensures local { OfFunction self.now f (λ e. result ≡ is_local (defined_in self.now.source e) (text_of self.now.source.names n)) }
        ensures program { IsProgram self.now }
    {
        let entry = self.function(f);
        let module = self.module();
        is_parameter(module, &entry.parameters, n) || block_assigns(module, &entry.body, n)
    }
}
