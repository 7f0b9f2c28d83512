ghost use Rattle.std.specs.Prelude.{◌≡◌, ◌<◌, ◌∷◌, [], length};
ghost use Rattle.spec_uses.specs.Statements.{assigned, assigned_by, assigned_in_branches, assigned_in_handlers, targeted};
ghost use Rattle.py_tree.specs.Arena.{shown, shown_stmt};
ghost use Rattle.py_tree.specs.Names.{text_of};
ghost use Rattle.py_tree.specs.Stmts.{AreBranchesBelow, AreHandlersBelow, AreStmtsBelow, block_tree, branches_tree, handlers_tree};
ghost use Rattle.local_names.specs.Adding.{Adds};

use name_sets::NameSet;
use py_tree::{BranchNode, ExprId, ExprNode, HandlerNode, Module, NameId, StmtId, StmtNode};

// Adds a name.
fn add_name(module: &Module, name: NameId, names: &mut NameSet)
    requires name { name.index < length «module».now.names }
    requires size { length names.old ≡ length «module».now.names }
    ensures { Adds «module».now.names names.old names.new (text_of «module».now.names name ∷ []) }
{
    // its contract tells what holds of every module
    let _ = module.names_count();
    names.insert(name);
}

// Adds the name that a target is, where it is one.
fn add_target(module: &Module, target: ExprId, names: &mut NameSet)
    requires target { target.index < length «module».now.exprs }
    requires size { length names.old ≡ length «module».now.names }
    ensures { Adds «module».now.names names.old names.new (targeted (shown «module».now target.index)) }
{
    if let ExprNode::Name { name, .. } = module.expr(target) {
        add_name(module, *name, names);
    }
}

// Adds the names that the blocks of `elif` assign.
#[cycle(assigned)]
fn add_branches(module: &Module, branches: &[BranchNode], names: &mut NameSet)
    requires branches { AreBranchesBelow «module».now (length «module».now.stmts) branches.now }
    requires size { length names.old ≡ length «module».now.names }
    ensures { Adds «module».now.names names.old names.new (assigned_in_branches (branches_tree «module».now (shown_stmt «module».now) branches.now)) }
{
    for branch in branches {
        add_assigned(module, &branch.body, names);
    }
}

// Adds the names that the blocks of `except` assign.
#[cycle(assigned)]
fn add_handlers(module: &Module, handlers: &[HandlerNode], names: &mut NameSet)
    requires handlers { AreHandlersBelow «module».now (length «module».now.stmts) handlers.now }
    requires size { length names.old ≡ length «module».now.names }
    ensures { Adds «module».now.names names.old names.new (assigned_in_handlers (handlers_tree «module».now (shown_stmt «module».now) handlers.now)) }
{
    for handler in handlers {
        add_assigned(module, &handler.body, names);
    }
}

// Adds the names that a statement assigns.
#[cycle(assigned)]
fn add_statement(module: &Module, s: StmtId, names: &mut NameSet)
    requires statement { s.index < length «module».now.stmts }
    requires size { length names.old ≡ length «module».now.names }
    ensures { Adds «module».now.names names.old names.new (assigned_by (shown_stmt «module».now s.index)) }
{
    match module.stmt(s) {
        StmtNode::Assign { target, .. }
        | StmtNode::Annotate { target, .. }
        | StmtNode::Augment { target, .. } => add_target(module, *target, names),
        StmtNode::If {
            body,
            branches,
            otherwise,
            ..
        } => {
            add_assigned(module, body, names);
            add_branches(module, branches, names);
            add_assigned(module, otherwise, names);
        }
        StmtNode::While {
            body,
            otherwise,
            ..
        } => {
            add_assigned(module, body, names);
            add_assigned(module, otherwise, names);
        }
        StmtNode::For {
            variable,
            body,
            otherwise,
            ..
        } => {
            add_name(module, *variable, names);
            add_assigned(module, body, names);
            add_assigned(module, otherwise, names);
        }
        StmtNode::Try {
            body,
            handlers,
            otherwise,
            ..
        } => {
            add_assigned(module, body, names);
            add_handlers(module, handlers, names);
            add_assigned(module, otherwise, names);
        }
        _ => {}
    }
}

/// Adds to a set the names that the statements of a body assign, in nested blocks too: those of targets that are names, and
/// the variables of `for`. It takes time linear in the number of statements. It calls itself as deep as blocks stand in
/// each other, which the phase of nesting bounds.
#[cycle(assigned)]
pub fn add_assigned(module: &Module, body: &[StmtId], names: &mut NameSet)
    requires body { AreStmtsBelow (length «module».now.stmts) body.now }
    requires size { length names.old ≡ length «module».now.names }
    ensures { Adds «module».now.names names.old names.new (assigned (block_tree (shown_stmt «module».now) body.now)) }
{
    for s in body {
        add_statement(module, *s, names);
    }
}
