ghost use Rattle.std.specs.Prelude.{◌<◌, length};
ghost use Rattle.spec_uses.specs.Meanings as meanings;
ghost use Rattle.spec_uses.specs.Statements.{uses_in_block, uses_in_branches, uses_in_classes, uses_in_handlers, uses_in_statement};
ghost use Rattle.py_tree.specs.Arena.{shown_stmt};
ghost use Rattle.py_tree.specs.Stmts.{AreBranchesBelow, AreHandlersBelow, AreStmtsBelow, block_tree, branches_tree, handlers_tree, texts_of};
ghost use Rattle.told_refusals.specs.Telling.{Tells};
ghost use Rattle.name_scopes.specs.Showing.{IsSized, Shows};
ghost use Rattle.name_scopes.specs.Walking.{Walks};

use crate::simple::told_of_simple;
use expression_uses::{told_of_expression, told_of_raised};
use module_members::is_private;
use name_scopes::Scope;
use py_tree::{BranchNode, HandlerNode, Module, NamesId, StmtId, StmtNode};
use spec_names::{ProfileFault, Refusal};
use spec_uses::Place;
use told_refusals::told_if;

// What is told behind the classes that a handler on a line catches.
fn told_of_classes(
    module: &Module,
    scope: &Scope,
    line: u32,
    classes: NamesId,
    told: Option<Refusal>,
) -> Option<Refusal>
    requires classes { classes.index < length «module».now.lists }
    requires sized { IsSized «module».now.names scope.now }
    ensures { (s : meanings.Scope) → Shows «module».now.names scope.now s → Tells told result (uses_in_classes s line (texts_of «module».now classes)) }
{
    let mut told = told;
    for i in 0..module.names_len(classes) {
        let class = module.names_get(classes, i);
        told = told_of_raised(scope.meaning(module, class), line, told);
    }
    told
}

// What is told behind the conditions and blocks of `elif`.
#[cycle(uses)]
fn told_of_branches(
    module: &Module,
    scope: &mut Scope,
    branches: &[BranchNode],
    told: Option<Refusal>,
) -> Option<Refusal>
    requires branches { AreBranchesBelow «module».now (length «module».now.stmts) branches.now }
    requires sized { IsSized «module».now.names scope.old }
    ensures { Walks «module».now.names scope.old scope.new told result (λ s. uses_in_branches s (branches_tree «module».now (shown_stmt «module».now) branches.now)) }
{
    let mut told = told;
    for branch in branches {
        told = told_of_expression(module, scope, Place::Read, branch.condition, told);
        told = told_of_block(module, scope, &branch.body, told);
    }
    told
}

// What is told behind the classes and blocks of `except`.
#[cycle(uses)]
fn told_of_handlers(
    module: &Module,
    scope: &mut Scope,
    handlers: &[HandlerNode],
    told: Option<Refusal>,
) -> Option<Refusal>
    requires handlers { AreHandlersBelow «module».now (length «module».now.stmts) handlers.now }
    requires sized { IsSized «module».now.names scope.old }
    ensures { Walks «module».now.names scope.old scope.new told result (λ s. uses_in_handlers s (handlers_tree «module».now (shown_stmt «module».now) handlers.now)) }
{
    let mut told = told;
    for handler in handlers {
        told = told_of_classes(module, scope, handler.line, handler.classes, told);
        told = told_of_block(module, scope, &handler.body, told);
    }
    told
}

// What is told behind a statement.
#[cycle(uses)]
fn told_of_statement(
    module: &Module,
    scope: &mut Scope,
    s: StmtId,
    told: Option<Refusal>,
) -> Option<Refusal>
    requires statement { s.index < length «module».now.stmts }
    requires sized { IsSized «module».now.names scope.old }
    ensures { Walks «module».now.names scope.old scope.new told result (λ x. uses_in_statement x (shown_stmt «module».now s.index)) }
{
    match module.stmt(s) {
        StmtNode::If {
            condition,
            body,
            branches,
            otherwise,
            ..
        } => {
            let told = told_of_expression(module, scope, Place::Read, *condition, told);
            let told = told_of_block(module, scope, body, told);
            let told = told_of_branches(module, scope, branches, told);
            told_of_block(module, scope, otherwise, told)
        }
        StmtNode::While {
            condition,
            body,
            otherwise,
            ..
        } => {
            let told = told_of_expression(module, scope, Place::Read, *condition, told);
            let told = told_of_block(module, scope, body, told);
            told_of_block(module, scope, otherwise, told)
        }
        StmtNode::For {
            line,
            variable,
            iterable,
            body,
            otherwise,
        } => {
            let is_private = is_private(module.name_text(*variable));
            let told = told_if(told, is_private, *line, ProfileFault::Form);
            let told = told_of_expression(module, scope, Place::Walked, *iterable, told);
            let told = told_of_block(module, scope, body, told);
            told_of_block(module, scope, otherwise, told)
        }
        StmtNode::Try {
            body,
            handlers,
            otherwise,
            ..
        } => {
            let told = told_of_block(module, scope, body, told);
            let told = told_of_handlers(module, scope, handlers, told);
            told_of_block(module, scope, otherwise, told)
        }
        _ => told_of_simple(module, scope, s, told),
    }
}

/// What is told behind the statements of a body, in nested blocks too. It takes time linear in the number of nodes of the
/// statements. It calls itself as deep as blocks stand in each other, which the phase of nesting bounds.
#[cycle(uses)]
pub fn told_of_block(
    module: &Module,
    scope: &mut Scope,
    body: &[StmtId],
    told: Option<Refusal>,
) -> Option<Refusal>
    requires body { AreStmtsBelow (length «module».now.stmts) body.now }
    requires sized { IsSized «module».now.names scope.old }
    ensures { Walks «module».now.names scope.old scope.new told result (λ s. uses_in_block s (block_tree (shown_stmt «module».now) body.now)) }
{
    let mut told = told;
    for s in body {
        told = told_of_statement(module, scope, *s, told);
    }
    told
}
