ghost use Rattle.std.specs.Prelude.{◌<◌, ◌++◌, length, Some};
ghost use Rattle.spec_uses.specs.Expressions.{raised_as};
ghost use Rattle.spec_uses.specs.Statements.{uses_in_option, uses_in_raise, uses_in_target};
ghost use Rattle.py_tree.specs.Arena.{shown, shown_stmt};
ghost use Rattle.py_tree.specs.Exprs.{IsBoundBelow, IsCallBelow, arguments_tree};
ghost use Rattle.py_tree.specs.Names.{text_of};
ghost use Rattle.py_tree.specs.Stmts.{IsCallThere, optional_arguments, optional_expr};
ghost use Rattle.name_scopes.specs.Showing.{IsSized};
ghost use Rattle.name_scopes.specs.Walking.{Walks};
ghost use Rattle.statement_uses.specs.Lines.{uses_in_line};

use expression_uses::{
    has_keywords, told_of_expression, told_of_generator, told_of_raised, told_of_rest,
};
use module_members::is_private;
use name_scopes::Scope;
use py_tree::{ArgumentsNode, ExprId, ExprNode, Module, NameId, StmtId, StmtNode};
use spec_names::{ProfileFault, Refusal};
use spec_uses::Place;
use told_refusals::told_if;

// What is told behind the target of a statement on a line. A name that is assigned is not read.
fn told_of_target(
    module: &Module,
    scope: &mut Scope,
    line: u32,
    target: ExprId,
    told: Option<Refusal>,
) -> Option<Refusal>
    requires target { target.index < length «module».now.exprs }
    requires sized { IsSized «module».now.names scope.old }
    ensures { Walks «module».now.names scope.old scope.new told result (λ s. uses_in_target s line (shown «module».now target.index)) }
{
    match module.expr(target) {
        ExprNode::Attribute { line, object, name } => {
            let is_private = is_private(module.name_text(*name));
            let told = told_if(told, is_private, *line, ProfileFault::Form);
            told_of_expression(module, scope, Place::Read, *object, told)
        }
        ExprNode::Name { name, .. } => {
            let is_private = is_private(module.name_text(*name));
            told_if(told, is_private, line, ProfileFault::Form)
        }
        _ => told_of_expression(module, scope, Place::Read, target, told),
    }
}

// What is told behind an expression that is read, where it is there.
fn told_of_option(
    module: &Module,
    scope: &mut Scope,
    e: Option<ExprId>,
    told: Option<Refusal>,
) -> Option<Refusal>
    requires expression { IsBoundBelow (length «module».now.exprs) e }
    requires sized { IsSized «module».now.names scope.old }
    ensures { Walks «module».now.names scope.old scope.new told result (λ s. uses_in_option s (optional_expr «module».now e)) }
{
    match e {
        Some(e) => told_of_expression(module, scope, Place::Read, e, told),
        None => told,
    }
}

// What is told behind what stands between the brackets of a `raise` on a line.
fn told_of_brackets(
    module: &Module,
    scope: &mut Scope,
    line: u32,
    brackets: &ArgumentsNode,
    told: Option<Refusal>,
) -> Option<Refusal>
    requires brackets { IsCallBelow (length «module».now.names) (length «module».now.exprs) brackets.now }
    requires sized { IsSized «module».now.names scope.old }
    ensures { Walks «module».now.names scope.old scope.new told result (λ s. uses_in_raise s line (Some (arguments_tree «module».now.names (shown «module».now) brackets.now))) }
{
    match brackets {
        ArgumentsNode::Generated(generator) => {
            let told = told_if(told, true, line, ProfileFault::Form);
            told_of_generator(module, scope, line, generator, told)
        }
        ArgumentsNode::Listed(arguments) => {
            let has_keywords = has_keywords(module, arguments);
            let told = told_if(told, has_keywords, line, ProfileFault::Form);
            told_of_rest(module, scope, arguments, told)
        }
    }
}

// What is told behind a `raise` of a class on a line, with its brackets where they are there.
fn told_of_raise(
    module: &Module,
    scope: &mut Scope,
    line: u32,
    class: NameId,
    brackets: &Option<ArgumentsNode>,
    told: Option<Refusal>,
) -> Option<Refusal>
    requires class { «class».index < length «module».now.names }
    requires brackets { IsCallThere «module».now brackets.now }
    requires sized { IsSized «module».now.names scope.old }
    ensures { Walks «module».now.names scope.old scope.new told result (λ s. raised_as (s.meaning (text_of «module».now.names «class»)) line ++ uses_in_raise s line (optional_arguments «module».now brackets.now)) }
{
    let told = told_of_raised(scope.meaning(module, class), line, told);
    match brackets {
        Some(brackets) => told_of_brackets(module, scope, line, brackets, told),
        None => told,
    }
}

/// What is told behind a statement, where it is simple.
pub(crate) fn told_of_simple(
    module: &Module,
    scope: &mut Scope,
    s: StmtId,
    told: Option<Refusal>,
) -> Option<Refusal>
    requires statement { s.index < length «module».now.stmts }
    requires sized { IsSized «module».now.names scope.old }
    ensures { Walks «module».now.names scope.old scope.new told result (λ x. uses_in_line x (shown_stmt «module».now s.index)) }
{
    match module.stmt(s) {
        StmtNode::Assign {
            line,
            target,
            value,
        }
        | StmtNode::Augment {
            line,
            target,
            value,
            ..
        } => {
            let told = told_of_target(module, scope, *line, *target, told);
            told_of_expression(module, scope, Place::Read, *value, told)
        }
        StmtNode::Annotate {
            line,
            target,
            value,
            ..
        } => {
            let told = told_of_target(module, scope, *line, *target, told);
            told_of_option(module, scope, *value, told)
        }
        StmtNode::Evaluate { value, .. } | StmtNode::Delete { target: value, .. } => {
            told_of_expression(module, scope, Place::Read, *value, told)
        }
        StmtNode::Return { value, .. } => told_of_option(module, scope, *value, told),
        StmtNode::Assert {
            condition,
            message,
            ..
        } => {
            let told = told_of_expression(module, scope, Place::Read, *condition, told);
            told_of_option(module, scope, *message, told)
        }
        StmtNode::Raise {
            line,
            class,
            arguments,
        } => told_of_raise(module, scope, *line, *class, arguments, told),
        _ => told,
    }
}
