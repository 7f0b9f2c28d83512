ghost use Rattle.std.specs.Prelude.{◌≡◌, ◌<◌, ◌++◌, ◌∷◌, [], length, IfOk, IfSome};
ghost use Rattle.std.specs.Option.{option_map};
ghost use Rattle.spec_forms.specs.Forms.{is_dropped, value_of, values_of};
ghost use Rattle.py_tree.specs.Arena as source;
ghost use Rattle.py_tree.specs.Arena.{shown_stmt};
ghost use Rattle.py_tree.specs.Stmts.{AreParametersThere, AreStmtsBelow, block_tree};
ghost use Rattle.first_tree.specs.Arena.{Extends};
ghost use Rattle.first_promises.specs.Gives.{Gives};
ghost use Rattle.first_promises.specs.Scopes.{parameter_names};
ghost use Rattle.first_forms.specs.Bodies.{GivesValues, returned_of};

use first_promises::{FormError, Scope, Unformed, copy_expression, error_of};
use first_tree as first;
use module_members::{bare, line_of};
use py_tree::{ExprId, ExprNode, Module, ParameterNode, StmtId, StmtNode};
use std::alloc::Global;
use xh_outside::NoMemory;

// Whether a statement is a string literal alone, perhaps in brackets.
fn is_dropped(module: &Module, s: StmtId) -> bool
    requires { s.index < length «module».now.stmts }
    ensures { result ≡ is_dropped (shown_stmt «module».now s.index) }
{
    match module.stmt(s) {
        StmtNode::Evaluate { value, .. } => {
            matches!(module.expr(bare(module, *value)), ExprNode::Text { .. })
        }
        _ => false,
    }
}

// The expression that a statement returns.
fn returned(module: &Module, s: StmtId) -> Option<ExprId>
    requires { s.index < length «module».now.stmts }
    ensures tree { option_map (λ e. source.shown «module».now e.index) result ≡ returned_of (shown_stmt «module».now s.index) }
    ensures below { IfSome result (λ e. e.index < length «module».now.exprs) }
{
    match module.stmt(s) {
        StmtNode::Return { value, .. } => *value,
        _ => None,
    }
}

// The expression of a statement that returns one that is run.
fn value(
    alloc: Global,
    module: &Module,
    s: StmtId,
    parameters: &[ParameterNode],
    into: &mut first::Module,
) -> Result<first::ExprId, Unformed>
    requires statement { s.index < length «module».now.stmts }
    requires parameters { AreParametersThere «module».now parameters.now }
    ensures grown { Extends into.old.nodes into.new.nodes }
    ensures functions { into.new.functions ≡ into.old.functions }
    ensures value { Gives into.new.nodes result (value_of (parameter_names «module».now parameters.now) (shown_stmt «module».now s.index)) }
{
    let Some(e) = returned(module, s) else {
        return Err(Unformed::OtherForm);
    };
    let scope = Scope {
        parameters,
        is_post: false,
    };
    copy_expression(alloc, module, e, scope, into)
}

// Appends an expression.
fn add(values: &mut Vec<first::ExprId>, value: first::ExprId) -> Result<(), NoMemory>
    ensures { IfOk result (λ _. values.new.items ≡ values.old.items ++ value ∷ []) }
{
    values.push(value)?;
    Ok(())
}

/// What the statements of a body return, which has nothing else but string literals. After an error nodes may have been
/// added.
pub(crate) fn values(
    alloc: Global,
    module: &Module,
    body: &[StmtId],
    parameters: &[ParameterNode],
    into: &mut first::Module,
) -> Result<Vec<first::ExprId>, FormError>
    requires body { AreStmtsBelow (length «module».now.stmts) body.now }
    requires parameters { AreParametersThere «module».now parameters.now }
    ensures grown { Extends into.old.nodes into.new.nodes }
    ensures functions { into.new.functions ≡ into.old.functions }
    ensures values { GivesValues into.new.nodes result (values_of (parameter_names «module».now parameters.now) (block_tree (shown_stmt «module».now) body.now)) }
{
    let mut values = Vec::new(alloc);
    for s in body {
        if is_dropped(module, *s) {
            continue;
        }
        match value(alloc, module, *s, parameters, into) {
            Ok(value) => add(&mut values, value)?,
            Err(unformed) => return Err(error_of(unformed, line_of(module, *s))),
        }
    }
    Ok(values)
}
