ghost use Rattle.std.specs.Prelude.{◌≡◌, ◌<◌, length, nat_lt};
ghost use Rattle.spec_grammar.specs.Height.{MAX_HEIGHT, height, target_height, option_height, arguments_height, parameters_height};
ghost use Rattle.py_tree.specs.Exprs.{IsBoundBelow, IsCallBelow, arguments_tree};
ghost use Rattle.py_tree.specs.State.{shown};
ghost use Rattle.py_tree.specs.Stmts.{AreParametersThere, optional_expr, parameters_tree};

use crate::walk::{are_arguments_above, is_above};
use py_tree::{ArgumentsNode, ExprId, ExprNode, Module, ParameterNode};

/// The greatest height that is admitted.
const GREATEST_HEIGHT: usize = 100;

/// Whether an expression is higher than is admitted, which is 100.
pub fn is_high(module: &Module, e: ExprId) -> bool
    requires { e.index < length «module».now.exprs }
    ensures { result ≡ nat_lt MAX_HEIGHT (height (shown «module».now e.index)) }
{
    is_above(module, e, GREATEST_HEIGHT)
}

/// Whether there is an expression and it is higher than is admitted.
pub fn is_option_high(module: &Module, e: Option<ExprId>) -> bool
    requires { IsBoundBelow (length «module».now.exprs) e }
    ensures { result ≡ nat_lt MAX_HEIGHT (option_height (optional_expr «module».now e)) }
{
    match e {
        None => false,
        Some(e) => is_high(module, e),
    }
}

/// Whether a target, or what `del` removes, is higher than is admitted. Its own attribute or subscript does not count.
pub fn is_target_high(module: &Module, target: ExprId) -> bool
    requires { target.index < length «module».now.exprs }
    ensures { result ≡ nat_lt MAX_HEIGHT (target_height (shown «module».now target.index)) }
{
    match module.expr(target) {
        ExprNode::Attribute { object, .. } => is_high(module, *object),
        ExprNode::Index { object, index, .. } => {
            is_high(module, *object) || is_high(module, *index)
        }
        _ => is_high(module, target),
    }
}

/// Whether an argument of a call is higher than is admitted.
pub fn are_arguments_high(module: &Module, arguments: &ArgumentsNode) -> bool
    requires { IsCallBelow (length «module».now.names) (length «module».now.exprs) arguments.now }
    ensures { result ≡ nat_lt MAX_HEIGHT (arguments_height (arguments_tree «module».now.names (shown «module».now) arguments.now)) }
{
    are_arguments_above(module, arguments, GREATEST_HEIGHT)
}

/// Whether the default of a parameter is higher than is admitted.
pub fn are_defaults_high(module: &Module, parameters: &[ParameterNode]) -> bool
    requires { AreParametersThere «module».now parameters.now }
    ensures { result ≡ nat_lt MAX_HEIGHT (parameters_height (parameters_tree «module».now parameters.now)) }
{
    for parameter in parameters {
        if is_option_high(module, parameter.default) {
            return true;
        }
    }
    false
}
