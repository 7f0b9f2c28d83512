ghost use Rattle.std.specs.Prelude.{◌≡◌, ◌<◌, length};
ghost use Rattle.spec_names.specs.Members.{bare, is_constant, is_integer, is_minus, is_text};
ghost use Rattle.py_tree.specs.Arena.{shown};

use crate::brackets::bare;
use py_tree::{ExprId, ExprNode, Module, Prefix};

/// Whether an expression is a string literal, perhaps in brackets.
pub(crate) fn is_text(module: &Module, e: ExprId) -> bool
    requires { e.index < length «module».now.exprs }
    ensures { result ≡ is_text (bare (shown «module».now e.index)) }
{
    matches!(module.expr(bare(module, e)), ExprNode::Text { .. })
}

// Whether an expression is an integer literal, perhaps in brackets.
fn is_integer(module: &Module, e: ExprId) -> bool
    requires { e.index < length «module».now.exprs }
    ensures { result ≡ is_integer (bare (shown «module».now e.index)) }
{
    matches!(module.expr(bare(module, e)), ExprNode::Integer { .. })
}

fn is_minus(operator: Prefix) -> bool
    ensures { result ≡ is_minus operator }
{
    operator == Prefix::Minus
}

/// Whether an expression may be the value of a constant or a default: a string, a truth value, None, or an integer with an
/// optional minus.
pub fn is_constant(module: &Module, e: ExprId) -> bool
    requires { e.index < length «module».now.exprs }
    ensures { result ≡ is_constant (shown «module».now e.index) }
{
    match module.expr(bare(module, e)) {
        ExprNode::Text { .. }
        | ExprNode::Truth { .. }
        | ExprNode::None { .. }
        | ExprNode::Integer { .. } => true,
        ExprNode::Prefixed {
            operator,
            operand,
            ..
        } => is_minus(*operator) && is_integer(module, *operand),
        _ => false,
    }
}
