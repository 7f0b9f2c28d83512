ghost use Rattle.std.specs.Prelude.{◌≡◌, ◌<◌, ◌≤◌, length};
ghost use Rattle.spec_names.specs.Members.{bare};
ghost use Rattle.py_tree.specs.Arena.{shown};

use py_tree::{ExprId, ExprNode, Module};

/// The expression within brackets, which are no part of what an expression says. It takes time linear in the number of
/// brackets.
pub fn bare(module: &Module, e: ExprId) -> ExprId
    requires { e.index < length «module».now.exprs }
    ensures expression { shown «module».now result.index ≡ bare (shown «module».now e.index) }
    ensures below { result.index ≤ e.index }
{
    let mut e = e;
    while let ExprNode::Group { inner, .. } = module.expr(e) {
        e = *inner;
    }
    e
}
