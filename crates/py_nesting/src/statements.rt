ghost use Rattle.std.specs.Prelude.{◌≡◌, ◌<◌, ℕ, List, length, nat_lt};
ghost use Rattle.spec_trees.specs.Stmt as statement;
ghost use Rattle.spec_grammar.specs.Height.{MAX_HEIGHT, simple_height};
ghost use Rattle.py_tree.specs.Arena.{shown_stmt};
ghost use Rattle.py_tree.specs.Stmts.{IsCallThere, optional_arguments};
ghost use Rattle.py_nesting.specs.Heights.{statement_height};

use py_heights::{are_arguments_high, is_high, is_option_high, is_target_high};
use py_tree::{ArgumentsNode, Module, StmtId, StmtNode};

// Whether there are arguments behind the class of a `raise`, and one of them is higher than is admitted.
fn are_raised_high(module: &Module, arguments: &Option<ArgumentsNode>) -> bool
    requires { IsCallThere «module».now arguments.now }
    ensures { (line : ℕ) (class : List ℕ) → result ≡ nat_lt MAX_HEIGHT (simple_height (statement.raise line class (optional_arguments «module».now arguments.now))) }
{
    match arguments {
        None => false,
        Some(arguments) => are_arguments_high(module, arguments),
    }
}

// Whether an expression of a simple statement is higher than is admitted. It is false of a statement with blocks.
pub(crate) fn is_statement_high(module: &Module, s: StmtId) -> bool
    requires { s.index < length «module».now.stmts }
    ensures { result ≡ nat_lt MAX_HEIGHT (statement_height (shown_stmt «module».now s.index)) }
{
    match module.stmt(s) {
        StmtNode::Assign { target, value, .. } | StmtNode::Augment { target, value, .. } => {
            is_target_high(module, *target) || is_high(module, *value)
        }
        StmtNode::Annotate { target, value, .. } => {
            is_target_high(module, *target) || is_option_high(module, *value)
        }
        StmtNode::Evaluate { value, .. } => is_high(module, *value),
        StmtNode::Return { value, .. } => is_option_high(module, *value),
        StmtNode::Assert {
            condition,
            message,
            ..
        } => is_high(module, *condition) || is_option_high(module, *message),
        StmtNode::Raise { arguments, .. } => are_raised_high(module, arguments),
        StmtNode::Delete { target, .. } => is_target_high(module, *target),
        StmtNode::Pass { .. }
        | StmtNode::Break { .. }
        | StmtNode::Continue { .. }
        | StmtNode::Reraise { .. }
        | StmtNode::Import { .. }
        | StmtNode::ImportFrom { .. }
        | StmtNode::Def { .. }
        | StmtNode::Class { .. }
        | StmtNode::If { .. }
        | StmtNode::While { .. }
        | StmtNode::For { .. }
        | StmtNode::Try { .. } => false,
    }
}
