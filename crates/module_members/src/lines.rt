ghost use Rattle.std.specs.Prelude.{◌≡◌, ◌<◌, length};
ghost use Rattle.spec_names.specs.Lines.{line_of, line_of_expression};
ghost use Rattle.py_tree.specs.Arena.{shown, shown_stmt};

use py_tree::{ExprId, ExprNode, Module, StmtId, StmtNode};

/// The line, from 1, of a statement: that on which its first token stands.
pub fn line_of(module: &Module, s: StmtId) -> u32
    requires { s.index < length «module».now.stmts }
    ensures { result ≡ line_of (shown_stmt «module».now s.index) }
{
    match module.stmt(s) {
        StmtNode::Assign { line, .. }
        | StmtNode::Annotate { line, .. }
        | StmtNode::Augment { line, .. }
        | StmtNode::Evaluate { line, .. }
        | StmtNode::Return { line, .. }
        | StmtNode::Pass { line }
        | StmtNode::Break { line }
        | StmtNode::Continue { line }
        | StmtNode::Assert { line, .. }
        | StmtNode::Reraise { line }
        | StmtNode::Raise { line, .. }
        | StmtNode::Delete { line, .. }
        | StmtNode::Import { line, .. }
        | StmtNode::ImportFrom { line, .. }
        | StmtNode::Def { line, .. }
        | StmtNode::Class { line, .. }
        | StmtNode::If { line, .. }
        | StmtNode::While { line, .. }
        | StmtNode::For { line, .. }
        | StmtNode::Try { line, .. } => *line,
    }
}

/// The line, from 1, of an expression: that on which its first token stands.
pub fn line_of_expression(module: &Module, e: ExprId) -> u32
    requires { e.index < length «module».now.exprs }
    ensures { result ≡ line_of_expression (shown «module».now e.index) }
{
    match module.expr(e) {
        ExprNode::Name { line, .. }
        | ExprNode::Integer { line, .. }
        | ExprNode::Text { line, .. }
        | ExprNode::Truth { line, .. }
        | ExprNode::None { line }
        | ExprNode::Group { line, .. }
        | ExprNode::List { line, .. }
        | ExprNode::Dict { line, .. }
        | ExprNode::Comprehension { line, .. }
        | ExprNode::Attribute { line, .. }
        | ExprNode::Call { line, .. }
        | ExprNode::Index { line, .. }
        | ExprNode::Slice { line, .. }
        | ExprNode::Prefixed { line, .. }
        | ExprNode::Binary { line, .. }
        | ExprNode::Chain { line, .. }
        | ExprNode::Choice { line, .. } => *line,
    }
}
