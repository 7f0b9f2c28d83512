ghost use Rattle.std.specs.Prelude.{◌≡◌, ◌<◌, length};
ghost use Rattle.spec_trees.specs.Stmt.{Line};
ghost use Rattle.py_tree.specs.Arena.{shown_stmt};
ghost use Rattle.py_tree.specs.Stmts.{texts_of};
ghost use Rattle.py_outline.specs.Outlines.{kind_of_handler, kind_of_header, form_of};
ghost use Rattle.py_lines.specs.Headers.{header_tree, IsHeaderThere, IsLine};
ghost use Rattle.py_forms.specs.Kinds.{kind_of_statement};

use py_lines::{HeaderNode, LineNode};
use py_outline::{Form, HeaderKind, SimpleKind};
use py_tree::{Module, NamesId, StmtId, StmtNode};

// The kind of a statement. One with a block is of no kind of its own.
fn simple_kind(module: &Module, statement: StmtId) -> SimpleKind
    requires { statement.index < length «module».now.stmts }
    ensures { result ≡ kind_of_statement (shown_stmt «module».now statement.index) }
{
    match module.stmt(statement) {
        StmtNode::Return { .. } => SimpleKind::Return,
        StmtNode::Break { .. } => SimpleKind::Break,
        StmtNode::Continue { .. } => SimpleKind::Continue,
        StmtNode::Reraise { .. } => SimpleKind::Reraise,
        StmtNode::Import { .. } | StmtNode::ImportFrom { .. } => SimpleKind::Import,
        _ => SimpleKind::Other,
    }
}

// The kind of a header.
fn header_kind(module: &Module, header: &HeaderNode) -> HeaderKind
    requires { IsHeaderThere «module».now header.now }
    ensures { result ≡ kind_of_header (header_tree «module».now header.now) }
{
    match header {
        HeaderNode::Def { .. } => HeaderKind::Def,
        HeaderNode::Class { .. } => HeaderKind::Class,
        HeaderNode::If { .. } => HeaderKind::If,
        HeaderNode::Elif { .. } => HeaderKind::Elif,
        HeaderNode::Else { .. } => HeaderKind::Else,
        HeaderNode::While { .. } => HeaderKind::While,
        HeaderNode::For { .. } => HeaderKind::For,
        HeaderNode::Try { .. } => HeaderKind::Try,
        HeaderNode::Except { classes, .. } => handler_kind(module, *classes),
    }
}

// The kind of a handler of these classes.
fn handler_kind(module: &Module, classes: NamesId) -> HeaderKind
    requires { classes.index < length «module».now.lists }
    ensures { result ≡ kind_of_handler (texts_of «module».now classes) }
{
    if module.names_len(classes) == 0 {
        return HeaderKind::ExceptAll;
    }
    HeaderKind::Except
}

/// What the rules on places ask of the form of a line.
#[tactic(auto, using(crate::proofs::LineForms::form_is))]
pub fn form_of(module: &Module, node: &LineNode) -> Form
    requires { (line : Line) × IsLine «module».now node.now line }
    ensures { (line : Line) → IsLine «module».now node.now line → result ≡ form_of line }
{
    match node {
        LineNode::Simple(statement) => Form::Simple(simple_kind(module, *statement)),
        LineNode::Header(header) => Form::Header(header_kind(module, header)),
        LineNode::HeaderSimple(header, statement) => {
            let kind = header_kind(module, header);
            Form::HeaderSimple(kind, simple_kind(module, *statement))
        }
    }
}
