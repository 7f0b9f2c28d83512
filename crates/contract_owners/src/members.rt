ghost use Rattle.std.specs.Prelude.{◌≡◌, ◌<◌, length, map};
ghost use Rattle.std.specs.Option.{option_map};
ghost use Rattle.spec_contracts.specs.Docstrings.{docstring_of, literal_of};
ghost use Rattle.py_tree.specs.Arena.{shown_stmt};
ghost use Rattle.py_tree.specs.Exprs.{part_tree};
ghost use Rattle.py_tree.specs.Stmts.{AreParametersThere, AreStmtsBelow, block_tree};
ghost use Rattle.contract_owners.specs.Members.{docstring_in, names_in, parameters_in};

use py_tree::{ExprNode, Module, ParameterNode, StmtId, StmtNode, StrPart};

// The string literal that a statement is, where it is one alone.
fn literal(module: &Module, s: StmtId) -> Option<&StrPart>
    requires { s.index < length «module».now.stmts }
    ensures { option_map (λ p. part_tree p.now) result ≡ literal_of (shown_stmt «module».now s.index) }
{
    let StmtNode::Evaluate { value, .. } = module.stmt(s) else {
        return None;
    };
    match module.expr(*value) {
        ExprNode::Text { first, rest, .. } if rest.is_empty() => Some(first),
        _ => None,
    }
}

// The docstring of a body.
fn first_literal<'a>(module: &'a Module, body: &[StmtId]) -> Option<&'a StrPart>
    requires { AreStmtsBelow (length «module».now.stmts) body.now }
    ensures { option_map (λ p. part_tree p.now) result ≡ docstring_of (block_tree (shown_stmt «module».now) body.now) }
{
    literal(module, *body.first()?)
}

/// The docstring of a function or class: the string literal alone that its first statement is. A statement of another
/// kind has none.
pub fn docstring(module: &Module, s: StmtId) -> Option<&StrPart>
    requires { s.index < length «module».now.stmts }
    ensures { option_map (λ p. part_tree p.now) result ≡ docstring_in (shown_stmt «module».now s.index) }
{
    match module.stmt(s) {
        StmtNode::Def { body, .. } | StmtNode::Class { body, .. } => first_literal(module, body),
        _ => None,
    }
}

/// The parameters of a function, in their order. A statement of another kind has none.
pub fn parameters(module: &Module, s: StmtId) -> &[ParameterNode]
    requires { s.index < length «module».now.stmts }
    ensures names { names_in «module».now.names result.now ≡ parameters_in (shown_stmt «module».now s.index) }
    ensures there { AreParametersThere «module».now result.now }
{
    match module.stmt(s) {
        StmtNode::Def { parameters, .. } => parameters,
        _ => &[],
    }
}
