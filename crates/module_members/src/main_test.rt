ghost use Rattle.std.specs.Prelude.{◌≡◌, ◌<◌, ◌∷◌, length, map, codes};
ghost use Rattle.std.specs.List.{flat_map};
ghost use Rattle.std.specs.Str.{bytes_eq};
ghost use Rattle.spec_trees.specs.Expr.{StringPart};
ghost use Rattle.spec_names.specs.Members.{bare, is_equal, is_main_link, is_main_test, is_named, is_spelled, joined};
ghost use Rattle.py_tree.specs.Arena.{shown};
ghost use Rattle.py_tree.specs.Exprs.{AreLinksBelow, links_tree, part_tree};

use crate::brackets::bare;
use py_tree::{ExprId, ExprNode, Link, Module, Operator, StrPart};

// The text that the main test compares with.
const MAIN: [char; 8] = ['_', '_', 'm', 'a', 'i', 'n', '_', '_'];

// Whether string literals, one behind the other, spell a word.
fn are_spelled(word: &[char], parts: &[StrPart]) -> bool
    ensures { result ≡ bytes_eq word.now (flat_map (λ (q : StringPart). q.value) (map part_tree parts.now)) }
{
    let mut rest = word;
    for part in parts {
        let Some(behind) = rest.strip_prefix(part.value.as_slice()) else {
            return false;
        };
        rest = behind;
    }
    rest.is_empty()
}

// Whether adjacent string literals spell a word.
fn is_joined(word: &[char], first: &StrPart, rest: &[StrPart]) -> bool
    ensures { result ≡ bytes_eq word.now (joined (part_tree first.now) (map part_tree rest.now)) }
{
    match word.strip_prefix(first.value.as_slice()) {
        Some(behind) => are_spelled(behind, rest),
        None => false,
    }
}

// Whether an expression is the text of the main test, perhaps in brackets.
fn is_main_text(module: &Module, e: ExprId) -> bool
    requires { e.index < length «module».now.exprs }
    ensures { result ≡ is_spelled (codes "__main__") (bare (shown «module».now e.index)) }
{
    match module.expr(bare(module, e)) {
        ExprNode::Text { first, rest, .. } => is_joined(&MAIN, first, rest),
        _ => false,
    }
}

// Whether an expression is the name of the main test, perhaps in brackets.
fn is_main_name(module: &Module, e: ExprId) -> bool
    requires { e.index < length «module».now.exprs }
    ensures { result ≡ is_named (codes "__name__") (bare (shown «module».now e.index)) }
{
    match module.expr(bare(module, e)) {
        ExprNode::Name { name, .. } => "__name__" == module.name_text(*name),
        _ => false,
    }
}

fn is_equal(operator: Operator) -> bool
    ensures { result ≡ is_equal operator }
{
    operator == Operator::Equal
}

// Whether what stands behind the name is that of the main test.
fn is_main_link(module: &Module, links: &[Link]) -> bool
    requires { AreLinksBelow (length «module».now.exprs) links.now }
    ensures { result ≡ is_main_link (links_tree (shown «module».now) links.now) }
{
    match links {
        [link] => is_equal(link.operator) && is_main_text(module, link.operand),
        _ => false,
    }
}

/// Whether an expression is the main test, `__name__ == "__main__"`.
pub fn is_main_test(module: &Module, e: ExprId) -> bool
    requires { e.index < length «module».now.exprs }
    ensures { result ≡ is_main_test (shown «module».now e.index) }
{
    match module.expr(bare(module, e)) {
        ExprNode::Chain { first, links, .. } => {
            is_main_name(module, *first) && is_main_link(module, links)
        }
        _ => false,
    }
}
