ghost use Rattle.std.specs.Prelude.{◌≡◌, ◌<◌, length, IfOk};
ghost use Rattle.spec_grammar.specs.Grammar.{joined_tree};
ghost use Rattle.py_tree.specs.Arena.{ArePartsThere, IsModule, shown};
ghost use Rattle.py_tree.specs.Exprs.{AreLinksBelow, links_tree, node_tree};
ghost use Rattle.py_tree.specs.Names.{text_of};
ghost use Rattle.py_expressions.specs.Given.{Grows};

use py_tree::{ExprId, ExprNode, Link, Module, NameId};
use xh_outside::NoMemory;

/// Adds a node whose parts are there.
#[tactic(auto, using(crate::proofs::Growth::grows_expr, crate::proofs::Growth::grows_equal))]
pub(crate) fn add(into: &mut Module, node: ExprNode) -> Result<ExprId, NoMemory>
    requires module { IsModule into.old }
    requires parts { ArePartsThere into.old node }
    ensures grown { Grows into.old into.new }
    ensures there { IfOk result (λ e. e.index < length into.new.exprs) }
    ensures tree { IfOk result (λ e. shown into.new e.index ≡ node_tree into.old.names (shown into.old) node) }
{
    into.add_expr(node)
}

/// Adds a name, where it is not there yet.
#[tactic(auto, using(crate::proofs::Growth::grows_name, crate::proofs::Growth::grows_equal, crate::proofs::Growth::text_found))]
pub(crate) fn add_name(into: &mut Module, text: &str) -> Result<NameId, NoMemory>
    requires module { IsModule into.old }
    ensures grown { Grows into.old into.new }
    ensures there { IfOk result (λ n. n.index < length into.new.names) }
    ensures text { IfOk result (λ n. text_of into.new.names n ≡ text.now) }
{
    into.add_name(text)
}

/// The chain of an operand and the links behind it. Without a link it is that operand.
#[tactic(auto, using(crate::proofs::Growth::grows_same, crate::proofs::Growth::more_links))]
pub(crate) fn joined(
    into: &mut Module,
    line: u32,
    first: ExprId,
    links: Vec<Link>,
) -> Result<ExprId, NoMemory>
    requires module { IsModule into.old }
    requires first { first.index < length into.old.exprs }
    requires links { AreLinksBelow (length into.old.exprs) links.items }
    ensures grown { Grows into.old into.new }
    ensures there { IfOk result (λ e. e.index < length into.new.exprs) }
    ensures tree { IfOk result (λ e. shown into.new e.index ≡ joined_tree line (shown into.old first.index) (links_tree (shown into.old) links.items)) }
{
    if links.is_empty() {
        return Ok(first);
    }
    let chain = add(into, ExprNode::Chain { line, first, links })?;
    Ok(chain)
}
