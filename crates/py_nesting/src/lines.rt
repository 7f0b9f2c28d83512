ghost use Rattle.std.specs.Prelude.{◌≡◌, nat_lt};
ghost use Rattle.spec_trees.specs.Stmt.{Line};
ghost use Rattle.spec_grammar.specs.Height.{MAX_HEIGHT};
ghost use Rattle.spec_syntax.specs.Phases.{MAX_DEPTH, is_deep};
ghost use Rattle.py_lines.specs.Headers.{IsLine};
ghost use Rattle.py_nesting.specs.Heights.{blocks_round_node, node_height, IsNodeThere};

use crate::headers::is_header_high;
use crate::statements::is_statement_high;
use py_lines::LineNode;
use py_tree::Module;

// The greatest number of blocks that is admitted.
const GREATEST_DEPTH: usize = 100;

// Whether an expression of a line is higher than is admitted.
fn is_line_high(module: &Module, node: &LineNode) -> bool
    requires { IsNodeThere «module».now node.now }
    ensures { result ≡ nat_lt MAX_HEIGHT (node_height «module».now node.now) }
{
    match node {
        LineNode::Simple(statement) => is_statement_high(module, *statement),
        LineNode::Header(header) => is_header_high(module, header),
        LineNode::HeaderSimple(header, statement) => {
            is_header_high(module, header) || is_statement_high(module, *statement)
        }
    }
}

// Whether the line, or the statement behind its header, stands in more blocks than is admitted. The line itself stands
// in `depth` of them.
fn is_in_many_blocks(depth: usize, node: &LineNode) -> bool
    ensures { result ≡ nat_lt MAX_DEPTH (blocks_round_node depth node.now) }
{
    match node {
        LineNode::Simple(_) | LineNode::Header(_) => depth > GREATEST_DEPTH,
        LineNode::HeaderSimple(_, _) => depth >= GREATEST_DEPTH,
    }
}

/// Whether a line that stands in `depth` blocks goes deeper than is admitted: an expression in it is higher than 100,
/// or a header or statement of it stands in more than 100 blocks. A statement behind a header stands in one more block
/// than the header.
#[tactic(auto, using(crate::proofs::Nodes::node_there, crate::proofs::Nodes::height_of_node, crate::proofs::Nodes::blocks_of_node))]
pub fn is_deep(module: &Module, depth: usize, node: &LineNode) -> bool
    requires { (line : Line) × IsLine «module».now node.now line }
    ensures { (line : Line) → IsLine «module».now node.now line → result ≡ is_deep (record { depth = depth; line = line }) }
{
    is_line_high(module, node) || is_in_many_blocks(depth, node)
}
