ghost use Rattle.std.specs.Prelude.{◌≡◌, nat_lt};
ghost use Rattle.spec_grammar.specs.Height.{MAX_HEIGHT, header_height};
ghost use Rattle.py_lines.specs.Headers.{header_tree, IsHeaderThere};

use py_heights::{are_defaults_high, is_high};
use py_lines::HeaderNode;
use py_tree::Module;

// Whether an expression of a header is higher than is admitted.
pub(crate) fn is_header_high(module: &Module, header: &HeaderNode) -> bool
    requires { IsHeaderThere «module».now header.now }
    ensures { result ≡ nat_lt MAX_HEIGHT (header_height (header_tree «module».now header.now)) }
{
    match header {
        HeaderNode::Def { parameters, .. } => are_defaults_high(module, parameters),
        HeaderNode::If { condition, .. }
        | HeaderNode::Elif { condition, .. }
        | HeaderNode::While { condition, .. } => is_high(module, *condition),
        HeaderNode::For { iterable, .. } => is_high(module, *iterable),
        HeaderNode::Class { .. }
        | HeaderNode::Else { .. }
        | HeaderNode::Try { .. }
        | HeaderNode::Except { .. } => false,
    }
}
