ghost use Rattle.std.specs.Prelude.{◌≡◌, ◌<◌, length, IfOk};
ghost use Rattle.spec_trees.specs.Stmt as tree;
ghost use Rattle.spec_grammar.specs.Types.{union_tree};
ghost use Rattle.py_tree.specs.Arena.{AreTypePartsThere, IsModule, shown_type};
ghost use Rattle.py_tree.specs.Names.{text_of};
ghost use Rattle.py_tree.specs.Types.{AreTypesBelow, type_tree, types_tree};
ghost use Rattle.py_types.specs.Given.{Grows};

use py_tree::{Module, NameId, TypeId, TypeNode};
use xh_outside::NoMemory;

/// Adds a node whose parts are there.
#[tactic(auto, using(crate::proofs::Growth::grows_type, crate::proofs::Growth::grows_equal))]
pub(crate) fn add(into: &mut Module, node: TypeNode) -> Result<TypeId, NoMemory>
    requires parts { AreTypePartsThere into.old node }
    ensures grown { Grows into.old into.new }
    ensures there { IfOk result (λ t. t.index < length into.new.types) }
    ensures tree { IfOk result (λ t. shown_type into.new t.index ≡ type_tree into.old.names (shown_type into.old) node) }
{
    into.add_type(node)
}

// Adds a name, where it is not there yet.
#[tactic(auto, using(crate::proofs::Growth::grows_name, crate::proofs::Growth::grows_equal, crate::proofs::Growth::text_found))]
fn add_name(into: &mut Module, text: &str) -> Result<NameId, NoMemory>
    ensures grown { Grows into.old into.new }
    ensures there { IfOk result (λ n. n.index < length into.new.names) }
    ensures text { IfOk result (λ n. text_of into.new.names n ≡ text.now) }
{
    into.add_name(text)
}

/// Adds a name with arguments that are there.
#[tactic(auto, using(crate::proofs::Growth::grows_then, crate::proofs::Later::types_later))]
pub(crate) fn add_named(
    into: &mut Module,
    line: u32,
    text: &str,
    arguments: Vec<TypeId>,
) -> Result<TypeId, NoMemory>
    requires module { IsModule into.old }
    requires arguments { AreTypesBelow (length into.old.types) arguments.items }
    ensures grown { Grows into.old into.new }
    ensures there { IfOk result (λ t. t.index < length into.new.types) }
    ensures tree { IfOk result (λ t. shown_type into.new t.index ≡ tree.name line text.now (types_tree (shown_type into.old) arguments.items)) }
{
    let name = add_name(into, text)?;
    add(
        into,
        TypeNode::Name {
            line,
            name,
            arguments,
        },
    )
}

/// The union of a type and others. Without another it is that type.
#[tactic(auto, using(crate::proofs::Growth::grows_same, crate::proofs::Growth::more_members))]
pub(crate) fn joined(
    into: &mut Module,
    line: u32,
    first: TypeId,
    rest: Vec<TypeId>,
) -> Result<TypeId, NoMemory>
    requires module { IsModule into.old }
    requires first { first.index < length into.old.types }
    requires rest { AreTypesBelow (length into.old.types) rest.items }
    ensures grown { Grows into.old into.new }
    ensures there { IfOk result (λ t. t.index < length into.new.types) }
    ensures tree { IfOk result (λ t. shown_type into.new t.index ≡ union_tree line (shown_type into.old first.index) (types_tree (shown_type into.old) rest.items)) }
{
    if rest.is_empty() {
        return Ok(first);
    }
    add(into, TypeNode::Union { line, first, rest })
}
