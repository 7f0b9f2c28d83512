ghost use Rattle.std.specs.Prelude.{◌≡◌, ◌<◌, ◌+◌, length, IfOk};
ghost use Rattle.spec_types.specs.Quotes.{all_letters, letters};
ghost use Rattle.py_tree.specs.Arena.{shown_type};
ghost use Rattle.py_tree.specs.Types.{AreTypesBelow, types_tree};

use py_tree::{Module, TypeId, TypeNode};
use xh_outside::NoMemory;

/// The sum of two numbers of letters. More letters than there are numbers have no room in memory.
pub(crate) fn sum(a: usize, b: usize) -> Result<usize, NoMemory>
    ensures { IfOk result (λ n. n ≡ a + b) }
{
    match a.checked_add(b) {
        Some(n) => Ok(n),
        None => Err(NoMemory),
    }
}

// The number of the letters of the strings in annotations.
#[cycle(counting)]
fn all_letters(module: &Module, types: &[TypeId]) -> Result<usize, NoMemory>
    requires { AreTypesBelow (length «module».now.types) types.now }
    ensures { IfOk result (λ n. n ≡ all_letters (types_tree (shown_type «module».now) types.now)) }
{
    let mut total = 0;
    for t in types {
        total = sum(total, letters(module, *t)?)?;
    }
    Ok(total)
}

/// The number of the letters of the strings in an annotation.
#[cycle(counting)]
pub(crate) fn letters(module: &Module, t: TypeId) -> Result<usize, NoMemory>
    requires { t.index < length «module».now.types }
    ensures { IfOk result (λ n. n ≡ letters (shown_type «module».now t.index)) }
{
    match module.type_node(t) {
        TypeNode::Name { arguments, .. } => all_letters(module, arguments),
        TypeNode::Union { first, rest, .. } => {
            let behind = all_letters(module, rest)?;
            sum(letters(module, *first)?, behind)
        }
        TypeNode::None { .. } => Ok(0),
        TypeNode::Text { part, .. } => Ok(part.value.len()),
    }
}
