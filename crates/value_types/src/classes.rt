ghost use Rattle.std.specs.Prelude.{◌≡◌, ◌<◌, ◌++◌, List, length, map, Some, IfOk};
ghost use Rattle.std.specs.List.{flat_map};
ghost use Rattle.spec_types.specs.Names.{type_name};
ghost use Rattle.spec_types.specs.Types.{ValueType, spoken, type_in, types_in};
ghost use Rattle.py_tree.specs.Arena.{module_tree, shown_type};
ghost use Rattle.py_tree.specs.Types.{AreTypesBelow, types_tree};

use py_tree::{Module, TypeId, TypeNode};
use spec_types::TypeName;
use xh_outside::NoMemory;

// Appends the numbers of the classes that these types speak of.
#[cycle(spoken)]
fn add_all_spoken(
    module: &Module,
    names: &[TypeName],
    types: &[TypeId],
    into: &mut Vec<usize>,
) -> Result<(), NoMemory>
    requires names { names.now ≡ map (type_name (module_tree «module».now).body) «module».now.names }
    requires types { AreTypesBelow (length «module».now.types) types.now }
    ensures { (vs : List ValueType) → types_in (type_name (module_tree «module».now).body) (types_tree (shown_type «module».now) types.now) ≡ Some vs → IfOk result (λ _. into.new.items ≡ into.old.items ++ flat_map spoken vs) }
{
    for t in types {
        add_spoken(module, names, *t, into)?;
    }
    Ok(())
}

/// Appends the numbers of the classes that a type speaks of, in its order. Where the annotation is no type, nothing is said
/// of what is appended. It takes time linear in the annotation, and calls itself as deep as types stand in each other.
///
/// # Errors
///
/// There is no memory for them.
#[cycle(spoken)]
pub fn add_spoken(
    module: &Module,
    names: &[TypeName],
    t: TypeId,
    into: &mut Vec<usize>,
) -> Result<(), NoMemory>
    requires names { names.now ≡ map (type_name (module_tree «module».now).body) «module».now.names }
    requires there { t.index < length «module».now.types }
    ensures { (v : ValueType) → type_in (type_name (module_tree «module».now).body) (shown_type «module».now t.index) ≡ Some v → IfOk result (λ _. into.new.items ≡ into.old.items ++ spoken v) }
{
    match module.type_node(t) {
        TypeNode::Name {
            name,
            arguments,
            ..
        } => match names[name.index] {
            TypeName::Class(number) => {
                into.push(number)?;
                Ok(())
            }
            _ => add_all_spoken(module, names, arguments, into),
        },
        TypeNode::Union { first, rest, .. } => {
            add_spoken(module, names, *first, into)?;
            add_all_spoken(module, names, rest, into)
        }
        TypeNode::None { .. } | TypeNode::Text { .. } => Ok(()),
    }
}
