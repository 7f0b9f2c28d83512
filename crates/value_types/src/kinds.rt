ghost use Rattle.std.specs.Prelude.{◌≡◌, ◌<◌, length, map};
ghost use Rattle.std.specs.Option.{option_map};
ghost use Rattle.spec_types.specs.Names.{type_name};
ghost use Rattle.spec_types.specs.Types.{kind_of, type_in, types_in};
ghost use Rattle.spec_types.specs.declared.TypeKind.TheVariants as kinds;
ghost use Rattle.py_tree.specs.Arena.{module_tree, shown_type};
ghost use Rattle.py_tree.specs.Types.{AreTypesBelow, types_tree};
ghost use Rattle.value_types.specs.Kinds.{dict_kind, joined_kind, optional_kind, others_count, type_with};

use py_tree::{Module, TypeId, TypeNode};
use spec_types::{TypeKind, TypeName};

// The kind of a list of elements of this kind.
fn list_kind(element: Option<TypeKind>) -> Option<TypeKind>
    ensures { result ≡ option_map (λ _. kinds.Other) element }
{
    element.map(|_| TypeKind::Other)
}

// The kind of a value of this kind, or None.
fn optional_kind(value: Option<TypeKind>) -> Option<TypeKind>
    ensures { result ≡ option_map optional_kind value }
{
    match value {
        Some(TypeKind::Key | TypeKind::Other) => Some(TypeKind::Other),
        none => none,
    }
}

// The kind of a dict of keys and values of these kinds.
fn dict_kind(key: Option<TypeKind>, value: Option<TypeKind>) -> Option<TypeKind>
    ensures { result ≡ dict_kind key value }
{
    match (key, value) {
        (Some(TypeKind::Key), Some(_)) => Some(TypeKind::Other),
        _ => None,
    }
}

// The kind of a type of this kind between `|` with others, of which so many are not None.
fn joined_kind(first: Option<TypeKind>, others: Option<usize>) -> Option<TypeKind>
    ensures { result ≡ joined_kind first others }
{
    match (first, others) {
        (Some(TypeKind::None), Some(0)) => Some(TypeKind::None),
        (Some(TypeKind::None), Some(1)) => Some(TypeKind::Other),
        (Some(TypeKind::Key | TypeKind::Other), Some(0)) => Some(TypeKind::Other),
        _ => None,
    }
}

// The kind of a name with these types in brackets.
#[cycle(kinds)]
fn kind_with(
    module: &Module,
    names: &[TypeName],
    name: TypeName,
    arguments: &[TypeId],
) -> Option<TypeKind>
    requires names { names.now ≡ map (type_name (module_tree «module».now).body) «module».now.names }
    requires arguments { AreTypesBelow (length «module».now.types) arguments.now }
    ensures { result ≡ option_map kind_of (type_with (type_name (module_tree «module».now).body) name (types_tree (shown_type «module».now) arguments.now)) }
{
    match (name, arguments) {
        (TypeName::Int | TypeName::Bool | TypeName::Str, []) => Some(TypeKind::Key),
        (TypeName::Class(_), []) => Some(TypeKind::Other),
        (TypeName::List, [element]) => list_kind(kind(module, names, *element)),
        (TypeName::Optional, [value]) => optional_kind(kind(module, names, *value)),
        (TypeName::Dict, [key, value]) => {
            dict_kind(kind(module, names, *key), kind(module, names, *value))
        }
        _ => None,
    }
}

// How many of these types are not None, where each is a type.
#[cycle(kinds)]
fn others_count(module: &Module, names: &[TypeName], types: &[TypeId]) -> Option<usize>
    requires names { names.now ≡ map (type_name (module_tree «module».now).body) «module».now.names }
    requires types { AreTypesBelow (length «module».now.types) types.now }
    ensures { result ≡ others_count (types_in (type_name (module_tree «module».now).body) (types_tree (shown_type «module».now) types.now)) }
{
    let mut count = 0;
    for t in types {
        match kind(module, names, *t) {
            Some(TypeKind::Key | TypeKind::Other) => count += 1,
            Some(TypeKind::None) => {}
            None => return None,
        }
    }
    Some(count)
}

/// What decides where a type may stand, or None where an annotation is no type. It takes time linear in the annotation, and
/// calls itself as deep as types stand in each other.
#[cycle(kinds)]
pub fn kind(module: &Module, names: &[TypeName], t: TypeId) -> Option<TypeKind>
    requires names { names.now ≡ map (type_name (module_tree «module».now).body) «module».now.names }
    requires there { t.index < length «module».now.types }
    ensures { result ≡ option_map kind_of (type_in (type_name (module_tree «module».now).body) (shown_type «module».now t.index)) }
{
    match module.type_node(t) {
        TypeNode::Name {
            name,
            arguments,
            ..
        } => kind_with(module, names, names[name.index], arguments),
        TypeNode::Union { first, rest, .. } => {
            joined_kind(
                kind(module, names, *first),
                others_count(module, names, rest),
            )
        }
        TypeNode::None { .. } => Some(TypeKind::None),
        TypeNode::Text { .. } => None,
    }
}
