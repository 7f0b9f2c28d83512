ghost use Rattle.std.specs.Prelude.{◌≡◌, ◌<◌, ℕ, List, Option, length, map, Some};
ghost use Rattle.std.specs.Option.{option_map};
ghost use Rattle.spec_types.specs.Classes as defined;
ghost use Rattle.spec_types.specs.Names.{type_name};
ghost use Rattle.spec_types.specs.Types.{ValueType, is_none, type_in, types_in};
ghost use Rattle.spec_types.specs.Widths.{plus, times, width_in};
ghost use Rattle.spec_types.specs.declared.TypeName.TheVariants as type_names;
ghost use Rattle.py_tree.specs.Arena.{module_tree, shown_type};
ghost use Rattle.py_tree.specs.Types.{AreTypesBelow, types_tree};
ghost use Rattle.value_types.specs.Kinds.{type_with};
ghost use Rattle.value_types.specs.Widths.{AreCapped, capped, first_other, widths};

use crate::kind;
use py_tree::{Module, TypeId, TypeNode};
use spec_types::{TypeKind, TypeName};

/// The least width that is too great. Widths are counted up to it.
const TOO_WIDE: usize = 4097;

// A width, counted up to where it is too great.
fn capped(width: usize) -> usize
    ensures { result ≡ capped width }
{
    width.min(TOO_WIDE)
}

/// The sum of two widths, where both are there, counted up to 4,097.
pub fn sum(a: Option<usize>, b: Option<usize>) -> Option<usize>
    ensures { result ≡ option_map capped (plus a b) }
{
    match (a, b) {
        (Some(a), Some(b)) => Some(capped(a.saturating_add(b))),
        _ => None,
    }
}

// One more than so many times a width, counted up to 4,097.
fn times(max_len: u8, width: Option<usize>) -> Option<usize>
    ensures { result ≡ option_map capped (times max_len width) }
{
    let elements = usize::from(max_len).saturating_mul(width?);
    Some(capped(elements.saturating_add(1)))
}

// Whether a type is that of None.
fn is_none(module: &Module, names: &[TypeName], t: TypeId) -> bool
    requires names { names.now ≡ map (type_name (module_tree «module».now).body) «module».now.names }
    requires there { t.index < length «module».now.types }
    ensures { (v : ValueType) → type_in (type_name (module_tree «module».now).body) (shown_type «module».now t.index) ≡ Some v → result ≡ is_none v }
{
    matches!(kind(module, names, t), Some(TypeKind::None))
}

// The widths of types together.
#[cycle(widths)]
fn total(
    module: &Module,
    names: &[TypeName],
    types: &[TypeId],
    max_len: u8,
    classes: &[Option<usize>],
) -> Option<usize>
    requires names { names.now ≡ map (type_name (module_tree «module».now).body) «module».now.names }
    requires types { AreTypesBelow (length «module».now.types) types.now }
    requires classes { length classes.now ≡ length (defined.classes (module_tree «module».now).body) }
    ensures { (vs : List ValueType) → types_in (type_name (module_tree «module».now).body) (types_tree (shown_type «module».now) types.now) ≡ Some vs → (of_class : ℕ → Option ℕ) → AreCapped classes.now of_class → result ≡ option_map capped (widths max_len of_class vs) }
{
    let mut total = Some(0);
    for t in types {
        total = sum(total, width(module, names, *t, max_len, classes));
    }
    total
}

// The width of the first of these types that is not None, or of None where there is no other.
#[cycle(widths)]
fn other_width(
    module: &Module,
    names: &[TypeName],
    types: &[TypeId],
    max_len: u8,
    classes: &[Option<usize>],
) -> Option<usize>
    requires names { names.now ≡ map (type_name (module_tree «module».now).body) «module».now.names }
    requires types { AreTypesBelow (length «module».now.types) types.now }
    requires classes { length classes.now ≡ length (defined.classes (module_tree «module».now).body) }
    ensures { (vs : List ValueType) → types_in (type_name (module_tree «module».now).body) (types_tree (shown_type «module».now) types.now) ≡ Some vs → (of_class : ℕ → Option ℕ) → AreCapped classes.now of_class → result ≡ option_map capped (width_in max_len of_class (first_other vs)) }
{
    for t in types {
        if !is_none(module, names, *t) {
            return width(module, names, *t, max_len, classes);
        }
    }
    Some(1)
}

// The width of a name with these types in brackets.
#[cycle(widths)]
fn width_with(
    module: &Module,
    names: &[TypeName],
    name: TypeName,
    arguments: &[TypeId],
    max_len: u8,
    classes: &[Option<usize>],
) -> Option<usize>
    requires names { names.now ≡ map (type_name (module_tree «module».now).body) «module».now.names }
    requires class { (k : ℕ) → name ≡ type_names.Class k → k < length classes.now }
    requires arguments { AreTypesBelow (length «module».now.types) arguments.now }
    requires classes { length classes.now ≡ length (defined.classes (module_tree «module».now).body) }
    ensures { (v : ValueType) → type_with (type_name (module_tree «module».now).body) name (types_tree (shown_type «module».now) arguments.now) ≡ Some v → (of_class : ℕ → Option ℕ) → AreCapped classes.now of_class → result ≡ option_map capped (width_in max_len of_class v) }
{
    match name {
        TypeName::Unknown => None,
        TypeName::Int | TypeName::Bool => Some(1),
        TypeName::Str => Some(usize::from(max_len) + 1),
        TypeName::List | TypeName::Dict => times(
            max_len,
            total(module, names, arguments, max_len, classes),
        ),
        TypeName::Optional => total(module, names, arguments, max_len, classes),
        TypeName::Class(number) => classes[number],
    }
}

/// The width of a type, counted up to 4,097, from those of all classes, which are counted so too, where lists have at most
/// `max_len` elements. Of what is no type nothing is said. It takes time linear in the annotation, times the number of
/// unions that stand in each other, and calls itself as deep as types stand in each other.
#[cycle(widths)]
pub fn width(
    module: &Module,
    names: &[TypeName],
    t: TypeId,
    max_len: u8,
    classes: &[Option<usize>],
) -> Option<usize>
    requires names { names.now ≡ map (type_name (module_tree «module».now).body) «module».now.names }
    requires there { t.index < length «module».now.types }
    requires classes { length classes.now ≡ length (defined.classes (module_tree «module».now).body) }
    ensures { (v : ValueType) → type_in (type_name (module_tree «module».now).body) (shown_type «module».now t.index) ≡ Some v → (of_class : ℕ → Option ℕ) → AreCapped classes.now of_class → result ≡ option_map capped (width_in max_len of_class v) }
{
    match module.type_node(t) {
        TypeNode::Name {
            name,
            arguments,
            ..
        } => {
            let name = names[name.index];
            width_with(module, names, name, arguments, max_len, classes)
        }
        TypeNode::Union { first, rest, .. } => {
            if is_none(module, names, *first) {
                other_width(module, names, rest, max_len, classes)
            } else {
                width(module, names, *first, max_len, classes)
            }
        }
        TypeNode::None { .. } => Some(1),
        TypeNode::Text { .. } => None,
    }
}
