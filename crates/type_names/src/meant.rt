ghost use Rattle.std.specs.Prelude.{◌≡◌};
ghost use Rattle.spec_types.specs.Names.{class_name, imported_type, meant_type};
ghost use Rattle.type_names.specs.Meant.{type_meant};

use spec_types::TypeName;
use spec_uses::Meaning;

// A name of `typing` as a type.
fn imported_type(name: &str) -> TypeName
    ensures { result ≡ imported_type name.now }
{
    match name {
        "List" => TypeName::List,
        "Dict" => TypeName::Dict,
        "Optional" => TypeName::Optional,
        _ => TypeName::Unknown,
    }
}

// The class of this number.
fn class_name(number: Option<usize>) -> TypeName
    ensures { result ≡ class_name number }
{
    match number {
        Some(number) => TypeName::Class(number),
        None => TypeName::Unknown,
    }
}

// A name that is no built-in type, by what it stands for in the module.
fn meant_type(name: &str, meaning: Meaning, number: Option<usize>) -> TypeName
    ensures { result ≡ meant_type (λ _. number) meaning name.now }
{
    match meaning {
        Meaning::Imported => imported_type(name),
        Meaning::Class => class_name(number),
        _ => TypeName::Unknown,
    }
}

/// What a name stands for in annotations, by what it stands for in the module and by the number of the first class that has
/// it.
pub(crate) fn type_meant(name: &str, meaning: Meaning, number: Option<usize>) -> TypeName
    ensures { result ≡ type_meant meaning number name.now }
{
    match name {
        "int" => TypeName::Int,
        "bool" => TypeName::Bool,
        "str" => TypeName::Str,
        "list" => TypeName::List,
        "dict" => TypeName::Dict,
        _ => meant_type(name, meaning, number),
    }
}
