ghost use Rattle.std.specs.Prelude.{◌≡◌, length, map, IfOk};
ghost use Rattle.std.specs.List.{All};
ghost use Rattle.std.specs.Option.{option_and_then, option_map};
ghost use Rattle.spec_types.specs.Names.{type_name};
ghost use Rattle.spec_types.specs.Signatures.{given_as};
ghost use Rattle.spec_types.specs.Types.{type_in};
ghost use Rattle.py_tree.specs.Arena.{module_tree, shown_type};
ghost use Rattle.py_tree.specs.Types.{IsTypeBelow};
ghost use Rattle.given_types.specs.Giving.{AreGiven, IsGiven, all_given, given_in};
ghost use Rattle.read_annotations.specs.Reading.{AreListsThere, AreThere, IsThere, shown_all, shown_in, shown_lists};
ghost use Rattle.signatures.specs.Written.{given_from};

use given_types::GivenType;
use py_tree::{Module, TypeId};
use read_annotations::Annotation;
use spec_types::TypeName;
use std::alloc::Global;
use value_types::kind;
use xh_outside::NoMemory;

// What an annotation on a line gives a parameter, which has these types for its strings, where they hold types.
fn given_as(module: &Module, names: &[TypeName], line: u32, unquoted: Option<TypeId>) -> GivenType
    requires names { names.now ≡ map (type_name (module_tree «module».now).body) «module».now.names }
    requires there { IsTypeBelow (length «module».now.types) unquoted }
    ensures given { given_in «module».now result ≡ given_as line (option_and_then (type_in (type_name (module_tree «module».now).body)) (option_map (λ t. shown_type «module».now t.index) unquoted)) }
    ensures there { IsGiven «module».now result }
{
    match unquoted {
        Some(t) if kind(module, names, t).is_some() => GivenType::Known(t),
        _ => GivenType::Unknown { line },
    }
}

// What its annotation gives a parameter.
fn given(module: &Module, names: &[TypeName], annotation: Option<Annotation>) -> GivenType
    requires names { names.now ≡ map (type_name (module_tree «module».now).body) «module».now.names }
    requires there { IsThere «module».now annotation }
    ensures given { given_in «module».now result ≡ given_from (module_tree «module».now).body (shown_in «module».now annotation) }
    ensures there { IsGiven «module».now result }
{
    match annotation {
        Some(annotation) => given_as(module, names, annotation.line, annotation.unquoted),
        None => GivenType::Missing,
    }
}

/// What their annotations give the parameters of one function.
pub(crate) fn given_types(
    alloc: Global,
    module: &Module,
    names: &[TypeName],
    annotations: &[Option<Annotation>],
) -> Result<Vec<GivenType>, NoMemory>
    requires names { names.now ≡ map (type_name (module_tree «module».now).body) «module».now.names }
    requires there { AreThere «module».now annotations.now }
    ensures given { IfOk result (λ v. map (given_in «module».now) v.items ≡ map (given_from (module_tree «module».now).body) (shown_all «module».now annotations.now)) }
    ensures there { IfOk result (λ v. All (IsGiven «module».now) v.items) }
{
    let mut types = Vec::new(alloc);
    for annotation in annotations {
        types.push(given(module, names, *annotation))?;
    }
    Ok(types)
}

/// What annotations give the parameters of functions, one list for each. It takes time linear in the annotations.
///
/// # Errors
///
/// There is no memory for them.
pub fn taken(
    alloc: Global,
    module: &Module,
    names: &[TypeName],
    annotations: &[Vec<Option<Annotation>>],
) -> Result<Vec<Vec<GivenType>>, NoMemory>
    requires names { names.now ≡ map (type_name (module_tree «module».now).body) «module».now.names }
    requires there { AreListsThere «module».now annotations.now }
    ensures given { IfOk result (λ v. all_given «module».now v.items ≡ map (map (given_from (module_tree «module».now).body)) (shown_lists «module».now annotations.now)) }
    ensures there { IfOk result (λ v. AreGiven «module».now v.items) }
{
    let mut lists = Vec::new(alloc);
    for list in annotations {
        lists.push(given_types(alloc, module, names, list)?)?;
    }
    Ok(lists)
}
