ghost use Rattle.std.specs.Prelude.{◌≡◌, ◌++◌, map, IfOk};
ghost use Rattle.std.specs.List.{All, flat_map};
ghost use Rattle.spec_types.specs.Names.{type_name};
ghost use Rattle.spec_types.specs.Needs.{all_spoken, class_in, edges, named_by, spoken_in};
ghost use Rattle.py_tree.specs.Arena.{module_tree};
ghost use Rattle.given_types.specs.Giving.{AreGiven, IsGiven, all_given, given_in, signature_in};
ghost use Rattle.type_needs.specs.Marked.{HaveGiven};

use given_types::{GivenType, Signature};
use py_tree::Module;
use spec_types::TypeName;
use std::alloc::Global;
use value_types::add_spoken;
use xh_outside::NoMemory;

// Appends the classes that the type of a parameter speaks of.
fn add_spoken_in(
    module: &Module,
    names: &[TypeName],
    given: GivenType,
    into: &mut Vec<usize>,
) -> Result<(), NoMemory>
    requires names { names.now ≡ map (type_name (module_tree «module».now).body) «module».now.names }
    requires given { IsGiven «module».now given }
    ensures { IfOk result (λ _. into.new.items ≡ into.old.items ++ spoken_in (given_in «module».now given)) }
{
    match given {
        GivenType::Known(t) => add_spoken(module, names, t, into),
        GivenType::Missing | GivenType::Unknown { .. } => Ok(()),
    }
}

// Appends the classes that the types of some parameters speak of.
fn add_all_spoken(
    module: &Module,
    names: &[TypeName],
    types: &[GivenType],
    into: &mut Vec<usize>,
) -> Result<(), NoMemory>
    requires names { names.now ≡ map (type_name (module_tree «module».now).body) «module».now.names }
    requires types { All (IsGiven «module».now) types.now }
    ensures { IfOk result (λ _. into.new.items ≡ into.old.items ++ all_spoken (map (given_in «module».now) types.now)) }
{
    for given in types {
        add_spoken_in(module, names, *given, into)?;
    }
    Ok(())
}

// The classes that the types of some parameters speak of.
fn all_spoken(
    alloc: Global,
    module: &Module,
    names: &[TypeName],
    types: &[GivenType],
) -> Result<Vec<usize>, NoMemory>
    requires names { names.now ≡ map (type_name (module_tree «module».now).body) «module».now.names }
    requires types { All (IsGiven «module».now) types.now }
    ensures { IfOk result (λ spoken. spoken.items ≡ all_spoken (map (given_in «module».now) types.now)) }
{
    let mut spoken = Vec::new(alloc);
    add_all_spoken(module, names, types, &mut spoken)?;
    Ok(spoken)
}

/// The classes to which each class leads: those that the types of its constructor speak of.
pub(crate) fn edges(
    alloc: Global,
    module: &Module,
    names: &[TypeName],
    taken: &[Vec<GivenType>],
) -> Result<Vec<Vec<usize>>, NoMemory>
    requires names { names.now ≡ map (type_name (module_tree «module».now).body) «module».now.names }
    requires taken { AreGiven «module».now taken.now }
    ensures { IfOk result (λ lists. map (λ e. e.items) lists.items ≡ edges (all_given «module».now taken.now)) }
{
    let mut lists = Vec::new(alloc);
    for types in taken {
        let spoken = all_spoken(alloc, module, names, types)?;
        lists.push(spoken)?;
    }
    Ok(lists)
}

// Appends the class of a function, if it has one.
fn add_class(class: Option<usize>, into: &mut Vec<usize>) -> Result<(), NoMemory>
    ensures { IfOk result (λ _. into.new.items ≡ into.old.items ++ class_in class) }
{
    if let Some(number) = class {
        into.push(number)?;
    }
    Ok(())
}

// Appends the class of a function and those that the types of its parameters speak of, where it is checked.
fn add_named(
    module: &Module,
    names: &[TypeName],
    signature: &Signature,
    into: &mut Vec<usize>,
) -> Result<(), NoMemory>
    requires names { names.now ≡ map (type_name (module_tree «module».now).body) «module».now.names }
    requires types { All (IsGiven «module».now) signature.now.types.items }
    ensures { IfOk result (λ _. into.new.items ≡ into.old.items ++ named_by (signature_in «module».now signature.now)) }
{
    if !signature.is_checked {
        return Ok(());
    }
    add_class(signature.class, into)?;
    add_all_spoken(module, names, &signature.types, into)
}

/// The classes of checked functions, and those that the types of their parameters speak of.
pub(crate) fn seeds(
    alloc: Global,
    module: &Module,
    names: &[TypeName],
    signatures: &[Signature],
) -> Result<Vec<usize>, NoMemory>
    requires names { names.now ≡ map (type_name (module_tree «module».now).body) «module».now.names }
    requires signatures { HaveGiven «module».now signatures.now }
    ensures { IfOk result (λ found. found.items ≡ flat_map named_by (map (signature_in «module».now) signatures.now)) }
{
    let mut found = Vec::new(alloc);
    for signature in signatures {
        add_named(module, names, signature, &mut found)?;
    }
    Ok(found)
}
