ghost use Rattle.std.specs.Prelude.{◌≡◌, [], ◌∷◌, Some, codes, length, map, IfOk, IsTrue};
ghost use Rattle.std.specs.List.{All};
ghost use Rattle.spec_types.specs.Classes as defined;
ghost use Rattle.spec_types.specs.Names.{type_name};
ghost use Rattle.spec_types.specs.declared.TypeName.TheVariants as type_names;
ghost use Rattle.py_tree.specs.Arena.{module_tree};
ghost use Rattle.given_types.specs.Giving.{IsGiven};

use crate::told_of_widths;
use given_types::{GivenType, Signature};
use py_tree::{Module, NameId, StmtNode, TypeId, TypeNode};
use spec_names::{ProfileFault, Refusal};
use spec_types::TypeName;
use std::alloc::Global;
use std::test::Fail;
use value_types::kind;
use xh_outside::NoMemory;

/// What the names stand for.
const NAMES: [TypeName; 2] = [TypeName::Class(0), TypeName::Str];

/// An object of the class.
const OBJECT: GivenType = GivenType::Known(TypeId { index: 0 });

/// A text, of which there are 256 at most 255 letters long, roughly counted.
const TEXT: GivenType = GivenType::Known(TypeId { index: 1 });

/// Adds a name without brackets, where it is there.
fn add_type(alloc: Global, module: &mut Module, name: usize) -> Result<(), NoMemory>
    ensures names { IfOk result (λ _. «module».new.names ≡ «module».old.names) }
    ensures tops { IfOk result (λ _. «module».new.tops ≡ «module».old.tops) }
{
    if name >= module.names_count() {
        return Err(NoMemory);
    }
    module.add_type(TypeNode::Name {
        line: 1,
        name: NameId { index: name },
        arguments: Vec::new(alloc),
    })?;
    Ok(())
}

/// Adds the names.
fn add_names(module: &mut Module) -> Result<(), NoMemory>
    requires { «module».old.names ≡ [] }
    ensures names { IfOk result (λ _. «module».new.names ≡ codes "A" ∷ codes "str" ∷ []) }
    ensures tops { IfOk result (λ _. «module».new.tops ≡ «module».old.tops) }
{
    module.add_name("A")?;
    module.add_name("str")?;
    Ok(())
}

/// Defines the class A.
fn define(alloc: Global, module: &mut Module) -> Result<(), NoMemory>
    requires names { «module».old.names ≡ codes "A" ∷ codes "str" ∷ [] }
    requires tops { «module».old.tops ≡ [] }
    ensures names { IfOk result (λ _. type_names.Class 0 ∷ type_names.Str ∷ [] ≡ map (type_name (module_tree «module».new).body) «module».new.names) }
    ensures classes { IfOk result (λ _. length (defined.classes (module_tree «module».new).body) ≡ 1) }
{
    let class = module.add_stmt(StmtNode::Class {
        line: 1,
        last: 1,
        name: NameId { index: 0 },
        body: Vec::new(alloc),
    })?;
    module.push_top(class)?;
    Ok(())
}

/// A module that defines the class A, and has the types `A` and `str`.
fn defined(alloc: Global) -> Result<Module, NoMemory>
    ensures names { IfOk result (λ m. type_names.Class 0 ∷ type_names.Str ∷ [] ≡ map (type_name (module_tree m).body) m.names) }
    ensures classes { IfOk result (λ m. length (defined.classes (module_tree m).body) ≡ 1) }
{
    let mut module = Module::new(alloc);
    add_names(&mut module)?;
    add_type(alloc, &mut module, 0)?;
    add_type(alloc, &mut module, 1)?;
    define(alloc, &mut module)?;
    Ok(module)
}

/// Whether what is known is a type of the module.
fn is_given(module: &Module, given: GivenType) -> bool
    requires { type_names.Class 0 ∷ type_names.Str ∷ [] ≡ map (type_name (module_tree «module».now).body) «module».now.names }
    ensures { IsTrue result → IsGiven «module».now given }
{
    match given {
        GivenType::Missing | GivenType::Unknown { .. } => true,
        GivenType::Known(t) => {
            if t.index >= module.types_count() {
                return false;
            }
            kind(module, &NAMES, t).is_some()
        }
    }
}

fn are_given(module: &Module, types: &[GivenType]) -> bool
    requires { type_names.Class 0 ∷ type_names.Str ∷ [] ≡ map (type_name (module_tree «module».now).body) «module».now.names }
    ensures { IsTrue result → All (IsGiven «module».now) types.now }
{
    match types {
        [] => true,
        [first, rest @ ..] => {
            if !is_given(module, *first) {
                return false;
            }
            are_given(module, rest)
        }
    }
}

/// A function of the class A, with these parameters.
fn method(is_checked: bool, takes_self: bool, types: Vec<GivenType>) -> Signature
    ensures { result.class ≡ Some 0 }
{
    Signature {
        line: 7,
        is_checked,
        class: Some(0),
        is_constructor: false,
        takes_self,
        types,
    }
}

/// What is told of a function, where the constructor of A takes a text and an object of A.
fn told(
    alloc: Global,
    module: &Module,
    signature: Signature,
    max_nest: u8,
) -> Result<Option<Refusal>, NoMemory>
    requires names { type_names.Class 0 ∷ type_names.Str ∷ [] ≡ map (type_name (module_tree «module».now).body) «module».now.names }
    requires class { signature.class ≡ Some 0 }
    requires classes { length (defined.classes (module_tree «module».now).body) ≡ 1 }
{
    let constructor = vec![in alloc; TEXT, OBJECT]?;
    if !are_given(module, &constructor) {
        return Err(NoMemory);
    }
    if !are_given(module, &signature.types) {
        return Err(NoMemory);
    }
    let taken = vec![in alloc; constructor]?;
    let signatures = vec![in alloc; signature]?;
    told_of_widths(
        alloc,
        module,
        &NAMES,
        &signatures,
        &taken,
        255,
        max_nest,
        None,
    )
}

/// The refusal of a function that is too wide.
fn too_wide() -> Option<Refusal> {
    Some(Refusal {
        line: 7,
        fault: ProfileFault::TooWide,
    })
}

#[test]
fn functions_are_4096_wide_at_most(rt: HostRuntime) -> Result<(), Fail> {
    let alloc = rt.alloc();
    let module = defined(alloc)?;
    for (takes_self, count, want) in [
        (false, 16, None),
        (false, 17, too_wide()),
        (true, 14, None),
        (true, 15, too_wide()),
    ] {
        let method = method(true, takes_self, vec![in alloc; TEXT; count]?);
        assert!(rt;
            told(alloc, &module, method, 0)? == want,
            "of {count} texts"
        );
    }
    Ok(())
}

#[test]
fn objects_are_wider_where_more_stand_in_each_other(rt: HostRuntime) -> Result<(), Fail> {
    let alloc = rt.alloc();
    let module = defined(alloc)?;
    for (max_nest, want) in [(0, None), (1, too_wide())] {
        let method = method(true, false, vec![in alloc; OBJECT; 8]?);
        assert!(rt;
            told(alloc, &module, method, max_nest)? == want,
            "inside {max_nest}"
        );
    }
    Ok(())
}

#[test]
fn only_checked_functions_with_all_types_are_refused(rt: HostRuntime) -> Result<(), Fail> {
    let alloc = rt.alloc();
    let module = defined(alloc)?;
    for (is_checked, last, want) in [
        (true, TEXT, too_wide()),
        (false, TEXT, None),
        (true, GivenType::Missing, None),
    ] {
        let mut types = vec![in alloc; TEXT; 16]?;
        types.push(last)?;
        let method = method(is_checked, false, types);
        assert!(rt; told(alloc, &module, method, 0)? == want);
    }
    Ok(())
}
