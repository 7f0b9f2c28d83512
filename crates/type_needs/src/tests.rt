ghost use Rattle.std.specs.Prelude.{◌≡◌, ◌<◌, [], ◌∷◌, codes, length, map, IfOk};
ghost use Rattle.spec_types.specs.Names.{type_name};
ghost use Rattle.spec_types.specs.declared.TypeName.TheVariants as type_names;
ghost use Rattle.py_tree.specs.Arena.{State, module_tree};
ghost use Rattle.given_types.specs.Giving.{AreGiven, AreSignatures, IsGiven, IsSignature};

use crate::told_of_needs;
use given_types::{GivenType, Signature};
use py_tree::{Module, NameId, StmtNode, TypeId, TypeNode};
use spec_names::{ProfileFault, Refusal};
use spec_types::TypeName;
use std::alloc::Global;
use std::test::Fail;
use value_types::kind;
use xh_outside::NoMemory;

/// What the names stand for.
const NAMES: [TypeName; 1] = [TypeName::Class(0)];

/// Defines the class A.
fn define(alloc: Global, module: &mut Module) -> Result<(), NoMemory>
    requires names { «module».old.names ≡ codes "A" ∷ [] }
    requires tops { «module».old.tops ≡ [] }
    ensures { IfOk result (λ _. type_names.Class 0 ∷ [] ≡ map (type_name (module_tree «module».new).body) «module».new.names) }
{
    let class = module.add_stmt(StmtNode::Class {
        line: 1,
        last: 4,
        name: NameId { index: 0 },
        body: Vec::new(alloc),
    })?;
    module.push_top(class)?;
    Ok(())
}

/// A module that defines the class A, whose sole type is `A`.
fn sample(alloc: Global) -> Result<Module, NoMemory>
    ensures { IfOk result (λ m. type_names.Class 0 ∷ [] ≡ map (type_name (module_tree m).body) m.names) }
{
    let mut module = Module::new(alloc);
    let name = module.add_name("A")?;
    module.add_type(TypeNode::Name {
        line: 3,
        name,
        arguments: Vec::new(alloc),
    })?;
    define(alloc, &mut module)?;
    Ok(module)
}

/// The type `A` of the module.
fn known(module: &Module) -> Result<GivenType, NoMemory>
    requires { type_names.Class 0 ∷ [] ≡ map (type_name (module_tree «module».now).body) «module».now.names }
    ensures { IfOk result (λ given. IsGiven «module».now given) }
{
    if module.types_count() == 0 {
        return Err(NoMemory);
    }
    let t = TypeId { index: 0 };
    match kind(module, &NAMES, t) {
        Some(_) => Ok(GivenType::Known(t)),
        None => Err(NoMemory),
    }
}

/// The constructor of one of two classes, which takes one parameter.
fn constructor(
    alloc: Global,
    line: u32,
    class: usize,
    given: GivenType,
) -> Result<Signature, NoMemory>
    requires { class < 2 }
    ensures { (m : State) → IsGiven m given → IfOk result (λ s. IsSignature m 2 s) }
{
    Ok(Signature {
        line,
        is_checked: false,
        class: Some(class),
        is_constructor: true,
        takes_self: false,
        types: vec![in alloc; given]?,
    })
}

/// A method of the class 1, which takes one parameter.
fn method(
    alloc: Global,
    line: u32,
    is_checked: bool,
    given: GivenType,
) -> Result<Signature, NoMemory>
    ensures { (m : State) → IsGiven m given → IfOk result (λ s. IsSignature m 2 s) }
{
    Ok(Signature {
        line,
        is_checked,
        class: Some(1),
        is_constructor: false,
        takes_self: true,
        types: vec![in alloc; given]?,
    })
}

/// A method of the class 1, and the constructors of both classes, which take what these say.
fn signatures(
    alloc: Global,
    is_checked: bool,
    by_method: GivenType,
    by_first: GivenType,
    by_second: GivenType,
) -> Result<Vec<Signature>, NoMemory>
    ensures { (m : State) → IsGiven m by_method → IsGiven m by_first → IsGiven m by_second → IfOk result (λ v. AreSignatures m 2 v.items) }
{
    let called = method(alloc, 9, is_checked, by_method)?;
    let first = constructor(alloc, 3, 0, by_first)?;
    let second = constructor(alloc, 6, 1, by_second)?;
    let all = vec![in alloc; first, second, called]?;
    Ok(all)
}

/// What the constructors of two classes take.
fn taken(
    alloc: Global,
    by_first: GivenType,
    by_second: GivenType,
) -> Result<Vec<Vec<GivenType>>, NoMemory>
    ensures size { IfOk result (λ v. length v.items ≡ 2) }
    ensures given { (m : State) → IsGiven m by_first → IsGiven m by_second → IfOk result (λ v. AreGiven m v.items) }
{
    let first = vec![in alloc; by_first]?;
    let second = vec![in alloc; by_second]?;
    let both = vec![in alloc; first, second]?;
    Ok(both)
}

/// What is told where the method and the constructors take what these say.
fn told(
    alloc: Global,
    module: &Module,
    is_checked: bool,
    by_method: GivenType,
    by_first: GivenType,
    by_second: GivenType,
) -> Result<Option<Refusal>, NoMemory>
    requires names { type_names.Class 0 ∷ [] ≡ map (type_name (module_tree «module».now).body) «module».now.names }
    requires given { IsGiven «module».now by_method }
    requires first { IsGiven «module».now by_first }
    requires second { IsGiven «module».now by_second }
{
    let signatures = signatures(alloc, is_checked, by_method, by_first, by_second)?;
    let taken = taken(alloc, by_first, by_second)?;
    told_of_needs(alloc, module, &NAMES, &signatures, &taken, None)
}

fn refusal(line: u32, fault: ProfileFault) -> Option<Refusal> {
    Some(Refusal { line, fault })
}

#[test]
fn checked_methods_need_types(rt: HostRuntime) -> Result<(), Fail> {
    let module = sample(rt.alloc())?;
    let known = known(&module)?;
    let missing = GivenType::Missing;
    let found = told(rt.alloc(), &module, true, missing, known, known)?;
    assert!(rt; found == refusal(9, ProfileFault::MissingType));
    let found = told(rt.alloc(), &module, false, missing, missing, missing)?;
    assert!(rt; found == None);
    Ok(())
}

// The method leads to its class, and the constructor of that to A.
#[test]
fn constructors_of_reached_classes_need_types(rt: HostRuntime) -> Result<(), Fail> {
    let module = sample(rt.alloc())?;
    let known = known(&module)?;
    let unknown = GivenType::Unknown { line: 7 };
    let found = told(rt.alloc(), &module, true, known, known, unknown)?;
    assert!(rt; found == refusal(7, ProfileFault::UnknownType));
    let found = told(rt.alloc(), &module, true, known, GivenType::Missing, known)?;
    assert!(rt; found == refusal(3, ProfileFault::MissingType));
    Ok(())
}
