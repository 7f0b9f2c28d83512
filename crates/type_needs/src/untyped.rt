ghost use Rattle.std.specs.Prelude.{◌≡◌, false, length, map, IfOk};
ghost use Rattle.std.specs.List.{All, flat_map};
ghost use Rattle.spec_types.specs.Names.{type_name};
ghost use Rattle.spec_types.specs.Needs.{is_class_reached, needs_types, signature_refusals, type_refusals};
ghost use Rattle.py_tree.specs.Arena.{State, module_tree};
ghost use Rattle.told_refusals.specs.Telling.{Tells};
ghost use Rattle.given_types.specs.Giving.{AreGiven, AreSignatures, IsClassBelow, IsGiven, all_given, given_in, signature_in};
ghost use Rattle.type_needs.specs.Marked.{HaveGiven, HaveMarks, is_marked, marked};

use crate::class_graph::{edges, seeds};
use given_types::{GivenType, Signature};
use py_tree::Module;
use reached_nodes::reached;
use spec_names::{ProfileFault, Refusal};
use spec_types::TypeName;
use std::alloc::Global;
use told_refusals::told_if;
use xh_outside::NoMemory;

// What is told behind a parameter that needs a type, of a function on this line.
fn told_of_type(line: u32, given: GivenType, told: Option<Refusal>) -> Option<Refusal>
    ensures { (m : State) → IsGiven m given → Tells told result (type_refusals line (given_in m given)) }
{
    match given {
        GivenType::Missing => told_if(told, true, line, ProfileFault::MissingType),
        GivenType::Unknown { line: annotated } => {
            told_if(told, true, annotated, ProfileFault::UnknownType)
        }
        GivenType::Known(_) => told,
    }
}

// What is told behind the parameters of a function on this line, which need types.
fn told_of_types(line: u32, types: &[GivenType], told: Option<Refusal>) -> Option<Refusal>
    ensures { (m : State) → All (IsGiven m) types.now → Tells told result (flat_map (type_refusals line) (map (given_in m) types.now)) }
{
    let mut told = told;
    for given in types {
        told = told_of_type(line, *given, told);
    }
    told
}

// Whether a function has a class, and that is marked.
fn is_marked(marks: &[bool], class: Option<usize>) -> bool
    requires { IsClassBelow (length marks.now) class }
    ensures { result ≡ is_marked marks.now class }
{
    match class {
        Some(number) => marks[number],
        None => false,
    }
}

// Whether the parameters of a function need types, where the classes that are reached have marks.
fn needs_types(marks: &[bool], signature: &Signature) -> bool
    requires { IsClassBelow (length marks.now) signature.now.class }
    ensures { (m : State) → result ≡ needs_types (marked marks.now) (signature_in m signature.now) }
{
    signature.is_checked || signature.is_constructor && is_marked(marks, signature.class)
}

// What is told behind a function, where the classes that are reached have marks.
fn told_of_signature(
    marks: &[bool],
    signature: &Signature,
    told: Option<Refusal>,
) -> Option<Refusal>
    requires { IsClassBelow (length marks.now) signature.now.class }
    ensures { (m : State) → All (IsGiven m) signature.now.types.items → Tells told result (signature_refusals (marked marks.now) (signature_in m signature.now)) }
{
    if needs_types(marks, signature) {
        told_of_types(signature.line, &signature.types, told)
    } else {
        told
    }
}

// What is told behind functions, where the classes that are reached have marks.
fn told_of_signatures(
    marks: &[bool],
    signatures: &[Signature],
    told: Option<Refusal>,
) -> Option<Refusal>
    requires { HaveMarks marks.now signatures.now }
    ensures { (m : State) → HaveGiven m signatures.now → Tells told result (flat_map (signature_refusals (marked marks.now)) (map (signature_in m) signatures.now)) }
{
    let mut told = told;
    for signature in signatures {
        told = told_of_signature(marks, signature, told);
    }
    told
}

/// What is told behind the parameters that need a type and have none: those of checked functions, and of constructors of
/// classes that are reached from the types of such parameters or from a checked method's class. It takes time linear in the
/// number of functions, of classes and of the parts of their types.
///
/// # Errors
///
/// There is no memory for the classes that are reached.
pub fn told_of_needs(
    alloc: Global,
    module: &Module,
    names: &[TypeName],
    signatures: &[Signature],
    taken: &[Vec<GivenType>],
    told: Option<Refusal>,
) -> Result<Option<Refusal>, NoMemory>
    requires names { names.now ≡ map (type_name (module_tree «module».now).body) «module».now.names }
    requires signatures { AreSignatures «module».now (length taken.now) signatures.now }
    requires taken { AreGiven «module».now taken.now }
    ensures { IfOk result (λ new. Tells told new (flat_map (signature_refusals (is_class_reached (all_given «module».now taken.now) (map (signature_in «module».now) signatures.now))) (map (signature_in «module».now) signatures.now))) }
{
    let edges = edges(alloc, module, names, taken)?;
    let seeds = seeds(alloc, module, names, signatures)?;
    let marks = reached(alloc, &edges, &seeds)?;
    Ok(told_of_signatures(&marks, signatures, told))
}
