ghost use Rattle.std.specs.Prelude.{◌≡◌, ◌++◌, List, length, map, IfOk};
ghost use Rattle.spec_contracts.specs.ContractLines as lines;
ghost use Rattle.spec_types.specs.Classes as defined;
ghost use Rattle.spec_types.specs.Names.{type_name};
ghost use Rattle.spec_types.specs.Signatures as types;
ghost use Rattle.spec_types.specs.Needs.{need_refusals};
ghost use Rattle.spec_types.specs.Widths.{width_refusals};
ghost use Rattle.py_tree.specs.Arena.{module_tree};
ghost use Rattle.py_types.specs.Given.{Grows};
ghost use Rattle.contract_lines.specs.Given.{AreLinesThere, line_in};
ghost use Rattle.given_types.specs.Giving.{AreGiven, AreSignatures, all_given, signature_in};
ghost use Rattle.read_annotations.specs.Reading.{AreListsThere, shown_lists};
ghost use Rattle.told_refusals.specs.Telling.{Tells};
ghost use Rattle.parameter_types.specs.Annotated.{IsAnnotated, of_functions};

use crate::annotated::{Annotated, read_all};
use checked_functions::checked;
use contract_lines::Contracts;
use given_types::{GivenType, Signature};
use module_classes::classes;
use module_functions::functions;
use name_meanings::Meanings;
use py_tree::Module;
use read_annotations::Annotation;
use signatures::{signatures, taken};
use spec_names::Refusal;
use spec_types::TypeName;
use std::alloc::Global;
use type_names::type_names;
use type_needs::told_of_needs;
use type_widths::told_of_widths;
use xh_outside::NoMemory;

// The functions of a module, which has so many classes, with what their annotations give their parameters.
fn listed(
    alloc: Global,
    module: &Module,
    names: &[TypeName],
    contracts: &Contracts,
    classes: usize,
    annotated: &[Vec<Option<Annotation>>],
) -> Result<Vec<Signature>, NoMemory>
    requires names { names.now ≡ map (type_name (module_tree «module».now).body) «module».now.names }
    requires classes { classes ≡ length (defined.classes (module_tree «module».now).body) }
    requires annotated { shown_lists «module».now annotated.now ≡ of_functions (module_tree «module».now).body }
    requires there { AreListsThere «module».now annotated.now }
    ensures signatures { IfOk result (λ v. map (signature_in «module».now) v.items ≡ types.signatures (module_tree «module».now).body (map (line_in «module».now) contracts.now)) }
    ensures there { IfOk result (λ v. AreSignatures «module».now classes v.items) }
{
    let functions = functions(alloc, module)?;
    let checked = checked(alloc, contracts, &functions, classes)?;
    let signatures = signatures(alloc, module, names, &functions, &checked, annotated)?;
    Ok(signatures)
}

// What is told behind functions, where the constructors of classes take these.
fn told_of_signatures(
    alloc: Global,
    module: &Module,
    names: &[TypeName],
    signatures: &[Signature],
    taken: &[Vec<GivenType>],
    max_len: u8,
    max_nest: u8,
    told: Option<Refusal>,
) -> Result<Option<Refusal>, NoMemory>
    requires names { names.now ≡ map (type_name (module_tree «module».now).body) «module».now.names }
    requires signatures { AreSignatures «module».now (length taken.now) signatures.now }
    requires given { AreGiven «module».now taken.now }
    requires taken { all_given «module».now taken.now ≡ types.taken (module_tree «module».now).body }
    ensures { (ls : List lines.ContractLine) → map (signature_in «module».now) signatures.now ≡ types.signatures (module_tree «module».now).body ls → IfOk result (λ new. Tells told new (need_refusals (module_tree «module».now).body ls ++ width_refusals (module_tree «module».now).body ls max_len max_nest)) }
{
    let told = told_of_needs(alloc, module, names, signatures, taken, told)?;
    let told = told_of_widths(
        alloc, module, names, signatures, taken, max_len, max_nest, told,
    )?;
    Ok(told)
}

// What is told behind the types of parameters, whose annotations are read.
#[tactic(auto, using(crate::proofs::Joined::as_many_classes, crate::proofs::Joined::as_many_taken, crate::proofs::Joined::taken_is))]
fn told_of_annotated(
    alloc: Global,
    module: &Module,
    contracts: &Contracts,
    annotated: &Annotated,
    max_len: u8,
    max_nest: u8,
    told: Option<Refusal>,
) -> Result<Option<Refusal>, NoMemory>
    requires { IsAnnotated «module».now (module_tree «module».now).body annotated.now }
    ensures { IfOk result (λ new. Tells told new (need_refusals (module_tree «module».now).body (map (line_in «module».now) contracts.now) ++ width_refusals (module_tree «module».now).body (map (line_in «module».now) contracts.now) max_len max_nest)) }
{
    let classes = classes(alloc, module)?;
    let meanings = Meanings::new(alloc, module)?;
    let names = type_names(alloc, module, &meanings, &classes)?;
    let of_functions = &annotated.functions;
    let signatures = listed(
        alloc,
        module,
        &names,
        contracts,
        classes.len(),
        of_functions,
    )?;
    let taken = taken(alloc, module, &names, &annotated.constructors)?;
    told_of_signatures(
        alloc,
        module,
        &names,
        &signatures,
        &taken,
        max_len,
        max_nest,
        told,
    )
}

/// What is told behind the parameters of a module that need a type and have none, and behind its checked functions that are
/// too wide, where lists have at most `max_len` elements and a new object stands inside at most `max_nest` other constructor
/// calls. The types that strings hold are added to the module, whose statements stay.
///
/// It takes time linear in the number of statements, parameters, names and contract lines, and in what the crates below say
/// of annotations and types.
///
/// # Errors
///
/// There is no memory for it.
pub fn told_of_types(
    alloc: Global,
    module: &mut Module,
    contracts: &Contracts,
    max_len: u8,
    max_nest: u8,
    told: Option<Refusal>,
) -> Result<Option<Refusal>, NoMemory>
    requires { AreLinesThere «module».old contracts.now }
    ensures grown { Grows «module».old «module».new }
    ensures told { IfOk result (λ new. Tells told new (need_refusals (module_tree «module».old).body (map (line_in «module».old) contracts.now) ++ width_refusals (module_tree «module».old).body (map (line_in «module».old) contracts.now) max_len max_nest)) }
{
    // its contract tells what holds of every module
    let _ = module.types_count();
    let annotated = read_all(alloc, module)?;
    told_of_annotated(
        alloc, module, contracts, &annotated, max_len, max_nest, told,
    )
}
