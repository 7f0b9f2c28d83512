ghost use Rattle.std.specs.Prelude.{◌≡◌, map, IfOk};
ghost use Rattle.spec_profile.specs.Profile.{profile_refusal};
ghost use Rattle.py_tree.specs.Arena.{module_tree};
ghost use Rattle.py_types.specs.Given.{Grows};
ghost use Rattle.contract_lines.specs.Given.{AreLinesThere, line_in};
ghost use Rattle.py_profile.specs.Checking.{Answers};

use crate::ProfileError;
use crate::definitions::told_of_definitions;
use crate::uses::told_of_uses;
use contract_lines::Contracts;
use parameter_types::told_of_types;
use py_tree::Module;
use spec_names::Refusal;
use std::alloc::Global;
use xh_outside::NoMemory;

// The refusal that is told of a module.
#[tactic(auto, using(py_types::proofs::Growth::grows_same, crate::proofs::Refusing::tree_kept))]
fn profile_refusal(
    alloc: Global,
    module: &mut Module,
    contracts: &Contracts,
    max_len: u8,
    max_nest: u8,
) -> Result<Option<Refusal>, NoMemory>
    requires { AreLinesThere «module».old contracts.now }
    ensures grown { Grows «module».old «module».new }
    ensures tree { module_tree «module».new ≡ module_tree «module».old }
    ensures refusal { IfOk result (λ o. o ≡ profile_refusal (module_tree «module».old).body (map (line_in «module».old) contracts.now) max_len max_nest) }
{
    // its contract tells what holds of every module
    let _ = module.types_count();
    let told = told_of_definitions(alloc, module, None)?;
    let told = told_of_uses(alloc, module, contracts, told)?;
    let told = told_of_types(alloc, module, contracts, max_len, max_nest, told)?;
    Ok(told)
}

/// Checks a module whose contract lines are these for its definitions, for the uses of names and for the types of parameters,
/// where lists have at most `max_len` elements and a new object stands inside at most `max_nest` other constructor calls.
/// The types that strings hold are added to the module, whose statements stay.
///
/// It takes time linear in the number of statements, parameters, expressions, names and contract lines, and in what
/// [`parameter_types`] says of annotations.
///
/// # Errors
///
/// `Refused` with the smallest line, and at one line with the fault that stands first in [`spec_names::ProfileFault`].
/// `NoMemory` where there is no memory for the look-up of names.
pub fn check_profile(
    alloc: Global,
    module: &mut Module,
    contracts: &Contracts,
    max_len: u8,
    max_nest: u8,
) -> Result<(), ProfileError>
    requires { AreLinesThere «module».old contracts.now }
    ensures grown { Grows «module».old «module».new }
    ensures tree { module_tree «module».new ≡ module_tree «module».old }
    ensures refusal { Answers result (profile_refusal (module_tree «module».old).body (map (line_in «module».old) contracts.now) max_len max_nest) }
{
    match profile_refusal(alloc, module, contracts, max_len, max_nest)? {
        Some(Refusal { line, fault }) => Err(ProfileError::Refused { line, fault }),
        None => Ok(()),
    }
}
