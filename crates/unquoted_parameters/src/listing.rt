ghost use Rattle.std.specs.Prelude.{◌≡◌, map, IfOk};
ghost use Rattle.std.specs.List.{All};
ghost use Rattle.spec_programs.specs.Programs.{param_of};
ghost use Rattle.py_tree.specs.Stmts.{AreParametersThere, parameters_tree};
ghost use Rattle.py_types.specs.Given.{Grows};
ghost use Rattle.module_functions.specs.Listed.{AreThere, IsThere, function_in};
ghost use Rattle.unquoted_parameters.specs.Parameters.{as_param};

use crate::parameter::exchanged_parameter;
use module_functions::Function;
use py_tree::{Module, ParameterNode};
use std::alloc::Global;
use xh_outside::NoMemory;

// These parameters, whose annotations are exchanged.
#[tactic(auto, using(py_types::proofs::Growth::grows_same))]
fn exchanged_parameters(
    alloc: Global,
    module: &mut Module,
    parameters: &[ParameterNode],
) -> Result<Vec<ParameterNode>, NoMemory>
    requires { AreParametersThere «module».old parameters.now }
    ensures grown { Grows «module».old «module».new }
    ensures there { IfOk result (λ v. AreParametersThere «module».new v.items) }
    ensures exchanged { IfOk result (λ v. map as_param (parameters_tree «module».new v.items) ≡ map param_of (parameters_tree «module».old parameters.now)) }
{
    // its contract tells what holds of every module
    let _ = module.types_count();
    let mut made = Vec::new(alloc);
    for parameter in parameters {
        let next = exchanged_parameter(alloc, module, *parameter)?;
        made.push(next)?;
    }
    Ok(made)
}

// The parameters of one function.
#[tactic(auto, using(py_types::proofs::Growth::grows_same))]
fn parameters_of(
    alloc: Global,
    module: &mut Module,
    function: &Function,
) -> Result<Vec<ParameterNode>, NoMemory>
    requires { IsThere «module».old function.now }
    ensures grown { Grows «module».old «module».new }
    ensures there { IfOk result (λ v. AreParametersThere «module».new v.items) }
    ensures parameters { IfOk result (λ v. map as_param (parameters_tree «module».new v.items) ≡ map param_of (function_in «module».old function.now).parameters) }
{
    // its contract tells what holds of every module
    let _ = module.types_count();
    let written = Vec::from_slice(alloc, function.parameters(module))?;
    exchanged_parameters(alloc, module, &written)
}

/// The parameters of functions, one list for each, in which each string of an annotation is exchanged for the type that it
/// holds, where all strings of the annotation hold one. What the module has stays as it is, and names and types may be
/// added to it, after an error too. It takes time linear in the number of functions, of their parameters, of the types in
/// their annotations, and of the letters of strings, where a letter counts once for each string in which it stands.
///
/// # Errors
///
/// There is no memory for them, or a string is too long to be read, which none in a text below 2 GiB is.
#[tactic(auto, using(py_types::proofs::Growth::grows_same))]
pub fn parameters(
    alloc: Global,
    module: &mut Module,
    functions: &[Function],
) -> Result<Vec<Vec<ParameterNode>>, NoMemory>
    requires { AreThere «module».old functions.now }
    ensures grown { Grows «module».old «module».new }
    ensures there { IfOk result (λ v. All (λ ps. AreParametersThere «module».new ps.items) v.items) }
    ensures parameters { IfOk result (λ v. map (λ ps. map as_param (parameters_tree «module».new ps.items)) v.items ≡ map (λ f. map param_of f.parameters) (map (function_in «module».old) functions.now)) }
{
    // its contract tells what holds of every module
    let _ = module.types_count();
    let mut lists = Vec::new(alloc);
    for function in functions {
        let next = parameters_of(alloc, module, function)?;
        lists.push(next)?;
    }
    Ok(lists)
}
