ghost use Rattle.std.specs.Prelude.{◌≡◌, length, IfOk};
ghost use Rattle.spec_programs.specs.Programs.{exchanged_type, param_of};
ghost use Rattle.py_tree.specs.Arena.{shown_type};
ghost use Rattle.py_tree.specs.Types.{IsTypeBelow, optional_type};
ghost use Rattle.py_types.specs.Given.{Grows};
ghost use Rattle.unquoted_parameters.specs.Parameters.{IsParameterThere, as_param, parameter_tree};

use py_tree::{Module, ParameterNode, TypeId};
use std::alloc::Global;
use unquoted_types::unquoted;
use xh_outside::NoMemory;

// An annotation, if there is one, in which each string is exchanged for the type that it holds. It stays where a string
// holds none.
#[tactic(auto, using(py_types::proofs::Growth::grows_same))]
fn exchanged_type(
    alloc: Global,
    module: &mut Module,
    annotation: Option<TypeId>,
) -> Result<Option<TypeId>, NoMemory>
    requires { IsTypeBelow (length «module».old.types) annotation }
    ensures grown { Grows «module».old «module».new }
    ensures there { IfOk result (λ o. IsTypeBelow (length «module».new.types) o) }
    ensures exchanged { IfOk result (λ o. optional_type (shown_type «module».new) o ≡ exchanged_type (optional_type (shown_type «module».old) annotation)) }
{
    // its contract tells what holds of every module
    let _ = module.types_count();
    match annotation {
        Some(t) => match unquoted(alloc, module, t)? {
            Some(without) => Ok(Some(without)),
            None => Ok(Some(t)),
        },
        None => Ok(None),
    }
}

/// A parameter, whose annotation is exchanged.
pub(crate) fn exchanged_parameter(
    alloc: Global,
    module: &mut Module,
    parameter: ParameterNode,
) -> Result<ParameterNode, NoMemory>
    requires { IsParameterThere «module».old parameter }
    ensures grown { Grows «module».old «module».new }
    ensures there { IfOk result (λ p. IsParameterThere «module».new p) }
    ensures exchanged { IfOk result (λ p. as_param (parameter_tree «module».new p) ≡ param_of (parameter_tree «module».old parameter)) }
{
    // its contract tells what holds of every module
    let _ = module.types_count();
    let annotation = exchanged_type(alloc, module, parameter.annotation)?;
    Ok(ParameterNode {
        annotation,
        ..parameter
    })
}
