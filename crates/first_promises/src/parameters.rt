ghost use Rattle.std.specs.Prelude.{◌≡◌, ◌<◌, length, map, IfOk, option_map, Some, None, if◌then◌else◌};
ghost use Rattle.spec_forms.specs.Forms.{are_integers, integer_parameter, is_int};
ghost use Rattle.py_tree.specs.State.{shown_type};
ghost use Rattle.py_tree.specs.Stmts.{AreParametersThere, parameters_tree};
ghost use Rattle.py_tree.specs.Types.{IsTypeBelow, optional_type};
ghost use Rattle.first_tree.specs.Functions.{int_parameter};

use crate::expressions::copy_name;
use py_tree::{Module, ParameterNode, TypeId, TypeNode};
use std::alloc::Global;
use xh_outside::{Bytes, NoMemory};

// Whether a type is there, and is `int`.
fn is_int(module: &Module, annotation: Option<TypeId>) -> bool
    requires { IsTypeBelow (length «module».now.types) annotation }
    ensures { result ≡ is_int (optional_type (shown_type «module».now) annotation) }
{
    let Some(annotation) = annotation else {
        return false;
    };
    match module.type_node(annotation) {
        TypeNode::Name {
            name,
            arguments,
            ..
        } => arguments.is_empty() && module.name_text(*name) == "int",
        _ => false,
    }
}

/// The names of parameters that are all annotated with `int`; None where one is not. It takes linear time.
pub fn integer_parameters(
    alloc: Global,
    module: &Module,
    parameters: &[ParameterNode],
) -> Result<Option<Vec<Bytes>>, NoMemory>
    requires { AreParametersThere «module».now parameters.now }
    ensures { IfOk result (λ o. option_map (λ names. map int_parameter names.items) o ≡ (if are_integers (parameters_tree «module».now parameters.now) then Some (map integer_parameter (parameters_tree «module».now parameters.now)) else None)) }
{
    let mut names = Vec::new(alloc);
    for parameter in parameters {
        if !is_int(module, parameter.annotation) {
            return Ok(None);
        }
        names.push(copy_name(alloc, module.name_text(parameter.name))?)?;
    }
    Ok(Some(names))
}
