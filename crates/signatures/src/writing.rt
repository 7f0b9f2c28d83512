ghost use Rattle.std.specs.Prelude.{◌≡◌, map, IfOk};
ghost use Rattle.spec_types.specs.Classes.{ClassOf, constructor_of};
ghost use Rattle.spec_types.specs.Signatures.{typed};
ghost use Rattle.spec_uses.specs.Functions.{FunctionOf};
ghost use Rattle.py_tree.specs.Stmts.{AreParametersThere, parameters_tree};
ghost use Rattle.py_tree.specs.declared.stmts.ParameterNode as nodes;
ghost use Rattle.module_classes.specs.Sorted as sorted;
ghost use Rattle.module_functions.specs.Listed.{AreThere, IsThere, function_in};
ghost use Rattle.read_annotations.specs.Reading.{AreAllWritten, all_written};
ghost use Rattle.signatures.specs.Written.{annotations};

use module_classes::{Class, behind_self};
use module_functions::Function;
use py_tree::{Module, ParameterNode, TypeId};
use std::alloc::Global;
use xh_outside::NoMemory;

// The annotations of parameters.
fn annotations(alloc: Global, parameters: &[ParameterNode]) -> Result<Vec<Option<TypeId>>, NoMemory>
    ensures { IfOk result (λ v. v.items ≡ map (λ (p : nodes.ParameterNode). p.annotation) parameters.now) }
{
    let mut annotations = Vec::new(alloc);
    for parameter in parameters {
        annotations.push(parameter.annotation)?;
    }
    Ok(annotations)
}

/// The parameters of a function, but for the `self` of a class.
pub(crate) fn typed<'a>(module: &'a Module, function: &Function) -> &'a [ParameterNode]
    requires { IsThere «module».now function.now }
    ensures parameters { parameters_tree «module».now result.now ≡ typed (function_in «module».now function.now) }
    ensures there { AreParametersThere «module».now result.now }
{
    let parameters = function.parameters(module);
    match function.class {
        Some(_) => behind_self(module, parameters),
        None => parameters,
    }
}

/// The annotations of the parameters of functions, one list for each.
///
/// # Errors
///
/// There is no memory for them.
pub fn written(
    alloc: Global,
    module: &Module,
    functions: &[Function],
) -> Result<Vec<Vec<Option<TypeId>>>, NoMemory>
    requires { AreThere «module».now functions.now }
    ensures written { IfOk result (λ v. all_written «module».now v.items ≡ map (λ (f : FunctionOf). annotations (typed f)) (map (function_in «module».now) functions.now)) }
    ensures there { IfOk result (λ v. AreAllWritten «module».now v.items) }
{
    let mut lists = Vec::new(alloc);
    for function in functions {
        lists.push(annotations(alloc, typed(module, function))?)?;
    }
    Ok(lists)
}

/// The annotations of what the constructors of classes take, one list for each class.
///
/// # Errors
///
/// There is no memory for them.
pub fn written_by_constructors(
    alloc: Global,
    module: &Module,
    classes: &[Class],
) -> Result<Vec<Vec<Option<TypeId>>>, NoMemory>
    requires { sorted.AreThere «module».now classes.now }
    ensures written { IfOk result (λ v. all_written «module».now v.items ≡ map (λ (c : ClassOf). annotations (constructor_of c.body)) (map (sorted.class_in «module».now) classes.now)) }
    ensures there { IfOk result (λ v. AreAllWritten «module».now v.items) }
{
    let mut lists = Vec::new(alloc);
    for class in classes {
        lists.push(annotations(alloc, class.constructor(module))?)?;
    }
    Ok(lists)
}
