ghost use Rattle.std.specs.Prelude.{◌≡◌, IfOk};
ghost use Rattle.py_tree.specs.Arena.{module_tree};
ghost use Rattle.py_types.specs.Given.{Grows};
ghost use Rattle.read_annotations.specs.Reading.{AreAllWritten, all_written};
ghost use Rattle.parameter_types.specs.Annotated.{IsAnnotated, of_constructors, of_functions};

use module_classes::classes;
use module_functions::functions;
use py_tree::{Module, TypeId};
use read_annotations::{Annotation, annotations};
use signatures::{written, written_by_constructors};
use std::alloc::Global;
use xh_outside::NoMemory;

/// The annotations of a module, one list for each function and each class.
#[derive(Drop)]
pub(crate) struct Annotated {
    /// Of the parameters of functions, but for the `self` of a class.
    pub(crate) functions: Vec<Vec<Option<Annotation>>>,
    /// Of what constructors take.
    pub(crate) constructors: Vec<Vec<Option<Annotation>>>,
}

// The annotations of the parameters of all functions, which are not read yet.
fn of_functions(alloc: Global, module: &Module) -> Result<Vec<Vec<Option<TypeId>>>, NoMemory>
    ensures written { IfOk result (λ v. all_written «module».now v.items ≡ of_functions (module_tree «module».now).body) }
    ensures there { IfOk result (λ v. AreAllWritten «module».now v.items) }
{
    let functions = functions(alloc, module)?;
    let lists = written(alloc, module, &functions)?;
    Ok(lists)
}

// The annotations of what the constructors of all classes take, which are not read yet.
fn of_constructors(alloc: Global, module: &Module) -> Result<Vec<Vec<Option<TypeId>>>, NoMemory>
    ensures written { IfOk result (λ v. all_written «module».now v.items ≡ of_constructors (module_tree «module».now).body) }
    ensures there { IfOk result (λ v. AreAllWritten «module».now v.items) }
{
    let classes = classes(alloc, module)?;
    let lists = written_by_constructors(alloc, module, &classes)?;
    Ok(lists)
}

/// Reads all annotations of parameters of a module.
#[tactic(auto, using(py_types::proofs::Growth::grows_same, py_types::proofs::Growth::grows_then))]
pub(crate) fn read_all(alloc: Global, module: &mut Module) -> Result<Annotated, NoMemory>
    ensures grown { Grows «module».old «module».new }
    ensures annotated { IfOk result (λ a. IsAnnotated «module».new (module_tree «module».new).body a) }
{
    // its contract tells what holds of every module
    let _ = module.types_count();
    let of_functions = of_functions(alloc, module)?;
    let of_constructors = of_constructors(alloc, module)?;
    let functions = annotations(alloc, module, &of_functions)?;
    let constructors = annotations(alloc, module, &of_constructors)?;
    Ok(Annotated {
        functions,
        constructors,
    })
}
