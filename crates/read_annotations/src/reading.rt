ghost use Rattle.std.specs.Prelude.{◌≡◌, IfOk};
ghost use Rattle.py_types.specs.Given.{Grows};
ghost use Rattle.read_annotations.specs.Reading.{AreAllWritten, AreListsThere, AreThere, AreWritten, all_written, shown_all, shown_lists, written};

use crate::Annotation;
use crate::annotation::read;
use py_tree::{Module, TypeId};
use std::alloc::Global;
use xh_outside::NoMemory;

// Reads the annotations of the parameters of one function.
#[tactic(auto, using(py_types::proofs::Growth::grows_same))]
fn read_all(
    alloc: Global,
    module: &mut Module,
    annotations: &[Option<TypeId>],
) -> Result<Vec<Option<Annotation>>, NoMemory>
    requires { AreWritten «module».old annotations.now }
    ensures grown { Grows «module».old «module».new }
    ensures there { IfOk result (λ v. AreThere «module».new v.items) }
    ensures read { IfOk result (λ v. shown_all «module».new v.items ≡ written «module».old annotations.now) }
{
    // its contract tells what holds of every module
    let _ = module.types_count();
    let mut made = Vec::new(alloc);
    for annotation in annotations {
        let next = read(alloc, module, *annotation)?;
        made.push(next)?;
    }
    Ok(made)
}

/// Reads the annotations of the parameters of functions, in their order. What the module has stays as it is, and names and
/// types may be added to it, after an error too. It takes time linear in the number of annotations and of the letters of
/// their strings, where a letter counts once for each string in which it stands.
///
/// # Errors
///
/// There is no memory for them, or a string is too long to be read, which none in a text below 2 GiB is.
#[tactic(auto, using(py_types::proofs::Growth::grows_same))]
pub fn annotations(
    alloc: Global,
    module: &mut Module,
    functions: &[Vec<Option<TypeId>>],
) -> Result<Vec<Vec<Option<Annotation>>>, NoMemory>
    requires { AreAllWritten «module».old functions.now }
    ensures grown { Grows «module».old «module».new }
    ensures there { IfOk result (λ v. AreListsThere «module».new v.items) }
    ensures read { IfOk result (λ v. shown_lists «module».new v.items ≡ all_written «module».old functions.now) }
{
    // its contract tells what holds of every module
    let _ = module.types_count();
    let mut made = Vec::new(alloc);
    for annotations in functions {
        let next = read_all(alloc, module, annotations)?;
        made.push(next)?;
    }
    Ok(made)
}
