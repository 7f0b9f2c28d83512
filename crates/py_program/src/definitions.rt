ghost use Rattle.std.specs.Prelude.{IfOk};
ghost use Rattle.py_program.specs.Named.{IsTable};

use crate::constants::constants;
use crate::listing::listing_of;
use crate::numbers::first_numbers;
use py_tree::{ExprId, Module};
use std::alloc::Global;
use xh_outside::NoMemory;

/// What each name of a module defines, by its id.
#[derive(Drop)]
pub(crate) struct Definitions {
    /// The values of constants.
    pub(crate) constants: Vec<Option<ExprId>>,
    /// The numbers of functions of the module itself, from 0 among all functions in the order of lines.
    pub(crate) functions: Vec<Option<usize>>,
    /// The numbers of classes, from 0 in the order of lines.
    pub(crate) classes: Vec<Option<usize>>,
}

/// What each name of a module defines, of which the first definition of a kind counts. It takes time linear in the number of
/// names, and of statements of the module and its classes.
pub(crate) fn definitions_of(alloc: Global, module: &Module) -> Result<Definitions, NoMemory>
    ensures { IfOk result (λ d. IsTable «module».now d) }
{
    let listed = listing_of(alloc, module)?;
    Ok(Definitions {
        constants: constants(alloc, module)?,
        functions: first_numbers(alloc, module, &listed.functions)?,
        classes: first_numbers(alloc, module, &listed.classes)?,
    })
}
