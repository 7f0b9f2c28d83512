ghost use Rattle.std.specs.Prelude.{◌≡◌, map, IfOk};
ghost use Rattle.py_program.specs.Named.{AreNamesThere, first_from};

use py_tree::{Module, NameId};
use std::alloc::Global;
use xh_outside::NoMemory;

/// The number of the first of some names, from 0, that each name of a module is.
pub(crate) fn first_numbers(
    alloc: Global,
    module: &Module,
    listed: &[Option<NameId>],
) -> Result<Vec<Option<usize>>, NoMemory>
    requires { AreNamesThere «module».now listed.now }
    ensures { IfOk result (λ v. v.items ≡ map (first_from «module».now.names 0 listed.now) «module».now.names) }
{
    let mut numbers = vec![in alloc; None; module.names_count()]?;
    let mut behind = listed.len();
    // from the last one on, so that the first of a name counts
    while behind > 0 {
        behind -= 1;
        if let Some(name) = listed[behind] {
            numbers[name.index] = Some(behind);
        }
    }
    Ok(numbers)
}
