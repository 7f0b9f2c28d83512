ghost use Rattle.std.specs.Prelude.{◌≡◌, map, IfOk};
ghost use Rattle.spec_types.specs.Classes.{number_from};
ghost use Rattle.module_classes.specs.Sorted.{AreThere, class_in};

use module_classes::Class;
use py_tree::Module;
use std::alloc::Global;
use xh_outside::NoMemory;

// The number of the first class of each name.
pub(crate) fn class_numbers(
    alloc: Global,
    module: &Module,
    classes: &[Class],
) -> Result<Vec<Option<usize>>, NoMemory>
    requires { AreThere «module».now classes.now }
    ensures { IfOk result (λ v. v.items ≡ map (number_from 0 (map (class_in «module».now) classes.now)) «module».now.names) }
{
    let mut numbers = vec![in alloc; None; module.names_count()]?;
    let mut behind = classes.len();
    // from the last class on, so that the first of a name counts
    while behind > 0 {
        behind -= 1;
        let name = classes[behind].name(module);
        numbers[name.index] = Some(behind);
    }
    Ok(numbers)
}
