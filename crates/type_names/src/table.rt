ghost use Rattle.std.specs.Prelude.{◌≡◌, map, IfOk};
ghost use Rattle.spec_uses.specs.Meanings.{meaning_in};
ghost use Rattle.spec_types.specs.Classes as listed;
ghost use Rattle.spec_types.specs.Names.{type_name};
ghost use Rattle.py_tree.specs.Arena.{module_tree};
ghost use Rattle.module_classes.specs.Sorted.{AreThere, class_in};

use crate::meant::type_meant;
use crate::numbers::class_numbers;
use module_classes::Class;
use name_meanings::Meanings;
use py_tree::{Module, NameId};
use spec_types::TypeName;
use std::alloc::Global;
use xh_outside::NoMemory;

/// What each name of a module, which has these classes, stands for in annotations. Of classes of one name the first counts.
/// It takes time linear in the number of names and classes.
///
/// # Errors
///
/// There is no memory for it.
pub fn type_names(
    alloc: Global,
    module: &Module,
    meanings: &Meanings,
    classes: &[Class],
) -> Result<Vec<TypeName>, NoMemory>
    requires meanings { meanings.now ≡ map (meaning_in (module_tree «module».now).body) «module».now.names }
    requires classes { map (class_in «module».now) classes.now ≡ listed.classes (module_tree «module».now).body }
    requires there { AreThere «module».now classes.now }
    ensures { IfOk result (λ v. v.items ≡ map (type_name (module_tree «module».now).body) «module».now.names) }
{
    let numbers = class_numbers(alloc, module, classes)?;
    let mut types = Vec::new(alloc);
    for index in 0..module.names_count() {
        let name = NameId { index };
        let text = module.name_text(name);
        types.push(type_meant(text, meanings.get(name), numbers[index]))?;
    }
    Ok(types)
}
