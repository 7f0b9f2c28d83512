ghost use Rattle.std.specs.Prelude.{◌≡◌, map, IfOk};
ghost use Rattle.spec_types.specs.Classes.{classes};
ghost use Rattle.py_tree.specs.Arena.{module_tree};
ghost use Rattle.module_classes.specs.Sorted.{AreThere, class_in};

use crate::Class;
use py_tree::{Module, StmtNode};
use std::alloc::Global;
use xh_outside::NoMemory;

/// The classes of a module, in the order of lines. It takes time linear in the number of statements of the module.
///
/// # Errors
///
/// There is no memory for them.
pub fn classes(alloc: Global, module: &Module) -> Result<Vec<Class>, NoMemory>
    ensures classes { IfOk result (λ v. map (class_in «module».now) v.items ≡ classes (module_tree «module».now).body) }
    ensures there { IfOk result (λ v. AreThere «module».now v.items) }
{
    let mut classes = Vec::new(alloc);
    for i in 0..module.top() {
        let statement = module.top_stmt(i);
        if let StmtNode::Class { .. } = module.stmt(statement) {
            classes.push(Class { statement })?;
        }
    }
    Ok(classes)
}
