ghost use Rattle.std.specs.Prelude.{◌≡◌, ◌++◌, length, map, IfOk};
ghost use Rattle.spec_uses.specs.Functions.{all_functions, class_functions};
ghost use Rattle.py_tree.specs.Arena.{module_tree, shown_stmt};
ghost use Rattle.py_tree.specs.Stmts.{AreStmtsBelow, block_tree};
ghost use Rattle.module_functions.specs.Listed.{AreThere, function_in};

use crate::Function;
use py_tree::{Module, StmtId, StmtNode};
use std::alloc::Global;
use xh_outside::NoMemory;

// Appends the functions of the class of a number.
fn add_methods(
    module: &Module,
    body: &[StmtId],
    class: usize,
    into: &mut Vec<Function>,
) -> Result<(), NoMemory>
    requires statements { AreStmtsBelow (length «module».now.stmts) body.now }
    requires there { AreThere «module».now into.old.items }
    ensures functions { IfOk result (λ _. map (function_in «module».now) into.new.items ≡ map (function_in «module».now) into.old.items ++ class_functions class (block_tree (shown_stmt «module».now) body.now)) }
    ensures there { IfOk result (λ _. AreThere «module».now into.new.items) }
{
    for s in body {
        if let StmtNode::Def { .. } = module.stmt(*s) {
            into.push(Function {
                statement: *s,
                class: Some(class),
            })?;
        }
    }
    Ok(())
}

/// The functions of a module and of its classes, in the order of lines. It takes time linear in the number of statements of
/// the module and of its classes.
///
/// # Errors
///
/// There is no memory for them.
pub fn functions(alloc: Global, module: &Module) -> Result<Vec<Function>, NoMemory>
    ensures functions { IfOk result (λ v. map (function_in «module».now) v.items ≡ all_functions (module_tree «module».now).body) }
    ensures there { IfOk result (λ v. AreThere «module».now v.items) }
{
    let mut functions = Vec::new(alloc);
    let mut classes = 0;
    for i in 0..module.top() {
        let statement = module.top_stmt(i);
        match module.stmt(statement) {
            StmtNode::Def { .. } => functions.push(Function {
                statement,
                class: None,
            })?,
            StmtNode::Class { body, .. } => {
                add_methods(module, body, classes, &mut functions)?;
                classes += 1;
            }
            _ => {}
        }
    }
    Ok(functions)
}
