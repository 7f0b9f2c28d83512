ghost use Rattle.std.specs.Prelude.{◌≡◌, ◌++◌, ℕ, List, length, map, IfOk};
ghost use Rattle.spec_programs.specs.Definitions.{is_free_named};
ghost use Rattle.spec_uses.specs.Functions.{class_functions};
ghost use Rattle.py_tree.specs.Arena.{shown_stmt};
ghost use Rattle.py_tree.specs.Stmts.{AreStmtsBelow, block_tree};
ghost use Rattle.py_program.specs.Named.{AreListed, AreNamesThere, has_text};

use py_tree::{Module, NameId, StmtId, StmtNode};
use std::alloc::Global;
use xh_outside::NoMemory;

/// The functions and the classes of a module, each in the order of lines, by their names.
#[derive(Drop)]
pub(crate) struct Listed {
    /// A function of a class has no name here.
    pub(crate) functions: Vec<Option<NameId>>,
    pub(crate) classes: Vec<Option<NameId>>,
}

// Appends that there is no name, for each function of a class.
fn add_methods(
    module: &Module,
    body: &[StmtId],
    into: &mut Vec<Option<NameId>>,
) -> Result<(), NoMemory>
    requires body { AreStmtsBelow (length «module».now.stmts) body.now }
    requires there { AreNamesThere «module».now into.old.items }
    ensures functions { IfOk result (λ _. (k : ℕ) (x : List ℕ) → map (has_text «module».now.names x) into.new.items ≡ map (has_text «module».now.names x) into.old.items ++ map (is_free_named x) (class_functions k (block_tree (shown_stmt «module».now) body.now))) }
    ensures there { IfOk result (λ _. AreNamesThere «module».now into.new.items) }
{
    for s in body {
        if let StmtNode::Def { .. } = module.stmt(*s) {
            into.push(None)?;
        }
    }
    Ok(())
}

/// The functions and classes of a module by their names. It takes time linear in the number of statements of the module and
/// of its classes.
pub(crate) fn listing_of(alloc: Global, module: &Module) -> Result<Listed, NoMemory>
    ensures { IfOk result (λ l. AreListed «module».now l) }
{
    let mut functions = Vec::new(alloc);
    let mut classes = Vec::new(alloc);
    for i in 0..module.top() {
        match module.stmt(module.top_stmt(i)) {
            StmtNode::Def { name, .. } => functions.push(Some(*name))?,
            StmtNode::Class { name, body, .. } => {
                classes.push(Some(*name))?;
                add_methods(module, body, &mut functions)?;
            }
            _ => {}
        }
    }
    Ok(Listed { functions, classes })
}
