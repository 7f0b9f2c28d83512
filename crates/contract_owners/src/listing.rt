ghost use Rattle.std.specs.Prelude.{◌≡◌, ◌+◌, ◌≤◌, ◌++◌, length, map, IfOk};
ghost use Rattle.spec_contracts.specs.Owners.{methods, owned};
ghost use Rattle.py_tree.specs.Arena.{module_tree, shown_stmt};
ghost use Rattle.py_tree.specs.Stmts.{AreStmtsBelow, block_tree};
ghost use Rattle.contract_owners.specs.Members.{AreThere, owned_in};
ghost use Rattle.contract_owners.specs.declared.listing.Owner.TheVariants.{Function};

use py_tree::{Module, StmtId, StmtNode};
use std::alloc::Global;
use xh_outside::NoMemory;

/// The number of a function of a module, from 0 in the order of lines. Those of classes count too.
#[derive(Clone, Copy, Debug, PartialEq, Eq)]
pub struct FnId {
    pub index: usize,
}

/// The number of a class of a module, from 0 in the order of lines.
#[derive(Clone, Copy, Debug, PartialEq, Eq)]
pub struct ClassId {
    pub index: usize,
}

/// The owner of contract lines.
#[derive(Clone, Copy, Debug, PartialEq, Eq)]
pub enum Owner {
    Function(FnId),
    Class(ClassId),
}

/// A function or class of a module, and its statement.
#[derive(Clone, Copy, Debug, PartialEq, Eq)]
pub struct Owned {
    pub owner: Owner,
    pub statement: StmtId,
}

// The function that has this number.
fn function_owner(index: usize, statement: StmtId) -> Owned
    ensures { result ≡ record { owner = Function (record { index = index }); statement = statement } }
{
    Owned {
        owner: Owner::Function(FnId { index }),
        statement,
    }
}

// Appends the functions of a class that stands behind so many functions, and tells how many there are with its own.
fn methods(
    module: &Module,
    body: &[StmtId],
    before: usize,
    into: &mut Vec<Owned>,
) -> Result<usize, NoMemory>
    requires statements { AreStmtsBelow (length «module».now.stmts) body.now }
    requires there { AreThere «module».now into.old.items }
    requires count { before ≤ length into.old.items }
    ensures owned { IfOk result (λ _. map (owned_in «module».now) into.new.items ≡ map (owned_in «module».now) into.old.items ++ methods before (block_tree (shown_stmt «module».now) body.now)) }
    ensures there { IfOk result (λ _. AreThere «module».now into.new.items) }
    ensures count { IfOk result (λ n. n ≡ before + length (methods before (block_tree (shown_stmt «module».now) body.now))) }
{
    let mut functions = before;
    for s in body {
        if let StmtNode::Def { .. } = module.stmt(*s) {
            into.push(function_owner(functions, *s))?;
            functions += 1;
        }
    }
    Ok(functions)
}

/// The functions and classes of a module in the order of lines. It takes time linear in the number of statements of the
/// module and of its classes.
///
/// # Errors
///
/// There is no memory for them.
pub fn owners(alloc: Global, module: &Module) -> Result<Vec<Owned>, NoMemory>
    ensures owned { IfOk result (λ v. map (owned_in «module».now) v.items ≡ owned 0 0 (module_tree «module».now).body) }
    ensures there { IfOk result (λ v. AreThere «module».now v.items) }
{
    let mut owners = Vec::new(alloc);
    let mut functions = 0;
    let mut classes = 0;
    for i in 0..module.top() {
        let statement = module.top_stmt(i);
        match module.stmt(statement) {
            StmtNode::Def { .. } => {
                owners.push(function_owner(functions, statement))?;
                functions += 1;
            }
            StmtNode::Class { body, .. } => {
                owners.push(Owned {
                    owner: Owner::Class(ClassId { index: classes }),
                    statement,
                })?;
                classes += 1;
                functions = methods(module, body, functions, &mut owners)?;
            }
            _ => {}
        }
    }
    Ok(owners)
}
