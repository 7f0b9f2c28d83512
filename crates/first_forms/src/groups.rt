ghost use Rattle.std.specs.Prelude.{◌≡◌, ◌++◌, ◌∷◌, [], ℕ, List, IfOk};
ghost use Rattle.contract_lines.specs.declared.contracts.ContractLine as held;
ghost use Rattle.first_forms.specs.Groups.{AreGrouped};

use contract_lines::{ContractLine, Contracts, Owner};
use std::alloc::Global;
use xh_outside::NoMemory;

// No contract lines of so many functions.
fn no_lines(alloc: Global, functions: usize) -> Result<Vec<Vec<ContractLine>>, NoMemory>
    ensures { IfOk result (λ groups. AreGrouped functions [] groups.items) }
{
    let mut groups = Vec::new(alloc);
    for _ in 0..functions {
        groups.push(Vec::new(alloc))?;
    }
    Ok(groups)
}

// Adds a contract line to those of its function, where that is one of them.
fn add_line(groups: &mut Vec<Vec<ContractLine>>, line: ContractLine) -> Result<(), NoMemory>
    ensures { (n : ℕ) (ls : List held.ContractLine) → AreGrouped n ls groups.old.items → IfOk result (λ _. AreGrouped n (ls ++ line ∷ []) groups.new.items) }
{
    let Owner::Function(function) = line.owner else {
        return Ok(());
    };
    if function.index < groups.len() {
        groups[function.index].push(line)?;
    }
    Ok(())
}

/// The contract lines of the first so many functions, by the number of their function.
pub(crate) fn grouped(
    alloc: Global,
    contracts: &Contracts,
    functions: usize,
) -> Result<Vec<Vec<ContractLine>>, NoMemory>
    ensures { IfOk result (λ groups. AreGrouped functions contracts.now groups.items) }
{
    let mut groups = no_lines(alloc, functions)?;
    for i in 0..contracts.lines() {
        if let Some(line) = contracts.get(i) {
            add_line(&mut groups, line)?;
        }
    }
    Ok(groups)
}
