ghost use Rattle.std.specs.Prelude.{◌≡◌, ◌<◌, length, slice_index_or, IfOk, OnOk};
ghost use Rattle.sat_core.specs.Variables.{with_variable, with_variables, variables_of};

use refutation_check::{Clauses, SatLit};
use std::alloc::Global;
use xh_outside::NoMemory;

// Adds a variable, where it is not there yet.
fn add_variable(vars: &mut Vec<usize>, var: usize) -> Result<(), NoMemory>
    ensures { OnOk result (vars.new.items ≡ with_variable vars.old.items var) }
{
    if !vars.contains(&var) {
        vars.push(var)?;
    }
    Ok(())
}

// Adds the variables of some literals.
fn add_variables(vars: &mut Vec<usize>, lits: &[SatLit]) -> Result<(), NoMemory>
    ensures { OnOk result (vars.new.items ≡ with_variables vars.old.items lits.now) }
{
    for l in lits {
        add_variable(vars, l.var)?;
    }
    Ok(())
}

// The clause at a place.
pub(crate) fn clause_at(clauses: &Clauses, i: usize) -> &[SatLit]
    requires { i < length clauses.now }
    ensures { result.now ≡ slice_index_or clauses.now i result.now }
{
    match clauses.get(i) {
        Some(clause) => clause,
        None => unreachable!(),
    }
}

// The variables that clauses and assumptions name.
pub(crate) fn variables(
    alloc: Global,
    clauses: &Clauses,
    assumptions: &[SatLit],
) -> Result<Vec<usize>, NoMemory>
    ensures { IfOk result (λ vars. vars.items ≡ variables_of clauses.now assumptions.now) }
{
    let mut vars = Vec::new(alloc);
    add_variables(&mut vars, assumptions)?;
    for i in 0..clauses.len() {
        add_variables(&mut vars, clause_at(clauses, i))?;
    }
    Ok(vars)
}
