use crate::formula::Formula;
use refutation_check::{Clauses, SatLit, accepts};
use sat_core::{SatModel, Solved, Solver};
use std::alloc::Global;
use xh_outside::NoMemory;

/// An answer that was checked.
#[derive(Drop)]
pub enum Answer {
    /// The clauses are true where the variables have these values.
    Satisfiable(Vec<bool>),
    Unsatisfiable,
}

/// The answer of a solver, if it is right.
pub fn checked(
    alloc: Global,
    formula: &Formula,
    solved: &Solved,
) -> Result<Option<Answer>, NoMemory> {
    let clauses = formula.solver.clauses();
    match solved {
        Solved::Sat(model) if is_model(model, clauses) => Ok(Some(Answer::Satisfiable(values(
            alloc, formula, model,
        )?))),
        Solved::Unsat(refutation) if accepts(alloc, clauses, &[], refutation)? => Ok(Some(
            Answer::Unsatisfiable,
        )),
        _ => Ok(None),
    }
}

// The values of all variables.
fn values(alloc: Global, formula: &Formula, model: &SatModel) -> Result<Vec<bool>, NoMemory> {
    let mut values = Vec::new(alloc);
    for var in 0..formula.vars {
        values.push(model.value(var))?;
    }
    Ok(values)
}

// Whether all clauses are true in a model.
fn is_model(model: &SatModel, clauses: &Clauses) -> bool {
    for i in 0..clauses.len() {
        if let Some(clause) = clauses.get(i)
            && !clause.iter().any(|l| model.value(l.var) == l.positive)
        {
            return false;
        }
    }
    true
}
