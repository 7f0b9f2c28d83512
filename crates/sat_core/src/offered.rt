ghost use Rattle.std.specs.Prelude.{◌≡◌, ◌⊎◌, ℕ, Contains, IsTrue, IfOk, IfSome};
ghost use Rattle.std.specs.List.{list_all};
ghost use Rattle.refutation_check.specs.Truth.{IsModel, clause_value, literal_value};
ghost use Rattle.sat_core.specs.Models.{IsModelOf, model_value};
ghost use Rattle.sat_core.specs.Variables.{IsNamed, HasVariable};

use crate::SatModel;
use crate::learner::Learner;
use crate::variables::clause_at;
use refutation_check::{Clauses, SatLit};
use std::alloc::Global;
use unit_propagation::{Numbering, Table};
use xh_outside::NoMemory;

// The model that the values of a learner give, where it is one.
pub(crate) fn offered_model(
    alloc: Global,
    learner: &Learner,
    numbering: &Numbering,
    clauses: &Clauses,
    assumptions: &[SatLit],
) -> Result<Option<SatModel>, NoMemory>
    ensures { IfOk result (λ found. IfSome found (IsModelOf clauses.now assumptions.now)) }
{
    let vars = true_variables(alloc, learner, numbering, clauses, assumptions)?;
    let model = SatModel::new(vars);
    if meets(&model, clauses, assumptions) {
        Ok(Some(model))
    } else {
        Ok(None)
    }
}

// The variables that clauses and assumptions name and that are true for a learner.
fn true_variables(
    alloc: Global,
    learner: &Learner,
    numbering: &Numbering,
    clauses: &Clauses,
    assumptions: &[SatLit],
) -> Result<Vec<usize>, NoMemory>
    ensures { IfOk result (λ vars. (x : ℕ) → Contains vars.items x → IsNamed clauses.now assumptions.now x) }
{
    let mut vars = Vec::new(alloc);
    let mut taken = Table::new(alloc, numbering.count(), false)?;
    add_true(&mut vars, &mut taken, learner, numbering, assumptions)?;
    for i in 0..clauses.len() {
        add_true(
            &mut vars,
            &mut taken,
            learner,
            numbering,
            clause_at(clauses, i),
        )?;
    }
    Ok(vars)
}

// Adds the variables of literals that are true for a learner, and not yet taken.
fn add_true(
    vars: &mut Vec<usize>,
    taken: &mut Table<bool>,
    learner: &Learner,
    numbering: &Numbering,
    lits: &[SatLit],
) -> Result<(), NoMemory>
    ensures { (x : ℕ) → Contains vars.new.items x → Contains vars.old.items x ⊎ HasVariable lits.now x }
{
    for l in lits {
        let number = numbering.number(l.var);
        if taken.get(number) || !learner.is_true(number) {
            continue;
        }
        taken.set(number, true);
        vars.push(l.var)?;
    }
    Ok(())
}

// Whether a literal is true in a model.
fn is_true(model: &SatModel, l: SatLit) -> bool
    ensures { result ≡ literal_value (model_value model.now) l }
{
    model.value(l.var) == l.positive
}

// Whether a clause is true in a model.
fn holds(model: &SatModel, clause: &[SatLit]) -> bool
    ensures { result ≡ clause_value (model_value model.now) clause.now }
{
    clause.iter().any(|l| is_true(model, *l))
}

// Whether all of some literals are true in a model.
fn are_true(model: &SatModel, lits: &[SatLit]) -> bool
    ensures { result ≡ list_all (literal_value (model_value model.now)) lits.now }
{
    lits.iter().all(|l| is_true(model, *l))
}

// Whether all clauses and assumptions are true in a model.
fn meets(model: &SatModel, clauses: &Clauses, assumptions: &[SatLit]) -> bool
    ensures { IsTrue result → IsModel (model_value model.now) clauses.now assumptions.now }
{
    for i in 0..clauses.len() {
        if !holds(model, clause_at(clauses, i)) {
            return false;
        }
    }
    are_true(model, assumptions)
}
