ghost use Rattle.std.specs.Prelude.{◌≡◌, ◌↔◌, ◌++◌, ◌∷◌, [], map, IsTrue, IfOk};
ghost use Rattle.refutation_check.specs.Truth.{negated};
ghost use Rattle.refutation_check.specs.Propagation.{IsConflict};
ghost use Rattle.refutation_check.specs.Refutations.{EachFollows};
ghost use Rattle.sat_core.specs.Search.{IsCovered, IsSearched};

use crate::SatModel;
use refutation_check::{Clauses, Refutation, SatLit, meets_conflict};
use std::alloc::Global;
use xh_outside::NoMemory;

// The literals with one more.
fn with_literal(
    alloc: Global,
    lits: &[SatLit],
    var: usize,
    positive: bool,
) -> Result<Vec<SatLit>, NoMemory>
    ensures { IfOk result (λ more. more.items ≡ lits.now ++ record { var = var; positive = positive } ∷ []) }
{
    let mut more = Vec::from_slice(alloc, lits)?;
    more.push(SatLit { var, positive })?;
    Ok(more)
}

// The negations of literals.
fn negations(alloc: Global, lits: &[SatLit]) -> Result<Vec<SatLit>, NoMemory>
    ensures { IfOk result (λ clause. clause.items ≡ map negated lits.now) }
{
    let mut clause = Vec::new(alloc);
    for l in lits {
        clause.push(l.negated())?;
    }
    Ok(clause)
}

// Whether propagation from assumptions and splits meets a conflict.
fn is_closed(
    alloc: Global,
    clauses: &Clauses,
    assumptions: &[SatLit],
    splits: &[SatLit],
) -> Result<bool, NoMemory>
    ensures { IfOk result (λ yes. IsTrue yes ↔ IsConflict clauses.now (assumptions.now ++ splits.now)) }
{
    let mut given = Vec::from_slice(alloc, assumptions)?;
    given.extend_from_slice(splits)?;
    meets_conflict(alloc, clauses, &given)
}

// Closes a branch: the clause of the negated splits goes to the refutation.
fn close(alloc: Global, splits: &[SatLit], refutation: &mut Refutation) -> Result<(), NoMemory>
    ensures { IfOk result (λ _. refutation.new ≡ refutation.old ++ map negated splits.now ∷ []) }
{
    let clause = negations(alloc, splits)?;
    refutation.push(&clause)
}

// Looks for a model in which the splits are true, by splitting over the variables that are left. Where there is none,
// the refutation gets the clause of the negated splits.
pub(crate) fn search(
    alloc: Global,
    clauses: &Clauses,
    assumptions: &[SatLit],
    vars: &[usize],
    splits: &[SatLit],
    refutation: &mut Refutation,
) -> Result<Option<SatModel>, NoMemory>
    requires covered { IsCovered clauses.now assumptions.now vars.now splits.now }
    requires sound { EachFollows clauses.now assumptions.now refutation.old }
    ensures { IfOk result (λ found. IsSearched clauses.now assumptions.now splits.now refutation.old refutation.new found) }
{
    if is_closed(alloc, clauses, assumptions, splits)? {
        close(alloc, splits, refutation)?;
        return Ok(None);
    }
    if vars.is_empty() {
        return Ok(Some(SatModel::from_literals(alloc, splits)?));
    }
    let yes = with_literal(alloc, splits, vars[0], true)?;
    match search(alloc, clauses, assumptions, &vars[1..], &yes, refutation)? {
        Some(model) => return Ok(Some(model)),
        None => {}
    }
    let no = with_literal(alloc, splits, vars[0], false)?;
    match search(alloc, clauses, assumptions, &vars[1..], &no, refutation)? {
        Some(model) => return Ok(Some(model)),
        None => {}
    }
    close(alloc, splits, refutation)?;
    Ok(None)
}
