ghost use Rattle.std.specs.Prelude.{◌≡◌, ◌↔◌, ◌++◌, ◌||◌, not, IsTrue, IfOk, find};
ghost use Rattle.std.specs.List.{list_all};
ghost use Rattle.refutation_check.specs.Dues.{is_consistent, due_of, due_in};
ghost use Rattle.refutation_check.specs.Truth.{negated, same_lit, has};
ghost use Rattle.refutation_check.specs.Propagation.{IsConflict};
ghost use Rattle.refutation_check.specs.Refutations.{Follows};

use crate::clauses::Clause;
use crate::{Clauses, SatLit};
use std::alloc::Global;
use xh_outside::NoMemory;

// What clauses give where the literals of a trail are true.
#[derive(Clone, Copy)]
enum Due {
    Nothing,
    // a literal that is not on the trail, and has to be
    Forced(SatLit),
    // a clause whose literals are all false
    Conflict,
}

// Whether the trail has a literal.
fn has(trail: &[SatLit], l: SatLit) -> bool
    ensures { result ≡ has trail.now l }
{
    trail.contains(&l)
}

// The first literal of a clause that is not false.
fn first_open(trail: &[SatLit], clause: &[SatLit]) -> Option<SatLit>
    ensures { result ≡ find (λ k. not (has trail.now (negated k))) clause.now }
{
    clause.iter().copied().find(|k| !has(trail, k.negated()))
}

// Whether each literal of a clause but this one is false.
fn is_last_open(trail: &[SatLit], clause: &[SatLit], l: SatLit) -> bool
    ensures { result ≡ list_all (λ k. same_lit k l || has trail.now (negated k)) clause.now }
{
    clause.iter().all(|k| *k == l || has(trail, k.negated()))
}

// What one clause gives.
#[tactic(auto, unfolding(crate::specs::Dues::due_of))]
fn due_of(trail: &[SatLit], clause: &[SatLit]) -> Due
    ensures { result ≡ due_of trail.now clause.now }
{
    match first_open(trail, clause) {
        None => Due::Conflict,
        Some(l) => {
            if !has(trail, l) && is_last_open(trail, clause, l) {
                Due::Forced(l)
            } else {
                Due::Nothing
            }
        }
    }
}

// What the first clause gives that gives something.
fn due_in(trail: &[SatLit], clauses: &[Clause]) -> Due
    ensures { result ≡ due_in trail.now clauses.now }
{
    for clause in clauses {
        match due_of(trail, clause.as_slice()) {
            Due::Nothing => {}
            due => return due,
        }
    }
    Due::Nothing
}

// What the first clause of two lists gives that gives something.
fn due_in_both(trail: &[SatLit], clauses: &[Clause], more: &[Clause]) -> Due
    ensures { result ≡ due_in trail.now (clauses.now ++ more.now) }
{
    match due_in(trail, clauses) {
        Due::Nothing => due_in(trail, more),
        due => due,
    }
}

// Whether no literal stands beside its negation.
fn is_consistent(lits: &[SatLit]) -> bool
    ensures { result ≡ is_consistent lits.now }
{
    lits.iter().all(|l| !has(lits, l.negated()))
}

// Propagates from the literals of a trail, until a clause is false or nothing is left to do.
fn propagate(clauses: &[Clause], more: &[Clause], mut trail: Vec<SatLit>) -> Result<bool, NoMemory>
    requires { IsTrue (is_consistent trail.items) }
    ensures { IfOk result (λ yes. IsTrue yes ↔ IsConflict (clauses.now ++ more.now) trail.items) }
{
    loop {
        match due_in_both(&trail, clauses, more) {
            Due::Nothing => return Ok(false),
            Due::Conflict => return Ok(true),
            Due::Forced(l) => trail.push(l)?,
        }
    }
}

// Whether propagation meets a conflict over two lists of clauses, where assumptions and the negations of some literals
// are true.
pub(crate) fn refutes(
    alloc: Global,
    clauses: &[Clause],
    more: &[Clause],
    assumptions: &[SatLit],
    clause: &[SatLit],
) -> Result<bool, NoMemory>
    ensures { IfOk result (λ yes. IsTrue yes ↔ Follows (clauses.now ++ more.now) assumptions.now clause.now) }
{
    let mut trail = Vec::from_slice(alloc, assumptions)?;
    for l in clause {
        trail.push(l.negated())?;
    }
    if !is_consistent(&trail) {
        return Ok(true);
    }
    propagate(clauses, more, trail)
}

/// Whether unit propagation over clauses meets a conflict where these literals are true.
pub fn meets_conflict(alloc: Global, clauses: &Clauses, lits: &[SatLit]) -> Result<bool, NoMemory>
    ensures { IfOk result (λ yes. IsTrue yes ↔ IsConflict clauses.now lits.now) }
{
    refutes(alloc, clauses.as_slice(), &[], lits, &[])
}
