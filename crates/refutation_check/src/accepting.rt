ghost use Rattle.std.specs.Prelude.{◌≡◌, ◌↔◌, ◌++◌, ◌-◌, [], Some, Contains, length, IsTrue, IfOk, slice_get};
ghost use Rattle.refutation_check.specs.declared.lit.SatLit.{SatLit};
ghost use Rattle.refutation_check.specs.Truth.{HaveNoModel};
ghost use Rattle.refutation_check.specs.Propagation.{AreForced};
ghost use Rattle.refutation_check.specs.Refutations.{Follows, EachFollows, IsAccepted};

use crate::clauses::Clause;
use crate::guide::Guide;
use crate::propagation::refutes;
use crate::reasons::Reasons;
use crate::{Clauses, Known, Reason, Refutation, SatLit};
use std::alloc::Global;
use xh_outside::NoMemory;

// Whether there is a last clause, and it is the empty one.
fn ends_empty(steps: &[Clause]) -> bool
    ensures { IsTrue result ↔ (slice_get steps.now (length steps.now - 1) ≡ Some []) }
{
    match steps.last() {
        Some(clause) => clause.as_slice().is_empty(),
        None => false,
    }
}

// Whether a clause follows from two lists of clauses under assumptions. Its reason is tried first, and then what the
// guide finds.
fn follows(
    alloc: Global,
    guide: &mut Guide,
    known: &mut Known,
    clauses: &[Clause],
    more: &[Clause],
    assumptions: &[SatLit],
    clause: &[SatLit],
    reason: Reason<'_>,
) -> Result<bool, NoMemory>
    requires { AreForced (clauses.now ++ more.now) assumptions.now known.old }
    ensures exact { IfOk result (λ yes. IsTrue yes ↔ Follows (clauses.now ++ more.now) assumptions.now clause.now) }
    ensures known { AreForced (clauses.now ++ more.now) assumptions.now known.new }
{
    if known.shows_from(clauses, more, clause, reason) {
        return Ok(true);
    }
    guide.catch_up(known.numbering(), clauses, more)?;
    let causes = guide.new_causes()?;
    let hints = guide.hints(known.numbering(), clause)?;
    let found = Reason {
        causes: &causes,
        hints: &hints,
    };
    if known.shows_from(clauses, more, clause, found) {
        return Ok(true);
    }
    refutes(alloc, clauses, more, assumptions, clause)
}

// Whether each step follows from the clauses and the steps before it.
fn each_follows(
    alloc: Global,
    guide: &mut Guide,
    known: &mut Known,
    clauses: &[Clause],
    assumptions: &[SatLit],
    steps: &[Clause],
    reasons: &Reasons,
) -> Result<bool, NoMemory>
    requires { (l : SatLit) → Contains known.old l → Contains assumptions.now l }
    ensures { IfOk result (λ yes. IsTrue yes ↔ EachFollows clauses.now assumptions.now steps.now) }
{
    for (i, step) in steps.iter().enumerate() {
        if !follows(
            alloc,
            guide,
            known,
            clauses,
            &steps[..i],
            assumptions,
            step.as_slice(),
            reasons.get(i),
        )? {
            return Ok(false);
        }
    }
    Ok(true)
}

// The same, with a guide that is made for it.
fn all_follow(
    alloc: Global,
    clauses: &[Clause],
    assumptions: &[SatLit],
    steps: &[Clause],
    reasons: &Reasons,
) -> Result<bool, NoMemory>
    ensures { IfOk result (λ yes. IsTrue yes ↔ EachFollows clauses.now assumptions.now steps.now) }
{
    let mut known = Known::from_slices(alloc, clauses, assumptions, steps)?;
    let mut guide = Guide::new(alloc, known.numbering(), assumptions)?;
    each_follows(
        alloc,
        &mut guide,
        &mut known,
        clauses,
        assumptions,
        steps,
        reasons,
    )
}

/// Whether a refutation of clauses under assumptions is right: it is not empty, its last clause is the empty one, and
/// from the negated literals of each clause of it propagation meets a conflict. What is accepted has no model.
pub fn accepts(
    alloc: Global,
    clauses: &Clauses,
    assumptions: &[SatLit],
    refutation: &Refutation,
) -> Result<bool, NoMemory>
    ensures accepted { IfOk result (λ yes. IsTrue yes ↔ IsAccepted clauses.now assumptions.now refutation.now) }
    ensures refuted { IfOk result (λ yes. IsTrue yes → HaveNoModel clauses.now assumptions.now) }
{
    let steps = refutation.as_slice();
    if !ends_empty(steps) {
        return Ok(false);
    }
    all_follow(
        alloc,
        clauses.as_slice(),
        assumptions,
        steps,
        refutation.reasons(),
    )
}
