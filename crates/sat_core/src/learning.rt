ghost use Rattle.std.specs.Prelude.{◌++◌, IfOk};
ghost use Rattle.refutation_check.specs.Propagation.{AreForced};
ghost use Rattle.refutation_check.specs.Refutations.{EachFollows};
ghost use Rattle.sat_core.specs.Learning.{IsConfirmed, IsLearning};

use crate::SatModel;
use crate::learner::{Found, Learner};
use crate::lesson::Lesson;
use crate::offered::offered_model;
use crate::variables::clause_at;
use refutation_check::{Clauses, Known, Reason, Refutation, SatLit};
use std::alloc::Global;
use unit_propagation::{Literal, Numbering};
use xh_outside::NoMemory;

// After how many conflicts the search by learning gives up.
const CONFLICTS: u64 = 1 << 40;

// What a search by learning comes to.
#[derive(Drop)]
pub(crate) enum Learning {
    Model(SatModel),
    // the refutation is whole
    Refuted,
    // neither
    Open,
}

// Looks for a model, and adds to the refutation what conflicts teach. A clause is added only where its reason shows
// that it follows, and a model is given only where it makes all clauses and assumptions true.
pub(crate) fn learn(
    alloc: Global,
    clauses: &Clauses,
    assumptions: &[SatLit],
    refutation: &mut Refutation,
) -> Result<Learning, NoMemory>
    requires { EachFollows clauses.now assumptions.now refutation.old }
    ensures { IfOk result (IsLearning clauses.now assumptions.now refutation.new) }
{
    let mut known = Known::new(alloc, clauses, assumptions, refutation)?;
    let mut learner = learner_of(alloc, known.numbering(), clauses, assumptions)?;
    learn_with(
        alloc,
        &mut learner,
        &mut known,
        clauses,
        assumptions,
        refutation,
    )
}

// The same, with a learner that has the clauses and assumptions.
fn learn_with(
    alloc: Global,
    learner: &mut Learner,
    known: &mut Known,
    clauses: &Clauses,
    assumptions: &[SatLit],
    refutation: &mut Refutation,
) -> Result<Learning, NoMemory>
    requires known { AreForced (clauses.now ++ refutation.old) assumptions.now known.old }
    requires sound { EachFollows clauses.now assumptions.now refutation.old }
    ensures { IfOk result (IsLearning clauses.now assumptions.now refutation.new) }
{
    for _ in 0..CONFLICTS {
        let lesson = match learner.search()? {
            Found::Conflict(lesson) => lesson,
            Found::Values => {
                return match offered_model(
                    alloc,
                    learner,
                    known.numbering(),
                    clauses,
                    assumptions,
                )? {
                    Some(model) => Ok(Learning::Model(model)),
                    None => Ok(Learning::Open),
                };
            }
        };
        let clause = clause_of(alloc, known.numbering(), &lesson)?;
        let causes = learner.new_causes()?;
        let reason = Reason {
            causes: &causes,
            hints: &lesson.hints,
        };
        if !confirm(known, clauses, refutation, &clause, reason)? {
            return Ok(Learning::Open);
        }
        if clause.is_empty() {
            return Ok(Learning::Refuted);
        }
        learner.keep(lesson)?;
    }
    Ok(Learning::Open)
}

// The literals under a numbering.
fn literals(
    alloc: Global,
    numbering: &Numbering,
    clause: &[SatLit],
) -> Result<Vec<Literal>, NoMemory> {
    let mut literals = Vec::new(alloc);
    for l in clause {
        literals.push(Literal::new(numbering.number(l.var), l.positive))?;
    }
    Ok(literals)
}

// A learner with clauses and assumptions.
fn learner_of(
    alloc: Global,
    numbering: &Numbering,
    clauses: &Clauses,
    assumptions: &[SatLit],
) -> Result<Learner, NoMemory> {
    let mut learner = Learner::new(alloc, numbering.count())?;
    for l in assumptions {
        learner.assume(Literal::new(numbering.number(l.var), l.positive))?;
    }
    for i in 0..clauses.len() {
        let clause = literals(alloc, numbering, clause_at(clauses, i))?;
        learner.add_clause(clause)?;
    }
    Ok(learner)
}

// The clause that a lesson teaches.
fn clause_of(
    alloc: Global,
    numbering: &Numbering,
    lesson: &Lesson,
) -> Result<Vec<SatLit>, NoMemory> {
    let mut clause = Vec::new(alloc);
    for l in &lesson.literals {
        clause.push(SatLit {
            var: numbering.name(l.var()),
            positive: l.is_positive(),
        })?;
    }
    Ok(clause)
}

// Adds a clause to a refutation, where a reason shows that it follows.
fn confirm(
    known: &mut Known,
    clauses: &Clauses,
    refutation: &mut Refutation,
    clause: &[SatLit],
    reason: Reason<'_>,
) -> Result<bool, NoMemory>
    ensures known { AreForced (clauses.now ++ refutation.old) known.old known.new }
    ensures confirmed { IfOk result (IsConfirmed clauses.now known.old refutation.old refutation.new clause.now) }
{
    if !known.shows(clauses, refutation, clause, reason) {
        return Ok(false);
    }
    refutation.push_with_reason(clause, reason)?;
    Ok(true)
}
