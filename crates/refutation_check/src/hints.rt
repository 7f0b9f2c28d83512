ghost use Rattle.std.specs.Prelude.{◌≢◌, ◌++◌, ◌⊎◌, map, Contains, IsTrue, IfSome};
ghost use Rattle.std.specs.List.{All};
ghost use Rattle.refutation_check.specs.Truth.{negated};
ghost use Rattle.refutation_check.specs.declared.lit.SatLit.{SatLit};
ghost use Rattle.refutation_check.specs.Propagation.{IsForced, IsConflict};
ghost use Rattle.refutation_check.specs.Refutations.{Follows};
ghost use Rattle.refutation_check.specs.Told.{IsKept, IsTold, IsSeen, IsDenied, kept_in, told_in};

use crate::SatLit;
use crate::clauses::Clause;
use crate::slots::Slots;
use unit_propagation::Numbering;

// What a clause gives where some literals are known to be true.
#[derive(Clone, Copy)]
pub(crate) enum Seen {
    Nothing,
    // each other literal of the clause is false
    Last(SatLit),
    // all its literals are false
    False,
}

// Whether a literal is known to be false. It may also say no.
fn is_false(slots: &Slots, numbering: &Numbering, l: SatLit) -> bool
    ensures { IsTrue result → IsTold slots.now (negated l) }
{
    slots.has(numbering.number(l.var), l.negated())
}

// Whether a literal is this one or known to be false. It may also say no.
fn is_settled(slots: &Slots, numbering: &Numbering, k: SatLit, l: SatLit) -> bool
    ensures { IsTrue result → k ≢ l → IsTold slots.now (negated k) }
{
    if k == l {
        return true;
    }
    is_false(slots, numbering, k)
}

// Whether each literal of a clause but this one is known to be false. It may also say no.
fn is_last(slots: &Slots, numbering: &Numbering, clause: &[SatLit], l: SatLit) -> bool
    ensures { IsTrue result → All (λ k. k ≢ l → IsTold slots.now (negated k)) clause.now }
{
    for k in clause {
        if !is_settled(slots, numbering, *k, l) {
            return false;
        }
    }
    true
}

// Looks at one clause. It may also see nothing.
pub(crate) fn see(slots: &Slots, numbering: &Numbering, clause: &[SatLit]) -> Seen
    ensures { IsSeen slots.now clause.now result }
{
    for l in clause {
        if !is_false(slots, numbering, *l) {
            return if is_last(slots, numbering, clause, *l) {
                Seen::Last(*l)
            } else {
                Seen::Nothing
            };
        }
    }
    Seen::False
}

// The clause at a place.
fn item(clauses: &[Clause], place: usize) -> Option<&[SatLit]>
    ensures { IfSome result (λ clause. Contains clauses.now clause.now) }
{
    match clauses.get(place) {
        Some(clause) => Some(clause.as_slice()),
        None => None,
    }
}

// The clause at a place of two lists, one behind the other.
fn clause_at<'a>(clauses: &'a [Clause], more: &'a [Clause], place: usize) -> Option<&'a [SatLit]>
    ensures { IfSome result (λ clause. Contains (clauses.now ++ more.now) clause.now) }
{
    match place.checked_sub(clauses.len()) {
        None => item(clauses, place),
        Some(behind) => item(more, behind),
    }
}

// Takes the negations of a clause's literals for true in this round. It gives whether one of them is false.
fn deny(slots: &mut Slots, numbering: &Numbering, clause: &[SatLit]) -> bool
    ensures kept { (l : SatLit) → IsKept slots.new l → IsKept slots.old l }
    ensures told { (l : SatLit) → IsTold slots.new l → IsTold slots.old l ⊎ Contains (map negated clause.now) l }
    ensures denied { IsTrue result → IsDenied slots.old clause.now }
{
    for l in clause {
        let place = numbering.number(l.var);
        if slots.has(place, *l) {
            return true;
        }
        slots.note(place, l.negated());
    }
    false
}

// Makes true in this round what the clauses at some places force, one after the other, until one of them is false.
fn follow(
    slots: &mut Slots,
    numbering: &Numbering,
    clauses: &[Clause],
    more: &[Clause],
    hints: &[usize],
) -> bool
    ensures kept { (l : SatLit) → IsKept slots.new l → IsKept slots.old l }
    ensures conflict { IsTrue result → IsConflict (clauses.now ++ more.now) (told_in slots.old) }
{
    for place in hints {
        let Some(clause) = clause_at(clauses, more, *place) else {
            return false;
        };
        match see(slots, numbering, clause) {
            Seen::Nothing => continue,
            Seen::Last(l) => slots.note(numbering.number(l.var), l),
            Seen::False => return true,
        }
    }
    false
}

// Whether a clause follows from the literals that are kept, as the clauses at some places show, one after the other. It
// may also say no.
pub(crate) fn shows(
    slots: &mut Slots,
    numbering: &Numbering,
    clauses: &[Clause],
    more: &[Clause],
    clause: &[SatLit],
    hints: &[usize],
) -> bool
    ensures kept { (l : SatLit) → IsKept slots.new l → IsKept slots.old l }
    ensures shown { IsTrue result → Follows (clauses.now ++ more.now) (kept_in slots.old) clause.now }
{
    if !slots.begin_round() {
        return false;
    }
    if deny(slots, numbering, clause) {
        return true;
    }
    follow(slots, numbering, clauses, more, hints)
}

// Keeps the literal that the clause at a place forces by those that are kept, if it does.
pub(crate) fn keep_forced(
    slots: &mut Slots,
    numbering: &Numbering,
    clauses: &[Clause],
    more: &[Clause],
    place: usize,
)
    ensures { (l : SatLit) → IsKept slots.new l → IsForced (clauses.now ++ more.now) (kept_in slots.old) l }
{
    if !slots.begin_round() {
        return;
    }
    let Some(clause) = clause_at(clauses, more, place) else {
        return;
    };
    if let Seen::Last(l) = see(slots, numbering, clause) {
        slots.keep(numbering.number(l.var), l);
    }
}
