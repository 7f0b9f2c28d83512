ghost use Rattle.std.specs.Prelude.{◌≡◌, ◌++◌, ◌⊎◌, Contains, IsTrue, IfOk};
ghost use Rattle.refutation_check.specs.declared.lit.SatLit.{SatLit};
ghost use Rattle.refutation_check.specs.Propagation.{AreForced};
ghost use Rattle.refutation_check.specs.Refutations.{Follows};

use crate::clauses::Clause;
use crate::hints::{keep_forced, shows};
use crate::slots::Slots;
use crate::{Clauses, Reason, Refutation, SatLit};
use std::alloc::Global;
use std::marker::Model;
use unit_propagation::Numbering;
use xh_outside::NoMemory;

/// Literals that are known to be forced.
#[derive(Drop)]
pub struct Known {
    numbering: Numbering,
    slots: Slots,
}

impl Model for Known {
    ghost use Rattle.std.specs.Prelude.{List};
    ghost use Rattle.refutation_check.specs.declared.lit.SatLit.{SatLit};
    ghost use Rattle.refutation_check.specs.Told.{kept_in};

    ghost Value = { List SatLit };

    ghost view = { λ k. kept_in k.slots };
}

// Adds the variables of literals to others.
fn add_variables(vars: &mut Vec<usize>, lits: &[SatLit]) -> Result<(), NoMemory> {
    for l in lits {
        vars.push(l.var)?;
    }
    Ok(())
}

// A numbering of the variables of clauses and literals.
fn numbering(
    alloc: Global,
    clauses: &[Clause],
    more: &[Clause],
    lits: &[SatLit],
) -> Result<Numbering, NoMemory> {
    let mut vars = Vec::new(alloc);
    add_variables(&mut vars, lits)?;
    for clause in clauses {
        add_variables(&mut vars, clause.as_slice())?;
    }
    for clause in more {
        add_variables(&mut vars, clause.as_slice())?;
    }
    Ok(Numbering::new(vars))
}

impl Known {
    /// What is known of clauses and a refutation at first: the assumptions.
    pub fn new(
        alloc: Global,
        clauses: &Clauses,
        assumptions: &[SatLit],
        refutation: &Refutation,
    ) -> Result<Known, NoMemory>
        ensures { IfOk result (λ known. (l : SatLit) → Contains known l → Contains assumptions.now l) }
    {
        Known::from_slices(
            alloc,
            clauses.as_slice(),
            assumptions,
            refutation.as_slice(),
        )
    }

    // The same, of two lists of clauses.
    pub(crate) fn from_slices(
        alloc: Global,
        clauses: &[Clause],
        assumptions: &[SatLit],
        more: &[Clause],
    ) -> Result<Known, NoMemory>
        ensures { IfOk result (λ known. (l : SatLit) → Contains known l → Contains assumptions.now l) }
    {
        let numbering = numbering(alloc, clauses, more, assumptions)?;
        let mut known = Known::with_numbering(alloc, numbering)?;
        known.assume_all(assumptions);
        Ok(known)
    }

    // Nothing is known. There is room for one literal of each number of a variable.
    fn with_numbering(alloc: Global, numbering: Numbering) -> Result<Known, NoMemory>
        ensures { IfOk result (λ known. (l : SatLit) → Contains known l → ⊥) }
    {
        let slots = Slots::new(alloc, numbering.count())?;
        Ok(Known { numbering, slots })
    }

    // Takes literals for forced, where nothing is known.
    fn assume_all(&mut self, lits: &[SatLit])
        requires { (l : SatLit) → Contains self.old l → ⊥ }
        ensures { (l : SatLit) → Contains self.new l → Contains lits.now l }
    {
        for l in lits {
            self.assume(*l);
        }
    }

    /// The numbers of the variables.
    pub fn numbering(&self) -> &Numbering {
        &self.numbering
    }

    // Takes a literal for forced.
    fn assume(&mut self, l: SatLit)
        ensures { (k : SatLit) → Contains self.new k → Contains self.old k ⊎ (l ≡ k) }
    {
        self.slots.keep(self.numbering.number(l.var), l);
    }

    /// Whether a clause follows from what is known and the clauses, as a reason of it shows, where the clauses of a
    /// refutation stand behind the others. A no says nothing. What the causes of the reason force is known from then on.
    pub fn shows(
        &mut self,
        clauses: &Clauses,
        refutation: &Refutation,
        clause: &[SatLit],
        reason: Reason<'_>,
    ) -> bool
        ensures forced { AreForced (clauses.now ++ refutation.now) self.old self.new }
        ensures shown { IsTrue result → Follows (clauses.now ++ refutation.now) self.old clause.now }
    {
        self.shows_from(clauses.as_slice(), refutation.as_slice(), clause, reason)
    }

    // The same, of two lists of clauses.
    pub(crate) fn shows_from(
        &mut self,
        clauses: &[Clause],
        more: &[Clause],
        clause: &[SatLit],
        reason: Reason<'_>,
    ) -> bool
        ensures forced { AreForced (clauses.now ++ more.now) self.old self.new }
        ensures shown { IsTrue result → Follows (clauses.now ++ more.now) self.old clause.now }
    {
        self.learn_all(clauses, more, reason.causes);
        self.shows_by(clauses, more, clause, reason.hints)
    }

    // Has it known what clauses force, one after the other.
    fn learn_all(&mut self, clauses: &[Clause], more: &[Clause], places: &[usize])
        ensures { AreForced (clauses.now ++ more.now) self.old self.new }
    {
        for place in places {
            self.learn(clauses, more, *place);
        }
    }

    // Looks at the clause at a place: where all its literals but one are known to be false, that one is known too.
    fn learn(&mut self, clauses: &[Clause], more: &[Clause], place: usize)
        ensures { AreForced (clauses.now ++ more.now) self.old self.new }
    {
        keep_forced(&mut self.slots, &self.numbering, clauses, more, place);
    }

    // Whether a clause follows, as the clauses at some places show, one after the other. A no says nothing.
    fn shows_by(
        &mut self,
        clauses: &[Clause],
        more: &[Clause],
        clause: &[SatLit],
        hints: &[usize],
    ) -> bool
        ensures kept { (l : SatLit) → Contains self.new l → Contains self.old l }
        ensures shown { IsTrue result → Follows (clauses.now ++ more.now) self.old clause.now }
    {
        shows(
            &mut self.slots,
            &self.numbering,
            clauses,
            more,
            clause,
            hints,
        )
    }
}
