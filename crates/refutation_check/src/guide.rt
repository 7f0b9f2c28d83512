use crate::SatLit;
use crate::clauses::Clause;
use std::alloc::Global;
use unit_propagation::{Literal, Numbering, Propagator, Value};
use xh_outside::NoMemory;

// Finds the clauses from which it comes that others follow. What it finds is not proved.
#[derive(Drop)]
pub(crate) struct Guide {
    alloc: Global,
    propagator: Propagator,
}

// The literals of a clause under a numbering.
fn literals(
    alloc: Global,
    numbering: &Numbering,
    clause: &[SatLit],
) -> Result<Vec<Literal>, NoMemory> {
    let mut literals = Vec::new(alloc);
    for l in clause {
        literals.push(Literal::new(numbering.number(l.var), l.positive))?;
    }
    Ok(literals)
}

impl Guide {
    // Begins with literals that are true, and without clauses.
    pub(crate) fn new(
        alloc: Global,
        numbering: &Numbering,
        assumptions: &[SatLit],
    ) -> Result<Guide, NoMemory> {
        let mut guide = Guide {
            alloc,
            propagator: Propagator::new(alloc, numbering.count())?,
        };
        guide.assume(&literals(alloc, numbering, assumptions)?)?;
        Ok(guide)
    }

    // Adds those of two lists of clauses that were not added before. The lists may have grown at their end since.
    pub(crate) fn catch_up(
        &mut self,
        numbering: &Numbering,
        clauses: &[Clause],
        more: &[Clause],
    ) -> Result<(), NoMemory> {
        let added = self.propagator.len();
        self.add_from(numbering, clauses, added)?;
        let added = self.propagator.len().saturating_sub(clauses.len());
        self.add_from(numbering, more, added)
    }

    // Adds the clauses of a list from a place on.
    fn add_from(
        &mut self,
        numbering: &Numbering,
        clauses: &[Clause],
        from: usize,
    ) -> Result<(), NoMemory> {
        for i in from..clauses.len() {
            self.add(numbering, clauses[i].as_slice())?;
        }
        Ok(())
    }

    // Makes literals true whose values are open.
    fn assume(&mut self, lits: &[Literal]) -> Result<(), NoMemory> {
        for l in lits {
            if self.propagator.value(*l) == Value::Open {
                self.propagator.assign(*l, None)?;
            }
        }
        Ok(())
    }

    // Adds a clause behind the others.
    fn add(&mut self, numbering: &Numbering, clause: &[SatLit]) -> Result<(), NoMemory> {
        let literals = literals(self.alloc, numbering, clause)?;
        self.propagator.add_clause(literals)
    }

    // The places of the clauses that force literals, in their order, without those that it gave before.
    pub(crate) fn new_causes(&mut self) -> Result<Vec<usize>, NoMemory> {
        let _ = self.propagator.propagate()?;
        self.propagator.new_causes()
    }

    // The places of the clauses that are to show that a clause follows.
    pub(crate) fn hints(
        &mut self,
        numbering: &Numbering,
        clause: &[SatLit],
    ) -> Result<Vec<usize>, NoMemory> {
        let literals = literals(self.alloc, numbering, clause)?;
        self.propagator.begin_level()?;
        for l in &literals {
            if self.propagator.value(*l) == Value::Open {
                self.propagator.assign(l.negated(), None)?;
            }
        }
        let hints = match self.propagator.propagate()? {
            Some(place) => self.propagator.causes(place)?,
            None => Vec::new(self.alloc),
        };
        self.propagator.backtrack(0);
        Ok(hints)
    }
}
