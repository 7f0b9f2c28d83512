ghost use Rattle.std.specs.Prelude.{◌≡◌, List, [], ◌∷◌, ◌++◌, length, slice_get, IfOk, OnOk, OnErr};
ghost use Rattle.std.specs.Option.{option_copied};

use crate::SatLit;
use std::alloc::Global;
use std::marker::Model;
use xh_outside::NoMemory;

/// A clause that is owned.
#[derive(Drop)]
pub(crate) struct Clause {
    lits: Vec<SatLit>,
}

impl Model for Clause {
    ghost use Rattle.std.specs.Prelude.{List};
    ghost use Rattle.refutation_check.specs.declared.lit.SatLit.{SatLit};

    ghost Value = { List SatLit };

    ghost view = { λ c. c.lits.items };
}

impl Clause {
    // A copy of the literals.
    fn from_slice(alloc: Global, lits: &[SatLit]) -> Result<Clause, NoMemory>
        ensures { IfOk result (λ clause. clause ≡ lits.now) }
    {
        Ok(Clause {
            lits: Vec::from_slice(alloc, lits)?,
        })
    }

    // The literals.
    pub(crate) fn as_slice(&self) -> &[SatLit]
        ensures { result.now ≡ self.now }
    {
        self.lits.as_slice()
    }
}

/// A list of clauses, each a list of literals.
#[derive(Drop)]
pub struct Clauses {
    alloc: Global,
    clauses: Vec<Clause>,
}

impl Model for Clauses {
    ghost use Rattle.std.specs.Prelude.{List};
    ghost use Rattle.refutation_check.specs.declared.lit.SatLit.{SatLit};

    ghost Value = { List (List SatLit) };

    ghost view = { λ c. c.clauses.items };
}

impl Clauses {
    /// No clauses. It takes no memory yet.
    pub fn new(alloc: Global) -> Clauses
        ensures { result ≡ [] }
    {
        Clauses {
            alloc,
            clauses: Vec::new(alloc),
        }
    }

    /// Appends a clause. Where there is no memory for it, the list stays as it was.
    pub fn push(&mut self, clause: &[SatLit]) -> Result<(), NoMemory>
        ensures ok { OnOk result (self.new ≡ self.old ++ clause.now ∷ []) }
        ensures refused { OnErr result (self.new ≡ self.old) }
    {
        let kept = Clause::from_slice(self.alloc, clause)?;
        self.clauses.push(kept)?;
        Ok(())
    }

    /// The number of clauses.
    pub fn len(&self) -> usize
        ensures { result ≡ length self.now }
    {
        self.clauses.len()
    }

    /// The clause at place `i`, counted from 0. It is None exactly where `i` is not below the length.
    pub fn get(&self, i: usize) -> Option<&[SatLit]>
        ensures { option_copied result ≡ slice_get self.now i }
    {
        match self.clauses.get(i) {
            Some(clause) => Some(clause.as_slice()),
            None => None,
        }
    }

    // All clauses.
    pub(crate) fn as_slice(&self) -> &[Clause]
        ensures { result.now ≡ self.now }
    {
        self.clauses.as_slice()
    }
}
