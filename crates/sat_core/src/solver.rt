ghost use Rattle.std.specs.Prelude.{◌≡◌, [], ◌∷◌, ◌++◌, IfOk, OnOk, OnErr};
ghost use Rattle.sat_core.specs.Models.{IsAnswer};

use crate::Solved;
use crate::learning::{Learning, learn};
use crate::search::search;
use crate::variables::variables;
use refutation_check::{Clauses, Refutation, SatLit};
use std::alloc::Global;
use std::marker::Model;
use xh_outside::NoMemory;

/// Clauses that are added, and questions about them.
#[derive(Drop)]
pub struct Solver {
    alloc: Global,
    clauses: Clauses,
}

impl Model for Solver {
    ghost use Rattle.std.specs.Prelude.{List};
    ghost use Rattle.refutation_check.specs.declared.lit.SatLit.{SatLit};

    ghost Value = { List (List SatLit) };

    ghost view = { λ s. s.clauses };
}

impl Solver {
    /// A solver without clauses. It takes no memory yet.
    pub fn new(alloc: Global) -> Solver
        ensures { result ≡ [] }
    {
        Solver {
            alloc,
            clauses: Clauses::new(alloc),
        }
    }

    /// Adds a clause. Where there is no memory for it, the clauses stay as they were.
    pub fn add_clause(&mut self, clause: &[SatLit]) -> Result<(), NoMemory>
        ensures ok { OnOk result (self.new ≡ self.old ++ clause.now ∷ []) }
        ensures refused { OnErr result (self.new ≡ self.old) }
    {
        self.clauses.push(clause)
    }

    /// The clauses that were added, in their order.
    pub fn clauses(&self) -> &Clauses
        ensures { result.now ≡ self.now }
    {
        &self.clauses
    }

    /// A model of the clauses in which the assumptions are true too, or a refutation. The assumptions belong to this
    /// call alone.
    pub fn solve(&mut self, assumptions: &[SatLit]) -> Result<Solved, NoMemory>
        ensures answer { IfOk result (IsAnswer self.old assumptions.now) }
        ensures kept { self.new ≡ self.old }
    {
        let mut refutation = Refutation::new(self.alloc);
        match learn(self.alloc, &self.clauses, assumptions, &mut refutation)? {
            Learning::Model(model) => return Ok(Solved::Sat(model)),
            Learning::Refuted => return Ok(Solved::Unsat(refutation)),
            Learning::Open => {}
        }
        let vars = variables(self.alloc, &self.clauses, assumptions)?;
        match search(
            self.alloc,
            &self.clauses,
            assumptions,
            &vars,
            &[],
            &mut refutation,
        )? {
            Some(model) => Ok(Solved::Sat(model)),
            None => Ok(Solved::Unsat(refutation)),
        }
    }
}
