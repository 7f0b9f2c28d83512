ghost use Rattle.std.specs.Prelude.{◌≡◌, ◌↔◌, ℕ, Contains, IsTrue, IfOk};
ghost use Rattle.sat_core.specs.Models.{model_value};

use refutation_check::{Refutation, SatLit};
use std::alloc::Global;
use std::marker::Model;
use xh_outside::NoMemory;

/// An assignment that makes all clauses and assumptions true. A variable that it does not name is false.
#[derive(Drop)]
pub struct SatModel {
    // the variables that are true, in ascending order
    vars: Vec<usize>,
}

impl Model for SatModel {
    ghost use Rattle.std.specs.Prelude.{List};
    ghost use Rattle.std.specs.Ordering.{nat_cmp};
    ghost use Rattle.std.specs.List.Sorted.{IsSorted};
    ghost use Rattle.refutation_check.specs.declared.lit.SatLit.{SatLit};
    ghost use Rattle.sat_core.specs.Variables.{true_literals};

    ghost Value = { List SatLit };

    ghost view = { λ m. true_literals m.vars.items };

    ghost invariant = { λ m. IsSorted nat_cmp m.vars.items };
}

impl SatModel {
    // The assignment in which these variables are true.
    pub(crate) fn new(mut vars: Vec<usize>) -> SatModel
        ensures { (x : ℕ) → IsTrue (model_value result x) ↔ Contains vars.items x }
    {
        vars.sort_unstable();
        SatModel { vars }
    }

    // The assignment in which these literals are true.
    pub(crate) fn from_literals(alloc: Global, lits: &[SatLit]) -> Result<SatModel, NoMemory>
        ensures { IfOk result (λ model. (x : ℕ) → model_value model x ≡ model_value lits.now x) }
    {
        let mut vars = Vec::new(alloc);
        for l in lits {
            if !l.positive {
                continue;
            }
            vars.push(l.var)?;
        }
        Ok(SatModel::new(vars))
    }

    /// The value of a variable.
    pub fn value(&self, var: usize) -> bool
        ensures { result ≡ model_value self.now var }
    {
        self.vars.binary_search(&var).is_ok()
    }
}

/// What a solver answers.
#[derive(Drop)]
pub enum Solved {
    /// All clauses and assumptions are true in this model.
    Sat(SatModel),
    /// They have no model, as this refutation shows.
    Unsat(Refutation),
}
