ghost use Rattle.std.specs.Prelude.{◌≡◌, [], ◌∷◌, ◌++◌, length, slice_get, OnOk, OnErr};
ghost use Rattle.std.specs.Option.{option_copied};

use crate::clauses::Clause;
use crate::reasons::{Reason, Reasons};
use crate::{Clauses, SatLit};
use std::alloc::Global;
use std::marker::Model;
use xh_outside::NoMemory;

/// A list of clauses, each of which is to follow from those before it and from the clauses that are refuted.
#[derive(Drop)]
pub struct Refutation {
    steps: Clauses,
    // where the clauses follow from, as whoever made them says
    reasons: Reasons,
}

impl Model for Refutation {
    ghost use Rattle.std.specs.Prelude.{List};
    ghost use Rattle.refutation_check.specs.declared.lit.SatLit.{SatLit};

    ghost Value = { List (List SatLit) };

    ghost view = { λ r. r.steps };
}

impl Refutation {
    /// No clauses. It takes no memory yet.
    pub fn new(alloc: Global) -> Refutation
        ensures { result ≡ [] }
    {
        Refutation {
            steps: Clauses::new(alloc),
            reasons: Reasons::new(alloc),
        }
    }

    /// Appends a clause. Where there is no memory for it, the list stays as it was.
    pub fn push(&mut self, clause: &[SatLit]) -> Result<(), NoMemory>
        ensures ok { OnOk result (self.new ≡ self.old ++ clause.now ∷ []) }
        ensures refused { OnErr result (self.new ≡ self.old) }
    {
        self.steps.push(clause)
    }

    /// Appends a clause with a reason, which may make it faster to check. Where there is no memory for it, the list stays
    /// as it was.
    pub fn push_with_reason(
        &mut self,
        clause: &[SatLit],
        reason: Reason<'_>,
    ) -> Result<(), NoMemory>
        ensures ok { OnOk result (self.new ≡ self.old ++ clause.now ∷ []) }
        ensures refused { OnErr result (self.new ≡ self.old) }
    {
        self.reasons.put(self.steps.len(), reason)?;
        self.steps.push(clause)
    }

    /// The number of clauses.
    pub fn len(&self) -> usize
        ensures { result ≡ length self.now }
    {
        self.steps.len()
    }

    /// The clause at place `i`, counted from 0. It is None exactly where `i` is not below the length.
    pub fn get(&self, i: usize) -> Option<&[SatLit]>
        ensures { option_copied result ≡ slice_get self.now i }
    {
        self.steps.get(i)
    }

    // All clauses.
    pub(crate) fn as_slice(&self) -> &[Clause]
        ensures { result.now ≡ self.now }
    {
        self.steps.as_slice()
    }

    // The reasons of the clauses.
    pub(crate) fn reasons(&self) -> &Reasons {
        &self.reasons
    }
}
