ghost use Rattle.std.specs.Prelude.{◌≡◌, ◌≤◌, ◌⊎◌, IsTrue, IfOk};
ghost use Rattle.std.specs.List.{All};
ghost use Rattle.refutation_check.specs.declared.lit.SatLit.{SatLit};
ghost use Rattle.refutation_check.specs.Rounds.{round_of};

use crate::SatLit;
use std::alloc::Global;
use xh_outside::NoMemory;

// What is known of a variable.
#[derive(Clone, Copy)]
pub(crate) enum Slot {
    Free,
    // the literal that is true
    Kept(SatLit),
    // the literal that is true in one round
    Noted(SatLit, u64),
}

// Literals that are true, for good or in the round that runs. Each place holds one.
#[derive(Drop)]
pub(crate) struct Slots {
    pub(crate) slots: Vec<Slot>,
    pub(crate) round: u64,
    ghost not_later: { All (λ s. round_of s ≤ round) slots.items },
}

impl Slots {
    ghost use Rattle.refutation_check.specs.Told.{IsKept, IsTold};

    // So many places. No literal is true.
    pub(crate) fn new(alloc: Global, len: usize) -> Result<Slots, NoMemory>
        ensures { IfOk result (λ slots. (l : SatLit) → IsKept slots l → ⊥) }
    {
        Ok(Slots {
            slots: vec![in alloc; Slot::Free; len]?,
            round: 0,
        })
    }

    // Whether a place holds a literal. It may also say no.
    pub(crate) fn has(&self, place: usize, l: SatLit) -> bool
        ensures { IsTrue result → IsTold self.now l }
    {
        match self.slots.get(place) {
            Some(Slot::Kept(k)) => *k == l,
            Some(Slot::Noted(k, round)) => *k == l && *round == self.round,
            Some(Slot::Free) | None => false,
        }
    }

    // Ends a round, so that only what is kept is true. It may also say no, and then nothing is changed.
    pub(crate) fn begin_round(&mut self) -> bool
        ensures kept { (l : SatLit) → IsKept self.new l → IsKept self.old l }
        ensures fresh { IsTrue result → (l : SatLit) → IsTold self.new l → IsKept self.old l }
    {
        match self.round.checked_add(1) {
            Some(round) => {
                self.round = round;
                true
            }
            None => false,
        }
    }

    // Notes a literal at a place, for this round, unless another one is kept there.
    pub(crate) fn note(&mut self, place: usize, l: SatLit)
        ensures kept { (k : SatLit) → IsKept self.new k → IsKept self.old k }
        ensures told { (k : SatLit) → IsTold self.new k → IsTold self.old k ⊎ (l ≡ k) }
    {
        if place >= self.slots.len() || matches!(self.slots[place], Slot::Kept(_)) {
            return;
        }
        self.slots[place] = Slot::Noted(l, self.round);
    }

    // Keeps a literal at a place.
    pub(crate) fn keep(&mut self, place: usize, l: SatLit)
        ensures { (k : SatLit) → IsKept self.new k → IsKept self.old k ⊎ (l ≡ k) }
    {
        if place < self.slots.len() {
            self.slots[place] = Slot::Kept(l);
        }
    }
}
