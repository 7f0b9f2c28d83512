ghost use Rattle.std.specs.Prelude.{◌≡◌, ◌<◌, true, false, length, replicate, slice_get, slice_set, Some, IfOk, OnErr, OnOk};

use py_tree::NameId;
use std::alloc::Global;
use std::marker::Model;
use xh_outside::NoMemory;

/// A set of the names of a module. Contracts see it as a list that tells of each name whether it is in the set.
#[derive(Drop)]
pub struct NameSet {
    alloc: Global,
    // the round in which each name was last added, and 0 where it was left out since
    rounds: Vec<u64>,
    // the round that counts, which begins where the set is cleared
    round: u64,
}

impl Model for NameSet {
    ghost use Rattle.std.specs.Prelude.{List, Bool, map, ◌==◌, ◌≤◌, ◌<◌};
    ghost use Rattle.std.specs.List.{All};

    ghost Value = { List Bool };

    ghost view = { λ s. map (λ r. r == s.round) s.rounds.items };

    ghost invariant = { λ s. (0 < s.round) × All (λ r. r ≤ s.round) s.rounds.items };
}

impl NameSet {
    /// The empty set, for a module with so many names.
    pub fn new(alloc: Global, names: usize) -> Result<NameSet, NoMemory>
        ensures { IfOk result (λ s. s ≡ replicate names false) }
    {
        Ok(NameSet {
            alloc,
            rounds: vec![in alloc; 0; names]?,
            round: 1,
        })
    }

    /// Leaves no name in the set. There is no error but want of memory, which comes once in 2^64 calls at most and leaves
    /// the set as it was.
    pub fn clear(&mut self) -> Result<(), NoMemory>
        ensures cleared { OnOk result (self.new ≡ replicate (length self.old) false) }
        ensures refused { OnErr result (self.new ≡ self.old) }
    {
        match self.round.checked_add(1) {
            Some(round) => self.round = round,
            None => {
                self.rounds = vec![in self.alloc; 0; self.rounds.len()]?;
                self.round = 1;
            }
        }
        Ok(())
    }

    /// Whether a name is in the set.
    pub fn contains(&self, name: NameId) -> bool
        requires { name.index < length self.now }
        ensures { slice_get self.now name.index ≡ Some result }
    {
        self.rounds[name.index] == self.round
    }

    /// Adds a name.
    pub fn insert(&mut self, name: NameId)
        requires { name.index < length self.old }
        ensures { self.new ≡ slice_set self.old name.index true }
    {
        self.rounds[name.index] = self.round;
    }

    /// Adds a name, or leaves it out.
    pub fn set(&mut self, name: NameId, is_in: bool)
        requires { name.index < length self.old }
        ensures { self.new ≡ slice_set self.old name.index is_in }
    {
        if is_in {
            self.insert(name);
        } else {
            self.rounds[name.index] = 0;
        }
    }
}
