ghost use Rattle.std.specs.Prelude.{◌≡◌, ◌==◌, [], ◌∷◌, ◌++◌, length, slice_get, OnOk, OnErr};

use std::alloc::Global;
use std::marker::Model;
use xh_outside::NoMemory;

/// Truth values, one for each input.
#[derive(Drop)]
pub struct Bits {
    values: Vec<bool>,
}

impl Model for Bits {
    ghost use Rattle.std.specs.Prelude.{List, Bool};

    ghost Value = { List Bool };

    ghost view = { λ b. b.values.items };
}

impl Bits {
    /// No truth values.
    pub fn new(alloc: Global) -> Bits
        ensures { result ≡ [] }
    {
        Bits {
            values: Vec::new(alloc),
        }
    }

    /// Appends one. A refusal leaves them as they were.
    pub fn push(&mut self, b: bool) -> Result<(), NoMemory>
        ensures ok { OnOk result (self.new ≡ self.old ++ b ∷ []) }
        ensures refused { OnErr result (self.new ≡ self.old) }
    {
        self.values.push(b)?;
        Ok(())
    }

    /// How many there are.
    pub fn len(&self) -> usize
        ensures { result ≡ length self.now }
    {
        self.values.len()
    }

    /// Whether there are none.
    pub fn is_empty(&self) -> bool
        ensures { result ≡ (length self.now == 0) }
    {
        self.values.is_empty()
    }

    /// The one of this number, from 0. None exactly where the number is not below the length.
    pub fn get(&self, i: usize) -> Option<bool>
        ensures { result ≡ slice_get self.now i }
    {
        self.values.get(i).copied()
    }
}
