ghost use Rattle.std.specs.Prelude.{◌≡◌, ◌<◌, ◌≤◌, length, slice_get, Some, IfOk};

use bit_gates::Lit;
use std::alloc::Global;
use std::marker::Model;
use xh_outside::NoMemory;

/// An integer in two's complement, as literals from the lowest digit to the sign.
#[derive(Drop)]
pub struct BitInt {
    lits: Vec<Lit>,
}

impl Model for BitInt {
    ghost use Rattle.std.specs.Prelude.{List, ◌≤◌, length};
    ghost use Rattle.bit_gates.specs.declared.lit.Lit.{Lit};

    ghost Value = { List Lit };

    ghost view = { λ n. n.lits.items };

    ghost invariant = { λ n. (1 ≤ length n.lits.items) × (length n.lits.items ≤ 264) };
}

impl BitInt {
    /// The integer of these literals.
    pub fn from_lits(alloc: Global, lits: &[Lit]) -> Result<BitInt, NoMemory>
        requires some { 1 ≤ length lits.now }
        requires few { length lits.now ≤ 130 }
        ensures { IfOk result (λ n. n ≡ lits.now) }
    {
        let mut copy = Vec::new(alloc);
        copy.extend_from_slice(lits)?;
        Ok(BitInt::from_vec(copy))
    }

    /// The integer of these literals.
    pub(crate) fn from_vec(lits: Vec<Lit>) -> BitInt
        requires some { 1 ≤ length lits.items }
        requires few { length lits.items ≤ 264 }
        ensures { result ≡ lits.items }
    {
        BitInt { lits }
    }

    /// The number of digits.
    pub fn len(&self) -> usize
        ensures digits { result ≡ length self.now }
        ensures some { 1 ≤ result }
        ensures few { result ≤ 264 }
    {
        self.lits.len()
    }

    /// The digit at a place.
    pub fn lit(&self, i: usize) -> Lit
        requires { i < length self.now }
        ensures { slice_get self.now i ≡ Some result }
    {
        self.lits[i]
    }

    /// All the digits.
    pub(crate) fn digits(&self) -> &[Lit]
        ensures digits { result.now ≡ self.now }
        ensures some { 1 ≤ length self.now }
        ensures few { length self.now ≤ 264 }
    {
        self.lits.as_slice()
    }
}
