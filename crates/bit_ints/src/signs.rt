ghost use Rattle.std.specs.Prelude.{◌≡◌, ◌<◌, ◌≤◌, ◌+◌, ◌-ℤ◌, neg_ℤ, Bool, List, ◌∷◌, length, take, int_lt, pos, negsuc, if◌then◌else◌, IfOk};
ghost use Rattle.bit_gates.specs.Formulas.{Extends, value_of};
ghost use Rattle.bit_ints.specs.Integers.{AreBelow, integer_of};

use crate::BitInt;
use crate::lists::Operation;
use crate::ops::{digit_by_digit, sum_with_carry};
use bit_gates::{Gates, Lit};
use std::alloc::Global;
use xh_outside::NoMemory;

/// The integer 0.
pub(crate) fn zero(alloc: Global, g: &Gates) -> Result<BitInt, NoMemory>
    ensures width { IfOk result (λ n. length n ≡ 1) }
    ensures below { IfOk result (λ n. AreBelow (length g.now.gates) n) }
    ensures value { IfOk result (λ n. (bits : List Bool) → integer_of g.now.gates bits n ≡ pos 0) }
{
    BitInt::from_lits(alloc, &[g.constant(false)])
}

/// Whether it is negative.
pub(crate) fn is_negative(g: &Gates, n: &BitInt) -> Lit
    requires { AreBelow (length g.now.gates) n.now }
    ensures below { result.place < length g.now.gates }
    ensures value { (bits : List Bool) → value_of g.now.gates bits result ≡ int_lt (integer_of g.now.gates bits n.now) (pos 0) }
{
    // The contract alone needs the arena.
    let _ = g;
    n.lit(n.len() - 1)
}

/// The integer with one more digit, the lowest.
pub(crate) fn with_lowest(alloc: Global, low: Lit, n: &BitInt) -> Result<BitInt, NoMemory>
    requires { length n.now ≤ 263 }
    ensures { IfOk result (λ more. more ≡ low ∷ n.now) }
{
    let mut digits = Vec::new(alloc);
    digits.push(low)?;
    digits.extend_from_slice(n.digits())?;
    Ok(BitInt::from_vec(digits))
}

/// The integer of so many digits, from the lowest.
pub(crate) fn narrowed(alloc: Global, n: &BitInt, width: usize) -> Result<BitInt, NoMemory>
    requires some { 1 ≤ width }
    requires within { width ≤ length n.now }
    ensures { IfOk result (λ few. few ≡ take width n.now) }
{
    let mut digits = Vec::new(alloc);
    digits.extend_from_slice(&n.digits()[..width])?;
    Ok(BitInt::from_vec(digits))
}

/// Each digit negated where the literal is true: -1 less the integer.
pub(crate) fn flipped_where(
    alloc: Global,
    g: &mut Gates,
    n: &BitInt,
    by: Lit,
) -> Result<BitInt, NoMemory>
    requires below { AreBelow (length g.old.gates) n.now }
    requires by { by.place < length g.old.gates }
    ensures some { IfOk result (λ _. 1 ≤ length n.now) }
    ensures width { IfOk result (λ r. length r ≡ length n.now) }
    ensures below { IfOk result (λ r. AreBelow (length g.new.gates) r) }
    ensures value { IfOk result (λ r. (bits : List Bool) → integer_of g.new.gates bits r ≡ (if value_of g.old.gates bits by then negsuc 0 -ℤ integer_of g.old.gates bits n.now else integer_of g.old.gates bits n.now)) }
    ensures grown { Extends g.old.gates g.new.gates }
    ensures inputs { g.new.inputs ≡ g.old.inputs }
{
    let mask = BitInt::from_lits(alloc, &[by])?;
    let flipped = digit_by_digit(alloc, g, Operation::Xor, n, &mask)?;
    Ok(flipped)
}

/// The integer negated where the literal is true, one digit wider.
pub(crate) fn negated_where(
    alloc: Global,
    g: &mut Gates,
    n: &BitInt,
    by: Lit,
) -> Result<BitInt, NoMemory>
    requires below { AreBelow (length g.old.gates) n.now }
    requires by { by.place < length g.old.gates }
    requires few { length n.now ≤ 263 }
    ensures some { IfOk result (λ _. 1 ≤ length n.now) }
    ensures width { IfOk result (λ r. length r ≡ length n.now + 1) }
    ensures below { IfOk result (λ r. AreBelow (length g.new.gates) r) }
    ensures value { IfOk result (λ r. (bits : List Bool) → integer_of g.new.gates bits r ≡ (if value_of g.old.gates bits by then neg_ℤ (integer_of g.old.gates bits n.now) else integer_of g.old.gates bits n.now)) }
    ensures grown { Extends g.old.gates g.new.gates }
    ensures inputs { g.new.inputs ≡ g.old.inputs }
{
    let flipped = flipped_where(alloc, g, n, by)?;
    let none = zero(alloc, g)?;
    let negated = sum_with_carry(alloc, g, &flipped, &none, by)?;
    Ok(negated)
}
