ghost use Rattle.std.specs.Prelude.{◌≡◌, ◌<◌, ◌≤◌, ◌+◌, ◌-◌, ◌^◌, ◌+ℤ◌, ◌-ℤ◌, ◌*ℤ◌, ◌<ℤ◌, ◌≤ℤ◌, min, Bool, true, List, length, pos, negsuc, if◌then◌else◌, IfOk};
ghost use Rattle.bit_gates.specs.Formulas.{Extends, value_of};
ghost use Rattle.bit_ints.specs.Dividing.{IsNaturalBelow, AreFloored};
ghost use Rattle.bit_ints.specs.Integers.{AreBelow, integer_of, is_within, xor};

use crate::BitInt;
use crate::digit::xor;
use crate::ops::{sub, sum_with_carry};
use crate::products::masked;
use crate::shifts::chosen;
use crate::signs::{flipped_where, is_negative, narrowed, negated_where, with_lowest, zero};
use bit_gates::{Gates, Lit};
use std::alloc::Global;
use xh_outside::NoMemory;

/// A digit of a quotient and what remains, where `rest` remains of the digits above `low`.
fn division_step(
    alloc: Global,
    g: &mut Gates,
    rest: &BitInt,
    divisor: &BitInt,
    low: Lit,
) -> Result<(Lit, BitInt), NoMemory>
    requires rest { AreBelow (length g.old.gates) rest.now }
    requires divisor { AreBelow (length g.old.gates) divisor.now }
    requires low { low.place < length g.old.gates }
    requires some { 1 ≤ length rest.now }
    requires some_divisor { 1 ≤ length divisor.now }
    requires few { length rest.now ≤ 131 }
    requires few_divisor { length divisor.now ≤ 131 }
    ensures width { IfOk result (λ (digit, next). length next ≡ min (length rest.now + 1) (length divisor.now)) }
    ensures below { IfOk result (λ (digit, next). (digit.place < length g.new.gates) × AreBelow (length g.new.gates) next) }
    ensures value { IfOk result (λ (digit, next). (bits : List Bool) → IsNaturalBelow (integer_of g.old.gates bits divisor.now) (integer_of g.old.gates bits rest.now) → integer_of g.new.gates bits next +ℤ (if value_of g.new.gates bits digit then integer_of g.old.gates bits divisor.now else pos 0) ≡ (if value_of g.old.gates bits low then pos 1 else pos 0) +ℤ pos 2 *ℤ integer_of g.old.gates bits rest.now) }
    ensures next { IfOk result (λ (digit, next). (bits : List Bool) → IsNaturalBelow (integer_of g.old.gates bits divisor.now) (integer_of g.old.gates bits rest.now) → IsNaturalBelow (integer_of g.old.gates bits divisor.now) (integer_of g.new.gates bits next)) }
    ensures grown { Extends g.old.gates g.new.gates }
    ensures inputs { g.new.inputs ≡ g.old.inputs }
{
    let double = with_lowest(alloc, low, rest)?;
    let difference = sub(alloc, g, &double, divisor)?;
    let less = is_negative(g, &difference);
    let width = double.len().min(divisor.len());
    let next = chosen(
        alloc,
        g,
        less,
        &double.digits()[..width],
        &difference.digits()[..width],
    )?;
    Ok((g.not(less), BitInt::from_vec(next)))
}

/// The quotient and the remainder of an integer that is not negative by a positive one.
fn divided(
    alloc: Global,
    g: &mut Gates,
    a: &BitInt,
    b: &BitInt,
) -> Result<(BitInt, BitInt), NoMemory>
    requires left { AreBelow (length g.old.gates) a.now }
    requires right { AreBelow (length g.old.gates) b.now }
    requires left_few { length a.now ≤ 131 }
    requires right_few { length b.now ≤ 131 }
    requires right_some { 1 ≤ length b.now }
    ensures quotient_width { IfOk result (λ (q, r). length q ≡ length a.now) }
    ensures remainder_width { IfOk result (λ (q, r). (1 ≤ length r) × (length r ≤ length b.now)) }
    ensures below { IfOk result (λ (q, r). AreBelow (length g.new.gates) q × AreBelow (length g.new.gates) r) }
    ensures value { IfOk result (λ (q, r). (bits : List Bool) → pos 0 ≤ℤ integer_of g.old.gates bits a.now → pos 0 <ℤ integer_of g.old.gates bits b.now → integer_of g.old.gates bits a.now ≡ integer_of g.old.gates bits b.now *ℤ integer_of g.new.gates bits q +ℤ integer_of g.new.gates bits r) }
    ensures remainder { IfOk result (λ (q, r). (bits : List Bool) → pos 0 ≤ℤ integer_of g.old.gates bits a.now → pos 0 <ℤ integer_of g.old.gates bits b.now → IsNaturalBelow (integer_of g.old.gates bits b.now) (integer_of g.new.gates bits r)) }
    ensures grown { Extends g.old.gates g.new.gates }
    ensures inputs { g.new.inputs ≡ g.old.inputs }
{
    let last = a.len() - 1;
    let mut quotient = zero(alloc, g)?;
    let mut rest = zero(alloc, g)?;
    for i in 0..last {
        let (digit, next) = division_step(alloc, g, &rest, b, a.lit(last - 1 - i))?;
        let more = with_lowest(alloc, digit, &quotient)?;
        quotient = more;
        rest = next;
    }
    Ok((quotient, rest))
}

/// The remainder with its signs: of what remains where `below` says that the dividend and `negative` that the divisor
/// is negative.
fn signed_remainder(
    alloc: Global,
    g: &mut Gates,
    b: &BitInt,
    rest: &BitInt,
    below: Lit,
    negative: Lit,
) -> Result<BitInt, NoMemory>
    requires divisor { AreBelow (length g.old.gates) b.now }
    requires rest { AreBelow (length g.old.gates) rest.now }
    requires below { below.place < length g.old.gates }
    requires negative { negative.place < length g.old.gates }
    requires some { 1 ≤ length b.now }
    requires few { length b.now ≤ 130 }
    requires rest_some { 1 ≤ length rest.now }
    requires rest_few { length rest.now ≤ 131 }
    ensures width { IfOk result (λ r. length r ≡ length b.now) }
    ensures below { IfOk result (λ r. AreBelow (length g.new.gates) r) }
    ensures value { IfOk result (λ r. (bits : List Bool) →
        let s = value_of g.old.gates bits below in
        let n = value_of g.old.gates bits negative in
        let x = integer_of g.old.gates bits rest.now in
        let y = integer_of g.old.gates bits b.now in
        let sum = (if xor s n then negsuc 0 -ℤ x else x) +ℤ (if s then y else pos 0) +ℤ (if n then pos 1 else pos 0) in
        is_within (2 ^ (length b.now - 1)) sum ≡ true → integer_of g.new.gates bits r ≡ sum) }
    ensures grown { Extends g.old.gates g.new.gates }
    ensures inputs { g.new.inputs ≡ g.old.inputs }
{
    let differ = xor(g, below, negative)?;
    let flipped = flipped_where(alloc, g, rest, differ)?;
    let row = masked(alloc, g, b, below)?;
    let sum = sum_with_carry(alloc, g, &flipped, &row, negative)?;
    let remainder = narrowed(alloc, &sum, b.len())?;
    Ok(remainder)
}

/// The quotient, rounded down, and the remainder, which has the divisor's sign. The quotient is one digit wider than a,
/// and the remainder as wide as b.
pub fn div_mod(
    alloc: Global,
    g: &mut Gates,
    a: &BitInt,
    b: &BitInt,
) -> Result<(BitInt, BitInt), NoMemory>
    requires left { AreBelow (length g.old.gates) a.now }
    requires right { AreBelow (length g.old.gates) b.now }
    requires left_few { length a.now ≤ 130 }
    requires right_few { length b.now ≤ 130 }
    ensures quotient_width { IfOk result (λ (q, r). length q ≡ length a.now + 1) }
    ensures remainder_width { IfOk result (λ (q, r). length r ≡ length b.now) }
    ensures below { IfOk result (λ (q, r). AreBelow (length g.new.gates) q × AreBelow (length g.new.gates) r) }
    ensures value { IfOk result (λ (q, r). (bits : List Bool) → ¬ (integer_of g.old.gates bits b.now ≡ pos 0) → AreFloored (integer_of g.old.gates bits a.now) (integer_of g.old.gates bits b.now) (integer_of g.new.gates bits q) (integer_of g.new.gates bits r)) }
    ensures grown { Extends g.old.gates g.new.gates }
    ensures inputs { g.new.inputs ≡ g.old.inputs }
{
    let negative = is_negative(g, b);
    let dividend = negated_where(alloc, g, a, negative)?;
    let divisor = negated_where(alloc, g, b, negative)?;
    let below = is_negative(g, &dividend);
    // In place of a negative dividend -1 less it is divided. The quotient, rounded down, is then -1 less what comes out.
    let size = flipped_where(alloc, g, &dividend, below)?;
    let (digits, rest) = divided(alloc, g, &size, &divisor)?;
    let quotient = flipped_where(alloc, g, &digits, below)?;
    let remainder = signed_remainder(alloc, g, b, &rest, below, negative)?;
    Ok((quotient, remainder))
}
