ghost use Rattle.std.specs.Prelude.{◌≡◌, ◌<◌, ◌≤◌, ◌+◌, ◌+ℤ◌, ◌*ℤ◌, Bool, List, ◌∷◌, length, drop, pos, if◌then◌else◌, IfOk};
ghost use Rattle.bit_gates.specs.Formulas.{Extends, value_of};
ghost use Rattle.bit_ints.specs.Integers.{AreBelow, integer_of};

use crate::BitInt;
use crate::lists::Operation;
use crate::ops::{add, digit_by_digit, sub};
use bit_gates::{Gates, Lit};
use std::alloc::Global;
use xh_outside::NoMemory;

/// The integer where the literal is true, and else 0.
pub(crate) fn masked(alloc: Global, g: &mut Gates, a: &BitInt, by: Lit) -> Result<BitInt, NoMemory>
    requires left { AreBelow (length g.old.gates) a.now }
    requires by { by.place < length g.old.gates }
    requires some { 1 ≤ length a.now }
    requires few { length a.now ≤ 130 }
    ensures width { IfOk result (λ n. length n ≡ length a.now) }
    ensures below { IfOk result (λ n. AreBelow (length g.new.gates) n) }
    ensures value { IfOk result (λ n. (bits : List Bool) → integer_of g.new.gates bits n ≡ (if value_of g.old.gates bits by then integer_of g.old.gates bits a.now else pos 0)) }
    ensures grown { Extends g.old.gates g.new.gates }
    ensures inputs { g.new.inputs ≡ g.old.inputs }
{
    let mask = BitInt::from_lits(alloc, &[by])?;
    let row = digit_by_digit(alloc, g, Operation::And, a, &mask)?;
    Ok(row)
}

/// The integer without its lowest digit.
fn without_lowest(alloc: Global, n: &BitInt) -> Result<BitInt, NoMemory>
    requires some { 2 ≤ length n.now }
    requires few { length n.now ≤ 131 }
    ensures { IfOk result (λ rest. rest ≡ drop 1 n.now) }
{
    let digits = n.digits();
    BitInt::from_lits(alloc, &digits[1..])
}

/// The lowest digit and the others of the sum of an integer and a where the literal is true.
fn add_row(
    alloc: Global,
    g: &mut Gates,
    rest: &BitInt,
    a: &BitInt,
    by: Lit,
) -> Result<(Lit, BitInt), NoMemory>
    requires rest { AreBelow (length g.old.gates) rest.now }
    requires left { AreBelow (length g.old.gates) a.now }
    requires by { by.place < length g.old.gates }
    requires some { 1 ≤ length a.now }
    requires shorter { length rest.now ≤ length a.now }
    requires few { length a.now ≤ 130 }
    ensures width { IfOk result (λ (low, more). length more ≡ length a.now) }
    ensures below { IfOk result (λ (low, more). AreBelow (length g.new.gates) (low ∷ more)) }
    ensures value { IfOk result (λ (low, more). (bits : List Bool) → integer_of g.new.gates bits (low ∷ more) ≡ integer_of g.old.gates bits rest.now +ℤ (if value_of g.old.gates bits by then integer_of g.old.gates bits a.now else pos 0)) }
    ensures grown { Extends g.old.gates g.new.gates }
    ensures inputs { g.new.inputs ≡ g.old.inputs }
{
    let row = masked(alloc, g, a, by)?;
    let sum = add(alloc, g, rest, &row)?;
    let more = without_lowest(alloc, &sum)?;
    Ok((sum.lit(0), more))
}

/// The exact product, with a row for each digit of b.
fn product(alloc: Global, g: &mut Gates, a: &BitInt, b: &BitInt) -> Result<BitInt, NoMemory>
    requires left { AreBelow (length g.old.gates) a.now }
    requires right { AreBelow (length g.old.gates) b.now }
    requires left_few { length a.now ≤ 130 }
    requires right_few { length b.now ≤ 130 }
    ensures width { IfOk result (λ n. length n ≡ length a.now + length b.now) }
    ensures below { IfOk result (λ n. AreBelow (length g.new.gates) n) }
    ensures value { IfOk result (λ n. (bits : List Bool) → integer_of g.new.gates bits n ≡ integer_of g.old.gates bits a.now *ℤ integer_of g.old.gates bits b.now) }
    ensures grown { Extends g.old.gates g.new.gates }
    ensures inputs { g.new.inputs ≡ g.old.inputs }
{
    let last = b.len() - 1;
    let zero = g.constant(false);
    let mut rest = BitInt::from_lits(alloc, &[zero])?;
    let mut digits = Vec::with_capacity(alloc, a.len() + b.len())?;
    for i in 0..last {
        let (low, more) = add_row(alloc, g, &rest, a, b.lit(i))?;
        digits.push(low)?;
        rest = more;
    }
    let row = masked(alloc, g, a, b.lit(last))?;
    let high = sub(alloc, g, &rest, &row)?;
    digits.extend_from_slice(high.digits())?;
    Ok(BitInt::from_vec(digits))
}

/// The exact product. It has as many literals as both operands together.
pub fn mul(alloc: Global, g: &mut Gates, a: &BitInt, b: &BitInt) -> Result<BitInt, NoMemory>
    requires left { AreBelow (length g.old.gates) a.now }
    requires right { AreBelow (length g.old.gates) b.now }
    requires left_few { length a.now ≤ 130 }
    requires right_few { length b.now ≤ 130 }
    ensures width { IfOk result (λ n. length n ≡ length a.now + length b.now) }
    ensures below { IfOk result (λ n. AreBelow (length g.new.gates) n) }
    ensures value { IfOk result (λ n. (bits : List Bool) → integer_of g.new.gates bits n ≡ integer_of g.old.gates bits a.now *ℤ integer_of g.old.gates bits b.now) }
    ensures grown { Extends g.old.gates g.new.gates }
    ensures inputs { g.new.inputs ≡ g.old.inputs }
{
    // Few rows of many digits take fewer gates, and a constant is short.
    if a.len() < b.len() {
        let whole = product(alloc, g, b, a)?;
        Ok(whole)
    } else {
        let whole = product(alloc, g, a, b)?;
        Ok(whole)
    }
}
