ghost use Rattle.std.specs.Prelude.{◌≡◌, ◌<◌, ◌≤◌, ◌+◌, ◌-◌, ◌^◌, ◌*ℤ◌, ◌||◌, min, nat_lt, ℕ, Bool, true, List, length, ◌++◌, replicate, pos, if◌then◌else◌, IfOk};
ghost use Rattle.std.specs.Ordering.{int_eq};
ghost use Rattle.bit_gates.specs.Formulas.{Extends, value_of};
ghost use Rattle.bit_ints.specs.Integers.{AreBelow, values, integer_of, is_within};

use crate::BitInt;
use crate::digit::or;
use crate::lists::extended;
use crate::ops::fits128;
use crate::shifts::{chosen, is_short, is_zero};
use crate::signs::narrowed;
use bit_gates::{Gates, Lit};
use std::alloc::Global;
use xh_outside::NoMemory;

/// The digits behind so many others, which are all the same.
fn behind(alloc: Global, low: Lit, places: usize, lits: &[Lit]) -> Result<Vec<Lit>, NoMemory>
    ensures { IfOk result (λ r. r.items ≡ replicate places low ++ lits.now) }
{
    let mut digits = Vec::new(alloc);
    for _place in 0..places {
        digits.push(low)?;
    }
    digits.extend_from_slice(lits)?;
    Ok(digits)
}

/// The digits shifted to the left by so many places where the literal is true, that many digits wider.
fn raised_where(
    alloc: Global,
    g: &mut Gates,
    by: Lit,
    lits: &[Lit],
    places: usize,
) -> Result<Vec<Lit>, NoMemory>
    requires by { by.place < length g.old.gates }
    requires below { AreBelow (length g.old.gates) lits.now }
    requires some { 1 ≤ length lits.now }
    requires places { places ≤ 128 }
    ensures length { IfOk result (λ r. length r.items ≡ length lits.now + places) }
    ensures below { IfOk result (λ r. AreBelow (length g.new.gates) r.items) }
    ensures value { IfOk result (λ r. (bits : List Bool) → integer_of g.new.gates bits r.items ≡ (if value_of g.old.gates bits by then integer_of g.old.gates bits lits.now *ℤ pos (2 ^ places) else integer_of g.old.gates bits lits.now)) }
    ensures grown { Extends g.old.gates g.new.gates }
    ensures inputs { g.new.inputs ≡ g.old.inputs }
{
    let low = g.constant(false);
    let moved = behind(alloc, low, places, lits)?;
    let kept = extended(alloc, lits, lits.len() + places)?;
    let digits = chosen(alloc, g, by, &moved, &kept)?;
    Ok(digits)
}

/// The shift to the left by the number of the first digits of b, of which there are `count`.
fn raised(
    alloc: Global,
    g: &mut Gates,
    a: &BitInt,
    b: &BitInt,
    count: usize,
) -> Result<BitInt, NoMemory>
    requires left { AreBelow (length g.old.gates) a.now }
    requires right { AreBelow (length g.old.gates) b.now }
    requires left_few { length a.now ≤ 130 }
    requires count { count < length b.now }
    requires few { count ≤ 7 }
    ensures width { IfOk result (λ r. length r + 1 ≡ length a.now + 2 ^ count) }
    ensures below { IfOk result (λ r. AreBelow (length g.new.gates) r) }
    ensures value { IfOk result (λ r. (bits : List Bool) (n : ℕ) → integer_of g.old.gates bits b.now ≡ pos n → n < 2 ^ count → integer_of g.new.gates bits r ≡ integer_of g.old.gates bits a.now *ℤ pos (2 ^ n)) }
    ensures none { IfOk result (λ r. (bits : List Bool) → integer_of g.old.gates bits a.now ≡ pos 0 → integer_of g.new.gates bits r ≡ pos 0) }
    ensures grown { Extends g.old.gates g.new.gates }
    ensures inputs { g.new.inputs ≡ g.old.inputs }
{
    let mut digits = Vec::new(alloc);
    digits.extend_from_slice(a.digits())?;
    let mut places = 1;
    for i in 0..count {
        let moved = raised_where(alloc, g, b.lit(i), &digits, places)?;
        digits = moved;
        places *= 2;
    }
    Ok(BitInt::from_vec(digits))
}

/// Whether a is 0, or b has no digit but the first ones, of which there are `count`.
fn is_zero_or_short(
    alloc: Global,
    g: &mut Gates,
    a: &BitInt,
    b: &BitInt,
    count: usize,
) -> Result<Lit, NoMemory>
    requires left { AreBelow (length g.old.gates) a.now }
    requires right { AreBelow (length g.old.gates) b.now }
    requires left_few { length a.now ≤ 130 }
    requires right_few { length b.now ≤ 130 }
    requires count { count < length b.now }
    ensures below { IfOk result (λ c. c.place < length g.new.gates) }
    ensures value { IfOk result (λ c. (bits : List Bool) (n : ℕ) → integer_of g.old.gates bits b.now ≡ pos n → value_of g.new.gates bits c ≡ (int_eq (integer_of g.old.gates bits a.now) (pos 0) || nat_lt n (2 ^ count))) }
    ensures grown { Extends g.old.gates g.new.gates }
    ensures inputs { g.new.inputs ≡ g.old.inputs }
{
    let none = is_zero(alloc, g, a)?;
    let short = is_short(alloc, g, b, count)?;
    let one = or(g, none, short)?;
    Ok(one)
}

/// The shift to the left where b is not negative, and whether it is an `i128`: the first is exact where the second is true.
pub fn shl(alloc: Global, g: &mut Gates, a: &BitInt, b: &BitInt) -> Result<(BitInt, Lit), NoMemory>
    requires left { AreBelow (length g.old.gates) a.now }
    requires right { AreBelow (length g.old.gates) b.now }
    requires left_few { length a.now ≤ 130 }
    requires right_few { length b.now ≤ 130 }
    ensures width { IfOk result (λ (r, fits). length r ≡ min 128 (length a.now + 2 ^ min 7 (length b.now - 1) - 1)) }
    ensures below { IfOk result (λ (r, fits). AreBelow (length g.new.gates) r × (fits.place < length g.new.gates)) }
    ensures fits { IfOk result (λ (r, fits). (bits : List Bool) (n : ℕ) → integer_of g.old.gates bits b.now ≡ pos n → value_of g.new.gates bits fits ≡ is_within (2 ^ 127) (integer_of g.old.gates bits a.now *ℤ pos (2 ^ n))) }
    ensures value { IfOk result (λ (r, fits). (bits : List Bool) (n : ℕ) → integer_of g.old.gates bits b.now ≡ pos n → value_of g.new.gates bits fits ≡ true → integer_of g.new.gates bits r ≡ integer_of g.old.gates bits a.now *ℤ pos (2 ^ n)) }
    ensures grown { Extends g.old.gates g.new.gates }
    ensures inputs { g.new.inputs ≡ g.old.inputs }
{
    // From 2^7 places on only 0 fits.
    let count = (b.len() - 1).min(7);
    let wide = raised(alloc, g, a, b, count)?;
    let within = fits128(g, &wide)?;
    let whole = is_zero_or_short(alloc, g, a, b, count)?;
    let fits = g.and(within, whole)?;
    let shifted = narrowed(alloc, &wide, wide.len().min(128))?;
    Ok((shifted, fits))
}
