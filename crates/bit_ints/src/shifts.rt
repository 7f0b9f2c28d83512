ghost use Rattle.std.specs.Prelude.{◌≡◌, ◌<◌, ◌≤◌, ◌^◌, nat_lt, Bool, List, ℕ, length, drop, pos, if◌then◌else◌, IfOk};
ghost use Rattle.std.specs.Ordering.{int_eq};
ghost use Rattle.bit_gates.specs.Formulas.{Extends, value_of};
ghost use Rattle.bit_ints.specs.Halving.{halved};
ghost use Rattle.bit_ints.specs.Integers.{AreBelow, values, integer_of, extended_by};

use crate::BitInt;
use crate::digit::or;
use crate::lists::extended;
use crate::ops::eq;
use crate::signs::zero;
use bit_gates::{Gates, Lit};
use std::alloc::Global;
use xh_outside::NoMemory;

/// The literal that has the value of `yes` where `by` is true, and else that of `no`.
fn chosen_digit(g: &mut Gates, by: Lit, yes: Lit, no: Lit) -> Result<Lit, NoMemory>
    requires by { by.place < length g.old.gates }
    requires yes { yes.place < length g.old.gates }
    requires no { no.place < length g.old.gates }
    ensures below { IfOk result (λ c. c.place < length g.new.gates) }
    ensures value { IfOk result (λ c. (bits : List Bool) → value_of g.new.gates bits c ≡ (if value_of g.old.gates bits by then value_of g.old.gates bits yes else value_of g.old.gates bits no)) }
    ensures grown { Extends g.old.gates g.new.gates }
    ensures inputs { g.new.inputs ≡ g.old.inputs }
{
    let first = g.and(by, yes)?;
    let not_by = g.not(by);
    let second = g.and(not_by, no)?;
    let digit = or(g, first, second)?;
    Ok(digit)
}

/// The digits of `yes` where `by` is true, and else those of `no`.
pub(crate) fn chosen(
    alloc: Global,
    g: &mut Gates,
    by: Lit,
    yes: &[Lit],
    no: &[Lit],
) -> Result<Vec<Lit>, NoMemory>
    requires same { length yes.now ≡ length no.now }
    requires by { by.place < length g.old.gates }
    requires yes { AreBelow (length g.old.gates) yes.now }
    requires no { AreBelow (length g.old.gates) no.now }
    ensures length { IfOk result (λ r. length r.items ≡ length no.now) }
    ensures below { IfOk result (λ r. AreBelow (length g.new.gates) r.items) }
    ensures value { IfOk result (λ r. (bits : List Bool) → values g.new.gates bits r.items ≡ (if value_of g.old.gates bits by then values g.old.gates bits yes.now else values g.old.gates bits no.now)) }
    ensures grown { Extends g.old.gates g.new.gates }
    ensures inputs { g.new.inputs ≡ g.old.inputs }
{
    let mut digits = Vec::new(alloc);
    for i in 0..yes.len() {
        let digit = chosen_digit(g, by, yes[i], no[i])?;
        digits.push(digit)?;
    }
    Ok(digits)
}

/// The digits from a place on, with their sign repeated up to the old length.
fn shifted(alloc: Global, lits: &[Lit], places: usize) -> Result<Vec<Lit>, NoMemory>
    requires { places < length lits.now }
    ensures { IfOk result (λ r. r.items ≡ extended_by places (drop places lits.now)) }
{
    extended(alloc, &lits[places..], lits.len())
}

/// The digits shifted by so many places where the literal is true, and else as they are.
fn shifted_where(
    alloc: Global,
    g: &mut Gates,
    by: Lit,
    lits: &[Lit],
    places: usize,
) -> Result<Vec<Lit>, NoMemory>
    requires by { by.place < length g.old.gates }
    requires below { AreBelow (length g.old.gates) lits.now }
    requires places { places < length lits.now }
    ensures length { IfOk result (λ r. length r.items ≡ length lits.now) }
    ensures below { IfOk result (λ r. AreBelow (length g.new.gates) r.items) }
    ensures value { IfOk result (λ r. (bits : List Bool) → integer_of g.new.gates bits r.items ≡ (if value_of g.old.gates bits by then halved places (integer_of g.old.gates bits lits.now) else integer_of g.old.gates bits lits.now)) }
    ensures grown { Extends g.old.gates g.new.gates }
    ensures inputs { g.new.inputs ≡ g.old.inputs }
{
    let moved = shifted(alloc, lits, places)?;
    let digits = chosen(alloc, g, by, &moved, lits)?;
    Ok(digits)
}

/// The shift to the right by the number of the first digits of b, of which there are `count`.
fn lowered(
    alloc: Global,
    g: &mut Gates,
    a: &BitInt,
    b: &BitInt,
    count: usize,
) -> Result<Vec<Lit>, NoMemory>
    requires left { AreBelow (length g.old.gates) a.now }
    requires right { AreBelow (length g.old.gates) b.now }
    requires few { length a.now ≤ 130 }
    requires count { count < length b.now }
    ensures some { IfOk result (λ _. 1 ≤ length a.now) }
    ensures length { IfOk result (λ r. length r.items ≡ length a.now) }
    ensures below { IfOk result (λ r. AreBelow (length g.new.gates) r.items) }
    ensures value { IfOk result (λ r. (bits : List Bool) (n : ℕ) → integer_of g.old.gates bits b.now ≡ pos n → n < 2 ^ count → integer_of g.new.gates bits r.items ≡ halved n (integer_of g.old.gates bits a.now)) }
    ensures grown { Extends g.old.gates g.new.gates }
    ensures inputs { g.new.inputs ≡ g.old.inputs }
{
    let last = a.len() - 1;
    let mut digits = Vec::new(alloc);
    digits.extend_from_slice(a.digits())?;
    // A shift by more than `last` places leaves what a shift by `last` does: the sign alone.
    let mut places = last.min(1);
    for i in 0..count {
        let moved = shifted_where(alloc, g, b.lit(i), &digits, places)?;
        digits = moved;
        places = last.min(places * 2);
    }
    Ok(digits)
}

/// Whether it is 0.
pub(crate) fn is_zero(alloc: Global, g: &mut Gates, a: &BitInt) -> Result<Lit, NoMemory>
    requires below { AreBelow (length g.old.gates) a.now }
    requires few { length a.now ≤ 130 }
    ensures below { IfOk result (λ c. c.place < length g.new.gates) }
    ensures value { IfOk result (λ c. (bits : List Bool) → value_of g.new.gates bits c ≡ int_eq (integer_of g.old.gates bits a.now) (pos 0)) }
    ensures grown { Extends g.old.gates g.new.gates }
    ensures inputs { g.new.inputs ≡ g.old.inputs }
{
    let none = zero(alloc, g)?;
    let equal = eq(alloc, g, a, &none)?;
    Ok(equal)
}

/// Whether a number has no digit but the first ones, of which there are `count`.
pub(crate) fn is_short(
    alloc: Global,
    g: &mut Gates,
    b: &BitInt,
    count: usize,
) -> Result<Lit, NoMemory>
    requires below { AreBelow (length g.old.gates) b.now }
    requires few { length b.now ≤ 130 }
    requires count { count < length b.now }
    ensures below { IfOk result (λ c. c.place < length g.new.gates) }
    ensures value { IfOk result (λ c. (bits : List Bool) (n : ℕ) → integer_of g.old.gates bits b.now ≡ pos n → value_of g.new.gates bits c ≡ nat_lt n (2 ^ count)) }
    ensures grown { Extends g.old.gates g.new.gates }
    ensures inputs { g.new.inputs ≡ g.old.inputs }
{
    let high = BitInt::from_lits(alloc, &b.digits()[count..])?;
    let short = is_zero(alloc, g, &high)?;
    Ok(short)
}

/// The shift to the right, rounding down, where b is not negative. It has as many literals as a.
pub fn shr(alloc: Global, g: &mut Gates, a: &BitInt, b: &BitInt) -> Result<BitInt, NoMemory>
    requires left { AreBelow (length g.old.gates) a.now }
    requires right { AreBelow (length g.old.gates) b.now }
    requires left_few { length a.now ≤ 130 }
    requires right_few { length b.now ≤ 130 }
    ensures width { IfOk result (λ n. length n ≡ length a.now) }
    ensures below { IfOk result (λ n. AreBelow (length g.new.gates) n) }
    ensures value { IfOk result (λ r. (bits : List Bool) (n : ℕ) → integer_of g.old.gates bits b.now ≡ pos n → integer_of g.new.gates bits r ≡ halved n (integer_of g.old.gates bits a.now)) }
    ensures grown { Extends g.old.gates g.new.gates }
    ensures inputs { g.new.inputs ≡ g.old.inputs }
{
    let count = (b.len() - 1).min(8);
    let near = lowered(alloc, g, a, b, count)?;
    if count == b.len() - 1 {
        return Ok(BitInt::from_vec(near));
    }
    // From 2^8 places on the sign alone is left.
    let short = is_short(alloc, g, b, count)?;
    let far = shifted(alloc, a.digits(), a.len() - 1)?;
    let digits = chosen(alloc, g, short, &near, &far)?;
    Ok(BitInt::from_vec(digits))
}
