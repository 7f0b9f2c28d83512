ghost use Rattle.std.specs.Prelude.{◌≡◌, ◌<◌, ◌≤◌, ◌-◌, Bool, List, length, IfOk};
ghost use Rattle.bit_gates.specs.Formulas.{Extends, value_of};
ghost use Rattle.bit_ints.specs.Integers.{AreBelow, values, are_same, extended_by, sign, sum_bits, zip_with};
ghost use Rattle.bit_ints.specs.Operations.{meaning};

use crate::digit::{full_adder, majority, or, xor};
use bit_gates::{Gates, Lit};
use std::alloc::Global;
use xh_outside::NoMemory;

/// An operation on two digits.
#[derive(Clone, Copy)]
pub(crate) enum Operation {
    And,
    Or,
    Xor,
}

/// The digits with their sign repeated up to the place n.
pub(crate) fn extended(alloc: Global, lits: &[Lit], n: usize) -> Result<Vec<Lit>, NoMemory>
    requires some { 1 ≤ length lits.now }
    requires longer { length lits.now ≤ n }
    ensures { IfOk result (λ longer. longer.items ≡ extended_by (n - length lits.now) lits.now) }
{
    let mut longer = Vec::new(alloc);
    longer.extend_from_slice(lits)?;
    let sign = lits[lits.len() - 1];
    for _place in lits.len()..n {
        longer.push(sign)?;
    }
    Ok(longer)
}

/// The literal of an operation on two digits.
fn combined_digit(g: &mut Gates, operation: Operation, a: Lit, b: Lit) -> Result<Lit, NoMemory>
    requires left { a.place < length g.old.gates }
    requires right { b.place < length g.old.gates }
    ensures below { IfOk result (λ c. c.place < length g.new.gates) }
    ensures value { IfOk result (λ c. (bits : List Bool) → value_of g.new.gates bits c ≡ meaning operation (value_of g.old.gates bits a) (value_of g.old.gates bits b)) }
    ensures grown { Extends g.old.gates g.new.gates }
    ensures inputs { g.new.inputs ≡ g.old.inputs }
{
    match operation {
        Operation::And => g.and(a, b),
        Operation::Or => or(g, a, b),
        Operation::Xor => xor(g, a, b),
    }
}

/// An operation on two lists of digits, digit by digit.
pub(crate) fn combined(
    alloc: Global,
    g: &mut Gates,
    operation: Operation,
    xs: &[Lit],
    ys: &[Lit],
) -> Result<Vec<Lit>, NoMemory>
    requires same { length xs.now ≡ length ys.now }
    requires left { AreBelow (length g.old.gates) xs.now }
    requires right { AreBelow (length g.old.gates) ys.now }
    ensures length { IfOk result (λ r. length r.items ≡ length xs.now) }
    ensures below { IfOk result (λ r. AreBelow (length g.new.gates) r.items) }
    ensures value { IfOk result (λ r. (bits : List Bool) → values g.new.gates bits r.items ≡ zip_with (meaning operation) (values g.old.gates bits xs.now) (values g.old.gates bits ys.now)) }
    ensures grown { Extends g.old.gates g.new.gates }
    ensures inputs { g.new.inputs ≡ g.old.inputs }
{
    let mut digits = Vec::new(alloc);
    for i in 0..xs.len() {
        let digit = combined_digit(g, operation, xs[i], ys[i])?;
        digits.push(digit)?;
    }
    Ok(digits)
}

/// The digits of a sum with a carry. The last carry is dropped.
pub(crate) fn summed(
    alloc: Global,
    g: &mut Gates,
    xs: &[Lit],
    ys: &[Lit],
    mut carry: Lit,
) -> Result<Vec<Lit>, NoMemory>
    requires same { length xs.now ≡ length ys.now }
    requires left { AreBelow (length g.old.gates) xs.now }
    requires right { AreBelow (length g.old.gates) ys.now }
    requires carry { carry.place < length g.old.gates }
    ensures length { IfOk result (λ r. length r.items ≡ length xs.now) }
    ensures below { IfOk result (λ r. AreBelow (length g.new.gates) r.items) }
    ensures value { IfOk result (λ r. (bits : List Bool) → values g.new.gates bits r.items ≡ sum_bits (value_of g.old.gates bits carry) (values g.old.gates bits xs.now) (values g.old.gates bits ys.now)) }
    ensures grown { Extends g.old.gates g.new.gates }
    ensures inputs { g.new.inputs ≡ g.old.inputs }
{
    let mut digits = Vec::new(alloc);
    for i in 0..xs.len() {
        let (digit, next) = full_adder(g, xs[i], ys[i], carry)?;
        digits.push(digit)?;
        carry = next;
    }
    Ok(digits)
}

/// The last digit of a sum with a carry, which is its sign.
pub(crate) fn sum_sign(
    g: &mut Gates,
    xs: &[Lit],
    ys: &[Lit],
    mut carry: Lit,
) -> Result<Lit, NoMemory>
    requires same { length xs.now ≡ length ys.now }
    requires some { 1 ≤ length xs.now }
    requires left { AreBelow (length g.old.gates) xs.now }
    requires right { AreBelow (length g.old.gates) ys.now }
    requires carry { carry.place < length g.old.gates }
    ensures below { IfOk result (λ r. r.place < length g.new.gates) }
    ensures value { IfOk result (λ r. (bits : List Bool) → value_of g.new.gates bits r ≡ sign (sum_bits (value_of g.old.gates bits carry) (values g.old.gates bits xs.now) (values g.old.gates bits ys.now))) }
    ensures grown { Extends g.old.gates g.new.gates }
    ensures inputs { g.new.inputs ≡ g.old.inputs }
{
    let last = xs.len() - 1;
    for i in 0..last {
        let next = majority(g, xs[i], ys[i], carry)?;
        carry = next;
    }
    let half = xor(g, xs[last], ys[last])?;
    let digit = xor(g, half, carry)?;
    Ok(digit)
}

/// The literal that is true where the digits are the same, as far as the second list goes.
pub(crate) fn same(g: &mut Gates, xs: &[Lit], ys: &[Lit]) -> Result<Lit, NoMemory>
    requires longer { length ys.now ≤ length xs.now }
    requires left { AreBelow (length g.old.gates) xs.now }
    requires right { AreBelow (length g.old.gates) ys.now }
    ensures below { IfOk result (λ r. r.place < length g.new.gates) }
    ensures value { IfOk result (λ r. (bits : List Bool) → value_of g.new.gates bits r ≡ are_same (values g.old.gates bits xs.now) (values g.old.gates bits ys.now)) }
    ensures grown { Extends g.old.gates g.new.gates }
    ensures inputs { g.new.inputs ≡ g.old.inputs }
{
    let mut all = g.constant(true);
    for i in 0..ys.len() {
        let differ = xor(g, xs[i], ys[i])?;
        let agree = g.not(differ);
        all = g.and(all, agree)?;
    }
    Ok(all)
}
