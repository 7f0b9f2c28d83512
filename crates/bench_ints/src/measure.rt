ghost use Rattle.std.specs.Prelude.{◌≡◌, ◌≤◌, length, IfOk};
ghost use Rattle.bit_gates.specs.Formulas.{Extends};
ghost use Rattle.bit_ints.specs.Integers.{AreBelow};

use crate::operation::Operation;
use bit_ints::{BitInt, Gates, add, bit_and, bit_or, bit_xor, div_mod, eq, lt, mul, shl, shr, sub};
use std::alloc::Global;
use std::io;
use xh_outside::NoMemory;

/// An integer whose digits are so many inputs.
fn symbolic(alloc: Global, g: &mut Gates, width: usize) -> Result<BitInt, NoMemory>
    requires some { 1 ≤ width }
    requires few { width ≤ 128 }
    ensures width { IfOk result (λ n. length n ≡ width) }
    ensures below { IfOk result (λ n. AreBelow (length g.new.gates) n) }
    ensures grown { IfOk result (λ _. Extends g.old.gates g.new.gates) }
{
    let mut lits = Vec::new(alloc);
    for _digit in 0..width {
        let input = g.input()?;
        lits.push(input)?;
    }
    let n = BitInt::from_lits(alloc, &lits)?;
    Ok(n)
}

/// The second operand: 10, or a symbolic one.
fn second(alloc: Global, g: &mut Gates, width: usize, constant: bool) -> Result<BitInt, NoMemory>
    requires some { 1 ≤ width }
    requires few { width ≤ 128 }
    ensures few { IfOk result (λ n. length n ≤ 128) }
    ensures below { IfOk result (λ n. AreBelow (length g.new.gates) n) }
    ensures grown { IfOk result (λ _. Extends g.old.gates g.new.gates) }
{
    if constant {
        let ten = BitInt::from_const(alloc, g, 10)?;
        Ok(ten)
    } else {
        let n = symbolic(alloc, g, width)?;
        Ok(n)
    }
}

/// Makes the gates of an operation.
fn make(
    alloc: Global,
    g: &mut Gates,
    operation: Operation,
    a: &BitInt,
    b: &BitInt,
) -> Result<(), NoMemory>
    requires left { AreBelow (length g.old.gates) a.now }
    requires right { AreBelow (length g.old.gates) b.now }
    requires left_few { length a.now ≤ 128 }
    requires right_few { length b.now ≤ 128 }
    ensures { IfOk result (λ _. Extends g.old.gates g.new.gates) }
{
    match operation {
        Operation::Add => {
            let _sum = add(alloc, g, a, b)?;
        }
        Operation::Sub => {
            let _difference = sub(alloc, g, a, b)?;
        }
        Operation::Mul => {
            let _product = mul(alloc, g, a, b)?;
        }
        Operation::DivMod => {
            let _both = div_mod(alloc, g, a, b)?;
        }
        Operation::Shl => {
            let _both = shl(alloc, g, a, b)?;
        }
        Operation::Shr => {
            let _shifted = shr(alloc, g, a, b)?;
        }
        Operation::BitAnd => {
            let _both = bit_and(alloc, g, a, b)?;
        }
        Operation::BitOr => {
            let _either = bit_or(alloc, g, a, b)?;
        }
        Operation::BitXor => {
            let _one = bit_xor(alloc, g, a, b)?;
        }
        Operation::Lt => {
            let _less = lt(alloc, g, a, b)?;
        }
        Operation::Eq => {
            let _equal = eq(alloc, g, a, b)?;
        }
        Operation::LtItself => {
            let _less = lt(alloc, g, a, a)?;
        }
        Operation::EqItself => {
            let _equal = eq(alloc, g, a, a)?;
        }
    }
    Ok(())
}

/// The number of gates of an operation at a width, with two symbolic operands or with 10 as the second.
fn counted(
    alloc: Global,
    operation: Operation,
    width: usize,
    constant: bool,
) -> Result<usize, NoMemory>
    requires some { 1 ≤ width }
    requires few { width ≤ 128 }
{
    let mut g = Gates::new(alloc);
    let a = symbolic(alloc, &mut g, width)?;
    let b = second(alloc, &mut g, width, constant)?;
    let before = g.len();
    make(alloc, &mut g, operation, &a, &b)?;
    Ok(g.len() - before)
}

/// The same, where want of memory is a fault of the program.
pub(crate) fn gates(
    alloc: Global,
    operation: Operation,
    width: usize,
    constant: bool,
) -> io::Result<usize>
    requires some { 1 ≤ width }
    requires few { width ≤ 128 }
{
    match counted(alloc, operation, width, constant) {
        Ok(count) => Ok(count),
        Err(NoMemory) => Err(io::Error::from(io::ErrorKind::OutOfMemory)),
    }
}

/// The numbers of gates with two symbolic operands, and with 10 as the second.
pub(crate) fn measured(
    alloc: Global,
    operation: Operation,
    width: usize,
) -> io::Result<(usize, usize)>
    requires some { 1 ≤ width }
    requires few { width ≤ 128 }
{
    let symbolic = gates(alloc, operation, width, false)?;
    let constant = gates(alloc, operation, width, true)?;
    Ok((symbolic, constant))
}
