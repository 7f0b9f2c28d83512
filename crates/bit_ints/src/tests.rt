ghost use Rattle.std.specs.Prelude.{◌≡◌, ◌<◌, length};
ghost use Rattle.bit_ints.specs.Integers.{AreBelow};

use crate::{
    BitInt, Bits, Gates, Lit, add, bit_and, bit_or, bit_xor, div_mod, eq, fits128, lt, mul, shl,
    shr, sub,
};
use std::alloc::Global;
use std::test::Fail;
use xh_outside::NoMemory;

#[derive(Clone, Copy)]
enum Binary {
    Add,
    Sub,
    Mul,
    And,
    Or,
    Xor,
    Shr,
}

/// The integer of digits that depend on no input.
#[tactic(auto, using(crate::proofs::Orders::below_get))]
fn read(alloc: Global, g: &Gates, n: &BitInt) -> Result<i128, NoMemory>
    requires below { AreBelow (length g.now.gates) n.now }
    requires inputs { g.now.inputs ≡ 0 }
{
    let bits = Bits::new(alloc);
    let mut value = 0i128;
    let mut weight = 1i128;
    for i in 0..n.len() - 1 {
        if g.value(alloc, n.lit(i), &bits)? {
            value = value.wrapping_add(weight);
        }
        weight = weight.wrapping_mul(2);
    }
    if g.value(alloc, n.lit(n.len() - 1), &bits)? {
        value = value.wrapping_sub(weight);
    }
    Ok(value)
}

fn call(alloc: Global, call: Binary, x: i128, y: i128) -> Result<i128, NoMemory> {
    let mut g = Gates::new(alloc);
    let a = BitInt::from_const(alloc, &g, x)?;
    let b = BitInt::from_const(alloc, &g, y)?;
    let n = match call {
        Binary::Add => add(alloc, &mut g, &a, &b)?,
        Binary::Sub => sub(alloc, &mut g, &a, &b)?,
        Binary::Mul => mul(alloc, &mut g, &a, &b)?,
        Binary::And => bit_and(alloc, &mut g, &a, &b)?,
        Binary::Or => bit_or(alloc, &mut g, &a, &b)?,
        Binary::Xor => bit_xor(alloc, &mut g, &a, &b)?,
        Binary::Shr => shr(alloc, &mut g, &a, &b)?,
    };
    read(alloc, &g, &n)
}

fn truth(alloc: Global, g: &Gates, a: Lit) -> Result<bool, NoMemory>
    requires below { a.place < length g.now.gates }
    requires inputs { g.now.inputs ≡ 0 }
{
    let bits = Bits::new(alloc);
    g.value(alloc, a, &bits)
}

fn is_less(alloc: Global, x: i128, y: i128) -> Result<bool, NoMemory> {
    let mut g = Gates::new(alloc);
    let a = BitInt::from_const(alloc, &g, x)?;
    let b = BitInt::from_const(alloc, &g, y)?;
    let less = lt(alloc, &mut g, &a, &b)?;
    truth(alloc, &g, less)
}

fn is_equal(alloc: Global, x: i128, y: i128) -> Result<bool, NoMemory> {
    let mut g = Gates::new(alloc);
    let a = BitInt::from_const(alloc, &g, x)?;
    let b = BitInt::from_const(alloc, &g, y)?;
    let equal = eq(alloc, &mut g, &a, &b)?;
    truth(alloc, &g, equal)
}

fn sum_fits(alloc: Global, x: i128, y: i128) -> Result<bool, NoMemory> {
    let mut g = Gates::new(alloc);
    let a = BitInt::from_const(alloc, &g, x)?;
    let b = BitInt::from_const(alloc, &g, y)?;
    let sum = add(alloc, &mut g, &a, &b)?;
    let fits = fits128(&mut g, &sum)?;
    truth(alloc, &g, fits)
}

fn divide(alloc: Global, x: i128, y: i128) -> Result<(i128, i128), NoMemory> {
    let mut g = Gates::new(alloc);
    let a = BitInt::from_const(alloc, &g, x)?;
    let b = BitInt::from_const(alloc, &g, y)?;
    let (quotient, remainder) = div_mod(alloc, &mut g, &a, &b)?;
    Ok((read(alloc, &g, &quotient)?, read(alloc, &g, &remainder)?))
}

fn shift_left(alloc: Global, x: i128, y: i128) -> Result<Option<i128>, NoMemory> {
    let mut g = Gates::new(alloc);
    let a = BitInt::from_const(alloc, &g, x)?;
    let b = BitInt::from_const(alloc, &g, y)?;
    let (shifted, fits) = shl(alloc, &mut g, &a, &b)?;
    let value = read(alloc, &g, &shifted)?;
    let fits = truth(alloc, &g, fits)?;
    Ok(if fits { Some(value) } else { None })
}

#[test]
fn constants_take_few_digits(rt: HostRuntime) -> Result<(), Fail> {
    let alloc = rt.alloc();
    let g = Gates::new(alloc);
    for (v, digits) in [
        (0i128, 1usize),
        (-1, 1),
        (1, 2),
        (-2, 2),
        (5, 4),
        (i128::MAX, 128),
        (i128::MIN, 128),
    ] {
        let n = BitInt::from_const(alloc, &g, v)?;
        assert_eq!(rt; n.len(), digits);
    }
    Ok(())
}

#[test]
fn operations_have_signs(rt: HostRuntime) -> Result<(), Fail> {
    let alloc = rt.alloc();
    for (f, x, y, value) in [
        (Binary::Add, 3i128, 4i128, 7i128),
        (Binary::Add, 3, -4, -1),
        (Binary::Add, -3, -4, -7),
        (Binary::Add, -1, 1, 0),
        (Binary::Add, 1000, -1, 999),
        (Binary::Sub, 3, 4, -1),
        (Binary::Sub, 3, -4, 7),
        (Binary::Sub, -3, -4, 1),
        (Binary::Sub, 0, i128::MAX, -i128::MAX),
        (Binary::Mul, -128, -128, 16384),
        (Binary::Mul, -7, 3, -21),
        (Binary::Mul, 0, -5, 0),
        (Binary::Mul, 127, -128, -16256),
        (Binary::Mul, 6, -1, -6),
        (Binary::Mul, 3, -700, -2100),
        (Binary::And, -6, 12, 8),
        (Binary::Or, -6, 3, -5),
        (Binary::Xor, -1, 5, -6),
        (Binary::Shr, -5, 1, -3),
        (Binary::Shr, 5, 200, 0),
        (Binary::Shr, -1, 7, -1),
        (Binary::Shr, -5, 300, -1),
        (Binary::Shr, i128::MAX, 126, 1),
    ] {
        assert_eq!(rt; call(alloc, f, x, y)?, value);
    }
    Ok(())
}

#[test]
fn comparisons_have_signs(rt: HostRuntime) -> Result<(), Fail> {
    let alloc = rt.alloc();
    for (x, y, less, equal) in [
        (-1i128, 1i128, true, false),
        (1, -1, false, false),
        (3, 4, true, false),
        (4, 4, false, true),
        (-4, -3, true, false),
        (0, -1, false, false),
        (i128::MIN, i128::MAX, true, false),
    ] {
        assert_eq!(rt; is_less(alloc, x, y)?, less);
        assert_eq!(rt; is_equal(alloc, x, y)?, equal);
    }
    Ok(())
}

#[test]
fn a_sum_may_be_too_wide(rt: HostRuntime) -> Result<(), Fail> {
    let alloc = rt.alloc();
    for (x, y, fits) in [
        (i128::MAX, 1i128, false),
        (i128::MAX, 0, true),
        (i128::MAX, -1, true),
        (i128::MIN, -1, false),
        (i128::MIN, 0, true),
        (2, 3, true),
    ] {
        assert_eq!(rt; sum_fits(alloc, x, y)?, fits);
    }
    Ok(())
}

#[test]
fn quotients_are_rounded_down(rt: HostRuntime) -> Result<(), Fail> {
    let alloc = rt.alloc();
    for (x, y, quotient, remainder) in [
        (7i128, 2i128, 3i128, 1i128),
        (-7, 2, -4, 1),
        (7, -2, -4, -1),
        (-7, -2, 3, -1),
        (-8, 2, -4, 0),
        (6, -3, -2, 0),
        (-128, -1, 128, 0),
        (0, -5, 0, 0),
        (-1, 1000, -1, 999),
        (1, -1000, -1, -999),
        (100, 7, 14, 2),
        (i128::MIN, 3, -56713727820156410577229101238628035243, 1),
    ] {
        assert_eq!(rt; divide(alloc, x, y)?, (quotient, remainder));
    }
    Ok(())
}

#[test]
fn shifts_to_the_left_may_be_too_wide(rt: HostRuntime) -> Result<(), Fail> {
    let alloc = rt.alloc();
    for (x, y, shifted) in [
        (5i128, 3i128, Some(40i128)),
        (-1, 127, Some(i128::MIN)),
        (-1, 128, None),
        (1, 126, Some(1 << 126)),
        (1, 127, None),
        (1, 200, None),
        (0, 200, Some(0)),
        (-3, 1, Some(-6)),
    ] {
        assert_eq!(rt; shift_left(alloc, x, y)?, shifted);
    }
    Ok(())
}
