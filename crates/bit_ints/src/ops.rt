ghost use Rattle.std.specs.Prelude.{◌≡◌, ℕ, ◌<◌, ◌≤◌, ◌^◌, ◌+◌, max, ◌&&◌, ◌||◌, ◌+ℤ◌, ◌-ℤ◌, Bool, List, length, int_lt, pos, if◌then◌else◌, IfOk};
ghost use Rattle.std.specs.Ordering.{int_eq};
ghost use Rattle.bit_gates.specs.Formulas.{Extends, value_of};
ghost use Rattle.bit_ints.specs.Halving.{digit};
ghost use Rattle.bit_ints.specs.Integers.{AreBelow, values, integer_of, bitwise, xor, is_within};
ghost use Rattle.bit_ints.specs.Operations.{meaning};

use crate::BitInt;
use crate::lists::{Operation, combined, extended, same, sum_sign, summed};
use crate::signs::flipped_where;
use bit_gates::{Gates, Lit};
use std::alloc::Global;
use xh_outside::NoMemory;

/// An operation digit by digit.
pub(crate) fn digit_by_digit(
    alloc: Global,
    g: &mut Gates,
    operation: Operation,
    a: &BitInt,
    b: &BitInt,
) -> Result<BitInt, NoMemory>
    requires left { AreBelow (length g.old.gates) a.now }
    requires right { AreBelow (length g.old.gates) b.now }
    ensures some { IfOk result (λ _. 1 ≤ length a.now) }
    ensures width { IfOk result (λ n. length n ≡ max (length a.now) (length b.now)) }
    ensures below { IfOk result (λ n. AreBelow (length g.new.gates) n) }
    ensures value { IfOk result (λ n. (bits : List Bool) → values g.new.gates bits n ≡ bitwise (meaning operation) (values g.old.gates bits a.now) (values g.old.gates bits b.now)) }
    ensures digits { IfOk result (λ r. (bits : List Bool) (n : ℕ) → digit n (integer_of g.new.gates bits r) ≡ meaning operation (digit n (integer_of g.old.gates bits a.now)) (digit n (integer_of g.old.gates bits b.now))) }
    ensures grown { Extends g.old.gates g.new.gates }
    ensures inputs { g.new.inputs ≡ g.old.inputs }
{
    let n = a.len().max(b.len());
    let xs = extended(alloc, a.digits(), n)?;
    let ys = extended(alloc, b.digits(), n)?;
    let digits = combined(alloc, g, operation, &xs, &ys)?;
    Ok(BitInt::from_vec(digits))
}

/// The conjunction of each digit, in two's complement without end.
pub fn bit_and(alloc: Global, g: &mut Gates, a: &BitInt, b: &BitInt) -> Result<BitInt, NoMemory>
    requires left { AreBelow (length g.old.gates) a.now }
    requires right { AreBelow (length g.old.gates) b.now }
    requires left_few { length a.now ≤ 130 }
    requires right_few { length b.now ≤ 130 }
    ensures width { IfOk result (λ n. length n ≡ max (length a.now) (length b.now)) }
    ensures below { IfOk result (λ n. AreBelow (length g.new.gates) n) }
    ensures digits { IfOk result (λ r. (bits : List Bool) (n : ℕ) → digit n (integer_of g.new.gates bits r) ≡ (digit n (integer_of g.old.gates bits a.now) && digit n (integer_of g.old.gates bits b.now))) }
    ensures grown { Extends g.old.gates g.new.gates }
    ensures inputs { g.new.inputs ≡ g.old.inputs }
{
    digit_by_digit(alloc, g, Operation::And, a, b)
}

/// The disjunction of each digit, in two's complement without end.
pub fn bit_or(alloc: Global, g: &mut Gates, a: &BitInt, b: &BitInt) -> Result<BitInt, NoMemory>
    requires left { AreBelow (length g.old.gates) a.now }
    requires right { AreBelow (length g.old.gates) b.now }
    requires left_few { length a.now ≤ 130 }
    requires right_few { length b.now ≤ 130 }
    ensures width { IfOk result (λ n. length n ≡ max (length a.now) (length b.now)) }
    ensures below { IfOk result (λ n. AreBelow (length g.new.gates) n) }
    ensures digits { IfOk result (λ r. (bits : List Bool) (n : ℕ) → digit n (integer_of g.new.gates bits r) ≡ (digit n (integer_of g.old.gates bits a.now) || digit n (integer_of g.old.gates bits b.now))) }
    ensures grown { Extends g.old.gates g.new.gates }
    ensures inputs { g.new.inputs ≡ g.old.inputs }
{
    digit_by_digit(alloc, g, Operation::Or, a, b)
}

/// The exclusive disjunction of each digit, in two's complement without end.
pub fn bit_xor(alloc: Global, g: &mut Gates, a: &BitInt, b: &BitInt) -> Result<BitInt, NoMemory>
    requires left { AreBelow (length g.old.gates) a.now }
    requires right { AreBelow (length g.old.gates) b.now }
    requires left_few { length a.now ≤ 130 }
    requires right_few { length b.now ≤ 130 }
    ensures width { IfOk result (λ n. length n ≡ max (length a.now) (length b.now)) }
    ensures below { IfOk result (λ n. AreBelow (length g.new.gates) n) }
    ensures digits { IfOk result (λ r. (bits : List Bool) (n : ℕ) → digit n (integer_of g.new.gates bits r) ≡ xor (digit n (integer_of g.old.gates bits a.now)) (digit n (integer_of g.old.gates bits b.now))) }
    ensures grown { Extends g.old.gates g.new.gates }
    ensures inputs { g.new.inputs ≡ g.old.inputs }
{
    digit_by_digit(alloc, g, Operation::Xor, a, b)
}

/// The sum of two integers and a digit, one digit wider than the longer integer.
pub(crate) fn sum_with_carry(
    alloc: Global,
    g: &mut Gates,
    a: &BitInt,
    b: &BitInt,
    carry: Lit,
) -> Result<BitInt, NoMemory>
    requires left { AreBelow (length g.old.gates) a.now }
    requires right { AreBelow (length g.old.gates) b.now }
    requires carry { carry.place < length g.old.gates }
    requires left_few { length a.now ≤ 263 }
    requires right_few { length b.now ≤ 263 }
    ensures width { IfOk result (λ n. length n ≡ max (length a.now) (length b.now) + 1) }
    ensures below { IfOk result (λ n. AreBelow (length g.new.gates) n) }
    ensures value { IfOk result (λ n. (bits : List Bool) → integer_of g.new.gates bits n ≡ integer_of g.old.gates bits a.now +ℤ integer_of g.old.gates bits b.now +ℤ (if value_of g.old.gates bits carry then pos 1 else pos 0)) }
    ensures grown { Extends g.old.gates g.new.gates }
    ensures inputs { g.new.inputs ≡ g.old.inputs }
{
    let n = a.len().max(b.len()) + 1;
    let xs = extended(alloc, a.digits(), n)?;
    let ys = extended(alloc, b.digits(), n)?;
    let digits = summed(alloc, g, &xs, &ys, carry)?;
    Ok(BitInt::from_vec(digits))
}

/// The sum, one digit wider than the longer operand.
pub fn add(alloc: Global, g: &mut Gates, a: &BitInt, b: &BitInt) -> Result<BitInt, NoMemory>
    requires left { AreBelow (length g.old.gates) a.now }
    requires right { AreBelow (length g.old.gates) b.now }
    requires left_few { length a.now ≤ 130 }
    requires right_few { length b.now ≤ 130 }
    ensures width { IfOk result (λ n. length n ≡ max (length a.now) (length b.now) + 1) }
    ensures below { IfOk result (λ n. AreBelow (length g.new.gates) n) }
    ensures value { IfOk result (λ n. (bits : List Bool) → integer_of g.new.gates bits n ≡ integer_of g.old.gates bits a.now +ℤ integer_of g.old.gates bits b.now) }
    ensures grown { Extends g.old.gates g.new.gates }
    ensures inputs { g.new.inputs ≡ g.old.inputs }
{
    let carry = g.constant(false);
    let sum = sum_with_carry(alloc, g, a, b, carry)?;
    Ok(sum)
}

/// The difference, one digit wider than the longer operand.
pub fn sub(alloc: Global, g: &mut Gates, a: &BitInt, b: &BitInt) -> Result<BitInt, NoMemory>
    requires left { AreBelow (length g.old.gates) a.now }
    requires right { AreBelow (length g.old.gates) b.now }
    requires left_few { length a.now ≤ 263 }
    requires right_few { length b.now ≤ 263 }
    ensures width { IfOk result (λ n. length n ≡ max (length a.now) (length b.now) + 1) }
    ensures below { IfOk result (λ n. AreBelow (length g.new.gates) n) }
    ensures value { IfOk result (λ n. (bits : List Bool) → integer_of g.new.gates bits n ≡ integer_of g.old.gates bits a.now -ℤ integer_of g.old.gates bits b.now) }
    ensures grown { Extends g.old.gates g.new.gates }
    ensures inputs { g.new.inputs ≡ g.old.inputs }
{
    let carry = g.constant(true);
    let flipped = flipped_where(alloc, g, b, carry)?;
    let difference = sum_with_carry(alloc, g, a, &flipped, carry)?;
    Ok(difference)
}

/// Whether the sum of two integers and a digit is negative.
fn sum_is_negative(
    alloc: Global,
    g: &mut Gates,
    a: &BitInt,
    b: &BitInt,
    carry: Lit,
) -> Result<Lit, NoMemory>
    requires left { AreBelow (length g.old.gates) a.now }
    requires right { AreBelow (length g.old.gates) b.now }
    requires carry { carry.place < length g.old.gates }
    ensures below { IfOk result (λ c. c.place < length g.new.gates) }
    ensures value { IfOk result (λ c. (bits : List Bool) → value_of g.new.gates bits c ≡ int_lt (integer_of g.old.gates bits a.now +ℤ integer_of g.old.gates bits b.now +ℤ (if value_of g.old.gates bits carry then pos 1 else pos 0)) (pos 0)) }
    ensures grown { Extends g.old.gates g.new.gates }
    ensures inputs { g.new.inputs ≡ g.old.inputs }
{
    let n = a.len().max(b.len()) + 1;
    let xs = extended(alloc, a.digits(), n)?;
    let ys = extended(alloc, b.digits(), n)?;
    let sign = sum_sign(g, &xs, &ys, carry)?;
    Ok(sign)
}

/// Whether a is less than b.
pub fn lt(alloc: Global, g: &mut Gates, a: &BitInt, b: &BitInt) -> Result<Lit, NoMemory>
    requires left { AreBelow (length g.old.gates) a.now }
    requires right { AreBelow (length g.old.gates) b.now }
    requires left_few { length a.now ≤ 130 }
    requires right_few { length b.now ≤ 130 }
    ensures below { IfOk result (λ c. c.place < length g.new.gates) }
    ensures value { IfOk result (λ c. (bits : List Bool) → value_of g.new.gates bits c ≡ int_lt (integer_of g.old.gates bits a.now) (integer_of g.old.gates bits b.now)) }
    ensures grown { Extends g.old.gates g.new.gates }
    ensures inputs { g.new.inputs ≡ g.old.inputs }
{
    let carry = g.constant(true);
    let flipped = flipped_where(alloc, g, b, carry)?;
    let less = sum_is_negative(alloc, g, a, &flipped, carry)?;
    Ok(less)
}

/// Whether they are equal.
pub fn eq(alloc: Global, g: &mut Gates, a: &BitInt, b: &BitInt) -> Result<Lit, NoMemory>
    requires left { AreBelow (length g.old.gates) a.now }
    requires right { AreBelow (length g.old.gates) b.now }
    requires left_few { length a.now ≤ 130 }
    requires right_few { length b.now ≤ 130 }
    ensures below { IfOk result (λ c. c.place < length g.new.gates) }
    ensures value { IfOk result (λ c. (bits : List Bool) → value_of g.new.gates bits c ≡ int_eq (integer_of g.old.gates bits a.now) (integer_of g.old.gates bits b.now)) }
    ensures grown { Extends g.old.gates g.new.gates }
    ensures inputs { g.new.inputs ≡ g.old.inputs }
{
    let n = a.len().max(b.len());
    let xs = extended(alloc, a.digits(), n)?;
    let ys = extended(alloc, b.digits(), n)?;
    let equal = same(g, &xs, &ys)?;
    Ok(equal)
}

/// Whether it is an `i128`: at least -2^127 and less than 2^127.
pub fn fits128(g: &mut Gates, a: &BitInt) -> Result<Lit, NoMemory>
    requires { AreBelow (length g.old.gates) a.now }
    ensures below { IfOk result (λ c. c.place < length g.new.gates) }
    ensures value { IfOk result (λ c. (bits : List Bool) → value_of g.new.gates bits c ≡ is_within (2 ^ 127) (integer_of g.old.gates bits a.now)) }
    ensures grown { Extends g.old.gates g.new.gates }
    ensures inputs { g.new.inputs ≡ g.old.inputs }
{
    let digits = a.digits();
    if digits.len() < 128 {
        return Ok(g.constant(true));
    }
    let fits = same(g, &digits[127..], &digits[128..])?;
    Ok(fits)
}
