ghost use Rattle.std.specs.Prelude.{◌≡◌, ◌<◌, ◌||◌, Bool, List, length, IfOk};
ghost use Rattle.bit_gates.specs.Formulas.{Extends, value_of};
ghost use Rattle.bit_ints.specs.Integers.{most, xor};

use bit_gates::{Gates, Lit};
use xh_outside::NoMemory;

/// The literal that is true where one of them is.
pub(crate) fn or(g: &mut Gates, a: Lit, b: Lit) -> Result<Lit, NoMemory>
    requires left { a.place < length g.old.gates }
    requires right { b.place < length g.old.gates }
    ensures below { IfOk result (λ c. c.place < length g.new.gates) }
    ensures value { IfOk result (λ c. (bits : List Bool) → value_of g.new.gates bits c ≡ (value_of g.old.gates bits a || value_of g.old.gates bits b)) }
    ensures grown { Extends g.old.gates g.new.gates }
    ensures inputs { g.new.inputs ≡ g.old.inputs }
{
    let not_a = g.not(a);
    let not_b = g.not(b);
    let neither = g.and(not_a, not_b)?;
    Ok(g.not(neither))
}

/// The literal that is true where exactly one of them is.
pub(crate) fn xor(g: &mut Gates, a: Lit, b: Lit) -> Result<Lit, NoMemory>
    requires left { a.place < length g.old.gates }
    requires right { b.place < length g.old.gates }
    ensures below { IfOk result (λ c. c.place < length g.new.gates) }
    ensures value { IfOk result (λ c. (bits : List Bool) → value_of g.new.gates bits c ≡ xor (value_of g.old.gates bits a) (value_of g.old.gates bits b)) }
    ensures grown { Extends g.old.gates g.new.gates }
    ensures inputs { g.new.inputs ≡ g.old.inputs }
{
    let both = g.and(a, b)?;
    let either = or(g, a, b)?;
    let not_both = g.not(both);
    let one = g.and(either, not_both)?;
    Ok(one)
}

/// The literal that is true where two of three are.
pub(crate) fn majority(g: &mut Gates, a: Lit, b: Lit, c: Lit) -> Result<Lit, NoMemory>
    requires left { a.place < length g.old.gates }
    requires right { b.place < length g.old.gates }
    requires third { c.place < length g.old.gates }
    ensures below { IfOk result (λ d. d.place < length g.new.gates) }
    ensures value { IfOk result (λ d. (bits : List Bool) → value_of g.new.gates bits d ≡ most (value_of g.old.gates bits a) (value_of g.old.gates bits b) (value_of g.old.gates bits c)) }
    ensures grown { Extends g.old.gates g.new.gates }
    ensures inputs { g.new.inputs ≡ g.old.inputs }
{
    let both = g.and(a, b)?;
    let either = or(g, a, b)?;
    let carried = g.and(either, c)?;
    let two = or(g, both, carried)?;
    Ok(two)
}

/// The digit of a sum at a place and the next carry.
pub(crate) fn full_adder(g: &mut Gates, a: Lit, b: Lit, carry: Lit) -> Result<(Lit, Lit), NoMemory>
    requires left { a.place < length g.old.gates }
    requires right { b.place < length g.old.gates }
    requires carry { carry.place < length g.old.gates }
    ensures below { IfOk result (λ (s, c). (s.place < length g.new.gates) × (c.place < length g.new.gates)) }
    ensures digit { IfOk result (λ (s, c). (bits : List Bool) → value_of g.new.gates bits s ≡ xor (xor (value_of g.old.gates bits a) (value_of g.old.gates bits b)) (value_of g.old.gates bits carry)) }
    ensures next { IfOk result (λ (s, c). (bits : List Bool) → value_of g.new.gates bits c ≡ most (value_of g.old.gates bits a) (value_of g.old.gates bits b) (value_of g.old.gates bits carry)) }
    ensures grown { Extends g.old.gates g.new.gates }
    ensures inputs { g.new.inputs ≡ g.old.inputs }
{
    let half = xor(g, a, b)?;
    let digit = xor(g, half, carry)?;
    let both = g.and(a, b)?;
    let carried = g.and(half, carry)?;
    let next = or(g, both, carried)?;
    Ok((digit, next))
}
