ghost use Rattle.std.specs.List.{position_or_len};
ghost use Rattle.std.specs.Prelude.{◌≡◌, ◌<◌, ◌+◌, ◌&&◌, not, Bool, true, false, List, [], ◌∷◌, ◌++◌, length, slice_get, slice_index_or, Some, IfOk, OnErr};
ghost use Rattle.bit_gates.specs.declared.lit.Gate.TheVariants as gate;
ghost use Rattle.bit_gates.specs.Formulas.{Extends, IsGateBelow, AreGatesFrom, value_in, values_onto, value_of, gate_meaning, negated, same_gate, folded, and_gate, placed, and_lit, and_gates};

use crate::{Bits, Gate, Lit};
use indexmap::IndexSet;
use std::alloc::Global;
use std::marker::Model;
use xh_outside::NoMemory;

/// An arena of gates. Each stands once, in order of first use; the first is `True`.
#[derive(Drop)]
pub struct Gates {
    // the gates behind `True`
    gates: IndexSet<Gate>,
    inputs: usize,
}

impl Model for Gates {
    ghost use Rattle.std.specs.Prelude.{◌∷◌};
    ghost use Rattle.bit_gates.specs.declared.lit.Gate.TheVariants as gate;
    ghost use Rattle.bit_gates.specs.Formulas.{Arena, AreBehindTrue};

    ghost Value = { Arena };

    ghost view = { λ g. record { gates = gate.True ∷ g.gates.keys; inputs = g.inputs } };

    ghost invariant = { λ g. AreBehindTrue g.inputs g.gates.keys };
}

// The conjunction of two literals where no gate is needed.
fn folded(a: Lit, b: Lit) -> Option<Lit>
    ensures { result ≡ folded a b }
{
    let wrong = Lit {
        place: 0,
        positive: false,
    };
    if a.place == 0 {
        Some(if a.positive { b } else { wrong })
    } else if b.place == 0 {
        Some(if b.positive { a } else { wrong })
    } else if a.place == b.place {
        Some(if a.positive == b.positive { a } else { wrong })
    } else {
        None
    }
}

// The same two literals, the earlier place first.
fn ordered(a: Lit, b: Lit) -> (Lit, Lit)
    ensures { gate.And result.0 result.1 ≡ and_gate a b }
{
    if a.place < b.place { (a, b) } else { (b, a) }
}

// The value of a literal, where the gates up to its own have the values `values`.
fn literal_value(values: &[bool], a: Lit) -> bool
    requires { a.place < length values.now }
    ensures { result ≡ value_in values.now a }
{
    if a.positive {
        values[a.place]
    } else {
        !values[a.place]
    }
}

// The value of a gate, where the gates before it have the values `values`.
fn meaning(gate: &Gate, values: &[bool], bits: &Bits) -> bool
    requires { IsGateBelow (length bits.now) (length values.now) gate.now }
    ensures { result ≡ gate_meaning (value_in values.now) bits.now gate.now }
{
    match *gate {
        Gate::True => true,
        Gate::Input(i) => bits.get(i).unwrap_or(false),
        Gate::And(a, b) => literal_value(values, a) && literal_value(values, b),
    }
}

// The values of `True` and the gates behind it.
fn values_of(alloc: Global, gates: &[Gate], bits: &Bits) -> Result<Vec<bool>, NoMemory>
    requires { AreGatesFrom (length bits.now) 1 gates.now }
    ensures { IfOk result (λ vs. vs.items ≡ values_onto bits.now [] (gate.True ∷ gates.now)) }
{
    let mut values = Vec::new(alloc);
    values.push(true)?;
    for gate in gates {
        let v = meaning(gate, &values, bits);
        values.push(v)?;
    }
    Ok(values)
}

impl Gates {
    /// An arena with no input. It takes no memory.
    pub fn new(alloc: Global) -> Gates
        ensures gates { result.gates ≡ gate.True ∷ [] }
        ensures inputs { result.inputs ≡ 0 }
    {
        Gates {
            gates: IndexSet::new(alloc),
            inputs: 0,
        }
    }

    /// Adds the next input. A refusal leaves the arena as it was.
    pub fn input(&mut self) -> Result<Lit, NoMemory>
        ensures literal { IfOk result (λ a. a ≡ record { place = length self.old.gates; positive = true }) }
        ensures gates { IfOk result (λ _. self.new.gates ≡ self.old.gates ++ gate.Input self.old.inputs ∷ []) }
        ensures inputs { IfOk result (λ _. self.new.inputs ≡ self.old.inputs + 1) }
        ensures value { IfOk result (λ a. (bits : List Bool) → value_of self.new.gates bits a ≡ slice_index_or bits self.old.inputs false) }
        ensures refused { OnErr result (self.new ≡ self.old) }
    {
        let next = self.len();
        self.gates.insert(Gate::Input(self.inputs))?;
        self.inputs += 1;
        Ok(Lit {
            place: next,
            positive: true,
        })
    }

    // The place of an `And` gate, which is added where it does not stand yet.
    fn insert(&mut self, a: Lit, b: Lit) -> Result<usize, NoMemory>
        requires left { a.place < length self.old.gates }
        requires right { b.place < length self.old.gates }
        ensures place { IfOk result (λ i. i ≡ position_or_len (same_gate (gate.And a b)) self.old.gates) }
        ensures gates { IfOk result (λ i. self.new.gates ≡ placed self.old.gates i (gate.And a b)) }
        ensures inputs { self.new.inputs ≡ self.old.inputs }
        ensures refused { OnErr result (self.new ≡ self.old) }
    {
        let next = self.len();
        let (index, added) = self.gates.insert_full(Gate::And(a, b))?;
        Ok(if added { next } else { index + 1 })
    }

    /// The literal that is true where both are. A pair that was seen gives the same literal again.
    pub fn and(&mut self, a: Lit, b: Lit) -> Result<Lit, NoMemory>
        requires left { a.place < length self.old.gates }
        requires right { b.place < length self.old.gates }
        ensures literal { IfOk result (λ c. c ≡ and_lit self.old.gates a b) }
        ensures gates { IfOk result (λ _. self.new.gates ≡ and_gates self.old.gates a b) }
        ensures below { IfOk result (λ c. c.place < length self.new.gates) }
        ensures value { IfOk result (λ c. (bits : List Bool) → value_of self.new.gates bits c ≡ (value_of self.old.gates bits a && value_of self.old.gates bits b)) }
        ensures grown { Extends self.old.gates self.new.gates }
        ensures inputs { self.new.inputs ≡ self.old.inputs }
        ensures refused { OnErr result (self.new ≡ self.old) }
    {
        let _ = &self.gates;
        match folded(a, b) {
            Some(c) => Ok(c),
            None => {
                let (first, second) = ordered(a, b);
                let place = self.insert(first, second)?;
                Ok(Lit {
                    place,
                    positive: true,
                })
            }
        }
    }

    /// The negation.
    pub fn not(&self, a: Lit) -> Lit
        ensures literal { result ≡ negated a }
        ensures value { (bits : List Bool) → value_of self.now.gates bits result ≡ not (value_of self.now.gates bits a) }
    {
        Lit {
            place: a.place,
            positive: !a.positive,
        }
    }

    /// The literal of a truth value.
    pub fn constant(&self, v: bool) -> Lit
        ensures below { result.place < length self.now.gates }
        ensures value { (bits : List Bool) → value_of self.now.gates bits result ≡ v }
    {
        let _ = &self.gates;
        Lit {
            place: 0,
            positive: v,
        }
    }

    /// The truth value of a literal where the inputs have these values, in one pass over the gates up to its own.
    pub fn value(&self, alloc: Global, a: Lit, bits: &Bits) -> Result<bool, NoMemory>
        requires place { a.place < length self.now.gates }
        requires bits { length bits.now ≡ self.now.inputs }
        ensures { IfOk result (λ v. v ≡ value_of self.now.gates bits.now a) }
    {
        let values = values_of(alloc, &self.gates.as_slice()[..a.place], bits)?;
        Ok(literal_value(&values, a))
    }

    /// The number of gates, at least 1.
    pub fn len(&self) -> usize
        ensures { result ≡ length self.now.gates }
    {
        self.gates.len() + 1
    }

    /// The gate at a place, whose operands are earlier ones.
    pub fn gate(&self, i: usize) -> Gate
        requires { i < length self.now.gates }
        ensures gate { slice_get self.now.gates i ≡ Some result }
        ensures below { IsGateBelow self.now.inputs i result }
        ensures value { (bits : List Bool) → value_of self.now.gates bits (record { place = i; positive = true }) ≡ gate_meaning (value_of self.now.gates bits) bits result }
    {
        if i == 0 {
            Gate::True
        } else {
            self.gates.as_slice()[i - 1]
        }
    }

    /// The place of the gate of a literal.
    pub fn place(&self, a: Lit) -> usize
        ensures { result ≡ a.place }
    {
        a.place
    }

    /// Whether a literal is its gate, and not the negation.
    pub fn positive(&self, a: Lit) -> bool
        ensures { result ≡ a.positive }
    {
        a.positive
    }
}
