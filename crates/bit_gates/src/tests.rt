ghost use Rattle.std.specs.Prelude.{◌≡◌, ◌<◌, length};

use crate::{Bits, Gate, Gates, Lit};
use std::alloc::Global;
use std::test::Fail;
use xh_outside::NoMemory;

fn bits(alloc: Global, values: &[bool]) -> Result<Bits, NoMemory> {
    let mut made = Bits::new(alloc);
    for value in values {
        made.push(*value)?;
    }
    Ok(made)
}

// The value of a literal at two inputs.
fn value_at(alloc: Global, gates: &Gates, a: Lit, p: bool, q: bool) -> Result<bool, NoMemory>
    requires place { a.place < length gates.now.gates }
    requires inputs { gates.now.inputs ≡ 2 }
{
    let mut assigned = Bits::new(alloc);
    assigned.push(p)?;
    assigned.push(q)?;
    gates.value(alloc, a, &assigned)
}

// The values of a literal at each assignment of two inputs.
fn table(alloc: Global, gates: &Gates, a: Lit) -> Result<[bool; 4], NoMemory>
    requires place { a.place < length gates.now.gates }
    requires inputs { gates.now.inputs ≡ 2 }
{
    Ok([
        value_at(alloc, gates, a, false, false)?,
        value_at(alloc, gates, a, false, true)?,
        value_at(alloc, gates, a, true, false)?,
        value_at(alloc, gates, a, true, true)?,
    ])
}

#[test]
fn a_formula_has_its_table(rt: HostRuntime) -> Result<(), Fail> {
    let alloc = rt.alloc();
    let mut gates = Gates::new(alloc);
    let x = gates.input()?;
    let y = gates.input()?;
    let not_y = gates.not(y);
    let only_x = gates.and(x, not_y)?;
    assert_eq!(rt; table(alloc, &gates, only_x)?, [false, false, true, false]);
    Ok(())
}

#[test]
fn constants_are_folded(rt: HostRuntime) -> Result<(), Fail> {
    let mut gates = Gates::new(rt.alloc());
    let x = gates.input()?;
    let not_x = gates.not(x);
    let no = gates.constant(false);
    assert_eq!(rt; gates.and(x, not_x)?, no);
    assert_eq!(rt; gates.and(gates.constant(true), x)?, x);
    assert_eq!(rt; gates.len(), 2);
    Ok(())
}

#[test]
fn a_pair_has_one_gate(rt: HostRuntime) -> Result<(), Fail> {
    let mut gates = Gates::new(rt.alloc());
    let x = gates.input()?;
    let y = gates.input()?;
    let both = gates.and(x, y)?;
    assert_eq!(rt; gates.and(x, y)?, both);
    assert_eq!(rt; gates.and(y, x)?, both);
    assert_eq!(rt; (gates.place(both), gates.positive(both)), (3, true));
    Ok(())
}

#[test]
fn gates_are_read_back(rt: HostRuntime) -> Result<(), Fail> {
    let mut gates = Gates::new(rt.alloc());
    let x = gates.input()?;
    assert_eq!(rt;
        (gates.gate(0), gates.gate(1)),
        (Gate::True, Gate::Input(0))
    );
    assert_eq!(rt; (gates.len(), gates.place(x)), (2, 1));
    Ok(())
}

#[test]
fn bits_end(rt: HostRuntime) -> Result<(), Fail> {
    let empty = Bits::new(rt.alloc());
    assert!(rt; empty.is_empty());
    let two = bits(rt.alloc(), &[true, false])?;
    assert_eq!(rt; (two.len(), two.is_empty()), (2, false));
    assert_eq!(rt;
        [two.get(0), two.get(1), two.get(2)],
        [Some(true), Some(false), None]
    );
    Ok(())
}
