// The calls of a function, and the integers that are their arguments.
ghost use Rattle.std.specs.Prelude.{◌≡◌, ◌<◌, ◌≤◌, ◌^◌, pos, negsuc, IfOk};
ghost use Rattle.spec_calls.specs.Calls.{integers};

use std::alloc::Global;
use xh_outside::NoMemory;

/// A call of a function, by its arguments in the order of its parameters.
#[derive(Drop)]
pub struct Call {
    pub arguments: Vec<i64>,
}

fn at_or_above_zero(m: u64) -> i64
    requires { m < 2 ^ 63 }
    ensures { result ≡ pos m }
{
    m as i64
}

fn below_zero(m: u64) -> i64
    requires { m < 2 ^ 63 }
    ensures { result ≡ negsuc m }
{
    -1 - m as i64
}

/// The integers of so many bits, in the order 0, -1, 1, -2, 2 and so on. Takes memory for all of them.
pub fn integers(alloc: Global, bits: u8) -> Result<Vec<i64>, NoMemory>
    requires least { 1 ≤ bits }
    requires most { bits ≤ 64 }
    ensures { IfOk result (λ list. list.items ≡ integers bits) }
{
    let mut list = Vec::new(alloc);
    let count = 1u64 << (bits - 1);
    for m in 0..count {
        list.push(at_or_above_zero(m))?;
        list.push(below_zero(m))?;
    }
    Ok(list)
}
