ghost use Rattle.std.specs.Prelude.{◌≡◌, ◌≤◌, Bool, List, length, IfOk};
ghost use Rattle.bit_ints.specs.Integers.{AreBelow, integer_of};

use crate::BitInt;
use bit_gates::Gates;
use std::alloc::Global;
use xh_outside::NoMemory;

impl BitInt {
    /// The integer v, in as few digits as it needs.
    pub fn from_const(alloc: Global, g: &Gates, v: i128) -> Result<BitInt, NoMemory>
        ensures some { IfOk result (λ n. 1 ≤ length n) }
        ensures few { IfOk result (λ n. length n ≤ 128) }
        ensures below { IfOk result (λ n. AreBelow (length g.now.gates) n) }
        ensures value { IfOk result (λ n. (bits : List Bool) → integer_of g.now.gates bits n ≡ v) }
    {
        let negative = v < 0;
        let mut rest = v.unsigned_abs();
        if negative {
            rest -= 1;
        }
        let mut lits = Vec::new(alloc);
        while rest > 0 {
            lits.push(g.constant((rest % 2 == 1) != negative))?;
            rest /= 2;
        }
        lits.push(g.constant(negative))?;
        Ok(BitInt::from_vec(lits))
    }
}
