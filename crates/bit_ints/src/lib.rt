//! Integers in two's complement whose digits are gates.
//!
//! A [`BitInt`] is a list of literals of an arena, from the lowest digit to the sign. Its operations are exact under
//! every assignment of the arena's inputs.
#![tactic(auto)]

mod consts;
mod digit;
mod divisions;
mod int;
mod laws;
mod left_shifts;
mod lists;
mod ops;
mod products;
mod shifts;
mod signs;
#[cfg(test)]
mod tests;

pub use bit_gates::{Bits, Gates, Lit};
pub use divisions::div_mod;
pub use int::BitInt;
pub use laws::one_division;
pub use left_shifts::shl;
pub use ops::{add, bit_and, bit_or, bit_xor, eq, fits128, lt, sub};
pub use products::mul;
pub use shifts::shr;
