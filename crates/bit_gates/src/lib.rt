//! And-inverter gates, kept once each in order of first use.
//!
//! A [`Lit`] is a gate of an arena or its negation, and stands for a formula over the inputs. [`Gates`] makes them.
#![tactic(auto)]

mod bits;
mod gates;
mod laws;
mod lit;

pub use bits::Bits;
pub use gates::Gates;
pub use laws::{seen_again, value_kept};
pub use lit::{Gate, Lit};

#[cfg(test)]
mod tests;
