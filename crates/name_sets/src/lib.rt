//! Sets of the names of a module.
//!
//! A [`NameSet`] tells of each name of a module whether it is in the set. All its calls but [`NameSet::new`] take constant
//! time, [`NameSet::clear`] too, so that one set serves all the scopes of a module, one after the other.
#![tactic(auto)]

mod sets;
#[cfg(test)]
mod tests;

pub use sets::NameSet;
