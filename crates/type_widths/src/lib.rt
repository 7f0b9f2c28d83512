//! Checked functions that are too wide: their parameters have too many values, roughly counted.
//!
//! [`told_of_widths`] tells of them. The width of a class is one more than what its constructor takes, where objects stand in
//! each other only so deep. So the widths of all classes are found level by level, each from the one before.
#![tactic(auto)]

mod checked;
mod levels;
mod parameters;
#[cfg(test)]
mod tests;

pub use checked::told_of_widths;
