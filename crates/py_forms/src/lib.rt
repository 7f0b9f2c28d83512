//! Tells of each line that was read what the rules on places ask of it.
#![tactic(auto)]

mod forms;
#[cfg(test)]
mod tests;

pub use forms::form_of;
