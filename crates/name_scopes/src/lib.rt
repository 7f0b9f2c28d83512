//! What names stand for at each place of a module: in the bodies of functions and in contract lines.
//!
//! One [`Scope`] serves all bodies and contract lines of a module, one after the other. It takes constant time to look up a
//! name in it.
#![tactic(auto)]

mod keywords;
mod lines;
mod parameters;
mod scope;
#[cfg(test)]
mod tests;

pub use scope::Scope;
