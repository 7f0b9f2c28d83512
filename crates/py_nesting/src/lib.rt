//! Whether a logical line goes deeper than is admitted: by the height of an expression in it, or by the blocks in which
//! it stands.
#![tactic(auto)]

mod headers;
mod lines;
mod statements;
#[cfg(test)]
mod tests;

pub use lines::is_deep;
