//! Which nodes of a graph are reached from some of them.
//!
//! Nodes have numbers from 0, and to each belongs a list of the nodes to which an edge leads from it. [`reached`] searches in
//! breadth (Cormen et al., "Breadth-first search").
#![tactic(auto)]

mod breadth;
mod search;
#[cfg(test)]
mod tests;

pub use breadth::reached;
