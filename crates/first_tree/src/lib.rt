//! Trees in an arena.
//!
//! A [`Module`] keeps the nodes of its expressions one after the other, and the functions of its file. A node names
//! its parts by the ids of earlier nodes, so each node is the root of one finite tree, and contracts see that tree.
#![tactic(auto)]

mod bounds;
mod module;
mod nodes;
#[cfg(test)]
mod tests;

pub use bounds::Bounds;
pub use module::Module;
pub use nodes::{ExprId, ExprNode, FnNode, Post};
pub use spec_first_trees::{BinaryOp, CLASS_NAMES, CompareOp, ExcClass, LimitKind};
