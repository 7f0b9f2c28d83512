//! The trees of a Python module, in an arena.
//!
//! A [`Module`] keeps the names of a module, each once, and its nodes one after the other. A node names its parts by the
//! ids of earlier ones, so each node is the root of one finite tree, and contracts see that tree.
#![tactic(auto)]

mod bounds;
mod classes;
mod exprs;
mod ids;
mod module;
mod stmts;
#[cfg(test)]
mod tests;
mod types;

pub use bounds::Bounds;
pub use classes::{ExcClass, LimitKind};
pub use exprs::{Argument, ArgumentsNode, ExprNode, GeneratorNode, Link, Pair, StrPart};
pub use ids::{ExprId, NameId, NamesId, StmtId, TypeId};
pub use module::Module;
pub use spec_trees::{Operator, Prefix};
pub use stmts::{BranchNode, HandlerNode, ParameterNode, StmtNode};
pub use types::TypeNode;
