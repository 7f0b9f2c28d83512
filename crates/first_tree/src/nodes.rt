use crate::{BinaryOp, CompareOp, ExcClass};
use xh_outside::Bytes;

/// An expression of a module, by the place of its node.
#[derive(Clone, Copy, Debug, PartialEq, Eq)]
pub struct ExprId {
    pub index: usize,
}

/// A node of an expression. It has the line, from 1, on which its first token stands.
#[derive(Drop)]
pub enum ExprNode {
    Name {
        name: Bytes,
        line: u32,
    },
    Int {
        value: u32,
        line: u32,
    },
    Binary {
        op: BinaryOp,
        left: ExprId,
        right: ExprId,
        line: u32,
    },
    Compare {
        op: CompareOp,
        left: ExprId,
        right: ExprId,
        line: u32,
    },
    /// An expression in brackets.
    Group {
        inner: ExprId,
        line: u32,
    },
}

/// A post line: its expression, and the line on which it stands.
#[derive(Clone, Copy, Debug, PartialEq, Eq)]
pub struct Post {
    pub line: u32,
    pub expr: ExprId,
}

/// A function with its contract lines, each kind in the order of lines. Lines are counted from 1.
#[derive(Drop)]
pub struct FnNode {
    pub name: Bytes,
    /// The line of its `def`.
    pub line: u32,
    /// The names of its parameters, which are integers.
    pub parameters: Vec<Bytes>,
    pub preconditions: Vec<ExprId>,
    /// The exception classes that it may raise, with those below them.
    pub permitted: Vec<ExcClass>,
    pub posts: Vec<Post>,
    /// What its `return` statements return; the first counts, and with none the function returns None.
    pub values: Vec<ExprId>,
}
