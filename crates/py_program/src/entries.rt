use crate::{ClassId, ExcClass, FnId};
use py_tree::{ExprId, NameId, NamesId, ParameterNode, StmtId};

/// What is checked of a function. Each has the line, from 1, at which it is reported.
#[derive(Clone, Copy, Debug, PartialEq, Eq)]
pub enum Condition {
    /// No exception class is raised but those that are permitted.
    Raises {
        line: u32,
    },
    /// The expression holds behind a normal return. Where names are given, the other parameters are as they were.
    Post {
        line: u32,
        expr: ExprId,
        may_change: Option<NamesId>,
    },
    /// The expression holds of the object.
    Invariant {
        line: u32,
        expr: ExprId,
    },
}

/// What a program has of a function.
#[derive(Drop)]
pub struct FnEntry {
    pub name: NameId,
    /// Its class, where it has one.
    pub class: Option<ClassId>,
    /// The line of its `def`, from 1.
    pub def_line: u32,
    /// The line, from 1, on which it ends.
    pub last_line: u32,
    pub checked: bool,
    pub parameters: Vec<ParameterNode>,
    pub preconditions: Vec<ExprId>,
    /// The exception classes that may be raised, with those below them.
    pub raises: Vec<ExcClass>,
    /// None where it is not checked.
    pub conditions: Vec<Condition>,
    pub body: Vec<StmtId>,
}

/// What a program has of a class.
#[derive(Drop)]
pub struct ClassEntry {
    pub name: NameId,
    /// Its first line, from 1.
    pub first: u32,
    /// The line, from 1, on which it ends.
    pub last: u32,
    /// The function that makes its objects.
    pub constructor: Option<FnId>,
    pub invariants: Vec<ExprId>,
}
