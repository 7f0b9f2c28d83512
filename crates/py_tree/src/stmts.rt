use crate::{ArgumentsNode, ExprId, NameId, NamesId, Operator, StmtId, TypeId};

/// A parameter of a function.
#[derive(Clone, Copy, Debug, PartialEq, Eq)]
pub struct ParameterNode {
    pub name: NameId,
    pub annotation: Option<TypeId>,
    pub default: Option<ExprId>,
}

/// An `elif` with its block.
#[derive(Drop)]
pub struct BranchNode {
    /// The line of the `elif`, from 1.
    pub line: u32,
    pub condition: ExprId,
    pub body: Vec<StmtId>,
}

/// An `except` with its block.
#[derive(Drop)]
pub struct HandlerNode {
    /// The line of the `except`, from 1.
    pub line: u32,
    /// The classes, which are none where all are caught.
    pub classes: NamesId,
    pub body: Vec<StmtId>,
}

/// A node of a statement. Each has first the line, from 1, on which its first token stands.
#[derive(Drop)]
pub enum StmtNode {
    Assign {
        line: u32,
        target: ExprId,
        value: ExprId,
    },
    Annotate {
        line: u32,
        target: ExprId,
        annotation: TypeId,
        value: Option<ExprId>,
    },
    Augment {
        line: u32,
        target: ExprId,
        operator: Operator,
        value: ExprId,
    },
    Evaluate {
        line: u32,
        value: ExprId,
    },
    Return {
        line: u32,
        value: Option<ExprId>,
    },
    Pass {
        line: u32,
    },
    Break {
        line: u32,
    },
    Continue {
        line: u32,
    },
    Assert {
        line: u32,
        condition: ExprId,
        message: Option<ExprId>,
    },
    /// `raise` alone.
    Reraise {
        line: u32,
    },
    /// The class, and the arguments where there are brackets.
    Raise {
        line: u32,
        class: NameId,
        arguments: Option<ArgumentsNode>,
    },
    Delete {
        line: u32,
        target: ExprId,
    },
    /// The names between the dots.
    Import {
        line: u32,
        path: NamesId,
    },
    ImportFrom {
        line: u32,
        module: NameId,
        names: NamesId,
    },
    Def {
        line: u32,
        /// The line, from 1, on which the last token of its block ends.
        last: u32,
        name: NameId,
        parameters: Vec<ParameterNode>,
        result: Option<TypeId>,
        body: Vec<StmtId>,
    },
    Class {
        line: u32,
        /// The line, from 1, on which the last token of its block ends.
        last: u32,
        name: NameId,
        body: Vec<StmtId>,
    },
    /// The block of `else` is empty where there is none, here and below.
    If {
        line: u32,
        condition: ExprId,
        body: Vec<StmtId>,
        branches: Vec<BranchNode>,
        otherwise: Vec<StmtId>,
    },
    While {
        line: u32,
        condition: ExprId,
        body: Vec<StmtId>,
        otherwise: Vec<StmtId>,
    },
    For {
        line: u32,
        variable: NameId,
        iterable: ExprId,
        body: Vec<StmtId>,
        otherwise: Vec<StmtId>,
    },
    Try {
        line: u32,
        body: Vec<StmtId>,
        handlers: Vec<HandlerNode>,
        otherwise: Vec<StmtId>,
    },
}
