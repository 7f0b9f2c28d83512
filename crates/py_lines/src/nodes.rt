use py_tree::{ExprId, NameId, NamesId, ParameterNode, StmtId, TypeId};

/// A header, whose parts are in a module. Each has first the line, from 1, on which its first word stands.
#[derive(Drop)]
pub enum HeaderNode {
    Def {
        line: u32,
        name: NameId,
        parameters: Vec<ParameterNode>,
        result: Option<TypeId>,
    },
    Class {
        line: u32,
        name: NameId,
    },
    If {
        line: u32,
        condition: ExprId,
    },
    Elif {
        line: u32,
        condition: ExprId,
    },
    Else {
        line: u32,
    },
    While {
        line: u32,
        condition: ExprId,
    },
    For {
        line: u32,
        variable: NameId,
        iterable: ExprId,
    },
    Try {
        line: u32,
    },
    /// The classes, which are none where all are caught.
    Except {
        line: u32,
        classes: NamesId,
    },
}

/// A logical line, whose parts are in a module.
#[derive(Drop)]
pub enum LineNode {
    Simple(StmtId),
    Header(HeaderNode),
    /// A header with the one statement of its block.
    HeaderSimple(HeaderNode, StmtId),
}
