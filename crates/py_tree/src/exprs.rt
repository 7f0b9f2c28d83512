use crate::{ExprId, NameId, Operator, Prefix};
use py_text::Text;
use xh_outside::Name;

/// One string literal.
#[derive(Drop)]
pub struct StrPart {
    /// The code points that it stands for.
    pub value: Text,
    /// What stands between its quotes.
    pub source: Name,
    /// Whether it has the prefix r.
    pub raw: bool,
    /// The number of blanks that the line on which it starts begins with.
    pub indent: u32,
    /// The line on which it starts, from 1.
    pub line: u32,
}

/// A key of a dict and its value.
#[derive(Clone, Copy, Debug, PartialEq, Eq)]
pub struct Pair {
    pub key: ExprId,
    pub value: ExprId,
}

/// The element of a comprehension, its variable, what that walks over, and the conditions.
#[derive(Drop)]
pub struct GeneratorNode {
    pub element: ExprId,
    pub variable: NameId,
    pub iterable: ExprId,
    pub conditions: Vec<ExprId>,
}

/// An argument of a call. A keyword argument has its name.
#[derive(Clone, Copy, Debug, PartialEq, Eq)]
pub struct Argument {
    pub name: Option<NameId>,
    pub value: ExprId,
}

/// What stands between the brackets of a call.
#[derive(Drop)]
pub enum ArgumentsNode {
    /// A generator, which stands alone.
    Generated(GeneratorNode),
    Listed(Vec<Argument>),
}

/// An operator of a chain, and the operand behind it.
#[derive(Clone, Copy, Debug, PartialEq, Eq)]
pub struct Link {
    pub operator: Operator,
    pub operand: ExprId,
}

/// A node of an expression. Each has first the line, from 1, on which its first token stands.
#[derive(Drop)]
pub enum ExprNode {
    Name {
        line: u32,
        name: NameId,
    },
    Integer {
        line: u32,
        value: u128,
    },
    /// Adjacent string literals, of which there is at least one.
    Text {
        line: u32,
        first: StrPart,
        rest: Vec<StrPart>,
    },
    Truth {
        line: u32,
        value: bool,
    },
    None {
        line: u32,
    },
    /// An expression in brackets.
    Group {
        line: u32,
        inner: ExprId,
    },
    List {
        line: u32,
        items: Vec<ExprId>,
    },
    Dict {
        line: u32,
        pairs: Vec<Pair>,
    },
    Comprehension {
        line: u32,
        generator: GeneratorNode,
    },
    Attribute {
        line: u32,
        object: ExprId,
        name: NameId,
    },
    Call {
        line: u32,
        function: ExprId,
        arguments: ArgumentsNode,
    },
    Index {
        line: u32,
        object: ExprId,
        index: ExprId,
    },
    Slice {
        line: u32,
        object: ExprId,
        from: Option<ExprId>,
        to: Option<ExprId>,
    },
    Prefixed {
        line: u32,
        operator: Prefix,
        operand: ExprId,
    },
    Binary {
        line: u32,
        operator: Operator,
        left: ExprId,
        right: ExprId,
    },
    /// A chain of comparisons, of `and` or of `or`.
    Chain {
        line: u32,
        first: ExprId,
        links: Vec<Link>,
    },
    /// A conditional expression: the value, the condition, and the value where it is false.
    Choice {
        line: u32,
        value: ExprId,
        condition: ExprId,
        otherwise: ExprId,
    },
}
