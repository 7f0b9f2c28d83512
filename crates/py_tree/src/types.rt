use crate::{NameId, StrPart, TypeId};

/// A node of a type. Each has first the line, from 1, on which its first token stands.
#[derive(Drop)]
pub enum TypeNode {
    /// A name with its arguments, which are none where it has no brackets.
    Name {
        line: u32,
        name: NameId,
        arguments: Vec<TypeId>,
    },
    /// Types between `|`.
    Union {
        line: u32,
        first: TypeId,
        rest: Vec<TypeId>,
    },
    None {
        line: u32,
    },
    /// A type in quotes.
    Text {
        line: u32,
        part: StrPart,
    },
}
