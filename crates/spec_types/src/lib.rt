//! The types of parameters, which parameters need one, and how many values they have, as definitions.
#![tactic(auto)]

/// What a name stands for in annotations.
#[derive(Clone, Copy, Debug, PartialEq, Eq)]
pub enum TypeName {
    /// No type.
    Unknown,
    Int,
    Bool,
    Str,
    List,
    Dict,
    Optional,
    /// The class of this number, from 0 in the order of lines.
    Class(usize),
}

/// What decides where a type may stand.
#[derive(Clone, Copy, Debug, PartialEq, Eq)]
pub enum TypeKind {
    /// A type of values that can be the keys of a dict.
    Key,
    /// The type of None.
    None,
    Other,
}
