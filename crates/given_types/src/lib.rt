//! What annotations give parameters, and what the checks of types look at in a function.
#![tactic(auto)]

use py_tree::TypeId;

/// What its annotation gives a parameter.
#[derive(Clone, Copy, Debug, PartialEq, Eq)]
pub enum GivenType {
    /// It has none.
    Missing,
    /// It has one on this line, from 1, that is no type.
    Unknown { line: u32 },
    /// A type, which has no strings.
    Known(TypeId),
}

/// What the checks of types look at in a function.
#[derive(Drop)]
pub struct Signature {
    /// The line of its `def`, from 1.
    pub line: u32,
    /// Whether it is checked: it has a contract line, or its class an invariant.
    pub is_checked: bool,
    /// The number of its class, from 0 in the order of lines.
    pub class: Option<usize>,
    /// Whether it makes the objects of its class.
    pub is_constructor: bool,
    /// Whether it takes an object of its class.
    pub takes_self: bool,
    /// What its parameters are given, but for the `self` of a class.
    pub types: Vec<GivenType>,
}
