//! What the names in bodies and contract lines stand for, and which uses of them a module does not admit, as definitions.
#![tactic(auto)]

use spec_names::Builtin;

/// What a name stands for.
#[derive(Clone, Copy, Debug, PartialEq, Eq)]
pub enum Meaning {
    /// A parameter, a target, or a variable of a loop or a comprehension.
    Local,
    /// The returned value, in a post line.
    Result,
    /// The arguments before the call, in a post line.
    Old,
    Constant,
    Function,
    Class,
    Imported,
    BuiltIn(Builtin),
    Exception,
    Unknown,
}

/// Where an expression stands.
#[derive(Clone, Copy, Debug, PartialEq, Eq)]
pub enum Place {
    Read,
    /// It is walked over, and may be a `range`.
    Walked,
    /// A call on this line, from 1, calls it.
    Called(u32),
}
