//! What a run means: values, outcomes, and running as a recursion on trees.
#![tactic(auto)]

use spec_first_trees::{ExcClass, LimitKind};

/// A value. An integer lies from -2^127 to 2^127 - 1.
#[derive(Clone, Copy, Debug, PartialEq, Eq)]
pub enum Value {
    Nil,
    Bool(bool),
    Int(i128),
}

/// How an activity ends.
#[derive(Clone, Copy, Debug, PartialEq, Eq)]
pub enum Outcome {
    Returned(Value),
    Raised(ExcClass),
    Limit(LimitKind),
}
