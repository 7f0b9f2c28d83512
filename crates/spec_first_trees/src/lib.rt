//! What a text stands for: expressions, statements, functions and programs, as definitions speak of them.
#![tactic(auto)]

/// An arithmetic operator with two operands.
#[derive(Clone, Copy, Debug, PartialEq, Eq)]
pub enum BinaryOp {
    Add,
    Subtract,
    Multiply,
}

/// A comparison operator.
#[derive(Clone, Copy, Debug, PartialEq, Eq)]
pub enum CompareOp {
    Equal,
    NotEqual,
    Less,
    LessEqual,
    Greater,
    GreaterEqual,
}

/// Why a run ends before its end: see `docs/report.md`, "Limits".
#[derive(Clone, Copy, Debug, PartialEq, Eq)]
pub enum LimitKind {
    Steps,
    Depth,
    Int,
    Profile,
}

/// The exception classes (Python 3.12 library reference, "Built-in Exceptions").
#[derive(Clone, Copy, Debug, PartialEq, Eq)]
pub enum ExcClass {
    Exception,
    ArithmeticError,
    ZeroDivisionError,
    LookupError,
    IndexError,
    KeyError,
    ValueError,
    TypeError,
    AttributeError,
    NameError,
    UnboundLocalError,
    AssertionError,
    RuntimeError,
    NotImplementedError,
}

/// The exception classes with their names, each before those below it.
pub const CLASS_NAMES: [(&str, ExcClass); 14] = [
    ("Exception", ExcClass::Exception),
    ("ArithmeticError", ExcClass::ArithmeticError),
    ("ZeroDivisionError", ExcClass::ZeroDivisionError),
    ("LookupError", ExcClass::LookupError),
    ("IndexError", ExcClass::IndexError),
    ("KeyError", ExcClass::KeyError),
    ("ValueError", ExcClass::ValueError),
    ("TypeError", ExcClass::TypeError),
    ("AttributeError", ExcClass::AttributeError),
    ("NameError", ExcClass::NameError),
    ("UnboundLocalError", ExcClass::UnboundLocalError),
    ("AssertionError", ExcClass::AssertionError),
    ("RuntimeError", ExcClass::RuntimeError),
    ("NotImplementedError", ExcClass::NotImplementedError),
];
