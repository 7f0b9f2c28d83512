//! The contract lines of a module: the lines of docstrings that hold contracts, and why they are refused (PEP 316).
#![tactic(auto)]

ghost use Rattle.std.specs.Prelude.{◌≡◌, List, Some};
ghost use Rattle.spec_contracts.specs.declared.Refusal.{Refusal};
ghost use Rattle.spec_contracts.specs.ContractLines.{first_refusal, AreLater};

/// What a contract line promises.
#[derive(Clone, Copy, Debug, PartialEq, Eq)]
pub enum LineKind {
    /// `pre:`, what a caller has to see to.
    Pre,
    /// `post:`, what holds behind a normal return.
    Post,
    /// `raises:`, the exception classes that may be raised.
    Raises,
    /// `inv:`, what holds of each object of a class.
    Invariant,
}

/// Why a contract line is refused. Of two at one line the one that stands first here is told.
#[derive(Clone, Copy, Debug, PartialEq, Eq)]
pub enum ContractFault {
    /// An expression is missing or cannot be read, or what stands behind `raises:` is no list of names.
    BadExpression,
    /// A name in brackets is no parameter, or one behind `raises:` is no exception class.
    UnknownName,
    /// `inv:` in a function, or another contract line in a class.
    Misplaced,
}

/// A contract line that is refused.
#[derive(Clone, Copy, Debug, PartialEq, Eq)]
pub struct Refusal {
    /// From 1, in the text that holds the docstring.
    pub line: u32,
    pub fault: ContractFault,
}

/// The exception classes (Python 3.12 library reference, "Built-in Exceptions").
pub const EXCEPTION_CLASSES: [&str; 14] = [
    "Exception",
    "ArithmeticError",
    "ZeroDivisionError",
    "LookupError",
    "IndexError",
    "KeyError",
    "ValueError",
    "TypeError",
    "AttributeError",
    "NameError",
    "UnboundLocalError",
    "AssertionError",
    "RuntimeError",
    "NotImplementedError",
];

/// The first refusal is the soonest of all.
pub fn the_first_refusal_is_the_soonest()
    ensures { (rs : List Refusal) (r : Refusal) → first_refusal rs ≡ Some r → AreLater r rs }
{}
