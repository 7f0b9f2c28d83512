// Operations on values.
ghost use Rattle.std.specs.Prelude.{◌≡◌, int_lt, int_le};
ghost use Rattle.spec_running.specs.Operations.{number, truth, computed, arithmetic, calculated, equal, compared};
ghost use Rattle.first_verdicts.specs.Comparing.{both};

use first_tree::{BinaryOp, CompareOp, ExcClass, LimitKind};
use spec_running::{Outcome, Value};

/// The integer of an integer or a truth value. None has none.
fn number(value: Value) -> Option<i128>
    ensures { result ≡ number value }
{
    match value {
        Value::Nil => None,
        Value::Bool(true) => Some(1),
        Value::Bool(false) => Some(0),
        Value::Int(n) => Some(n),
    }
}

/// Whether a value counts as true.
pub fn truth(value: Value) -> bool
    ensures { result ≡ truth value }
{
    match value {
        Value::Nil => false,
        Value::Bool(b) => b,
        Value::Int(n) => n != 0,
    }
}

fn arithmetic(op: BinaryOp, a: i128, b: i128) -> Outcome
    ensures { result ≡ computed (arithmetic op a b) }
{
    let exact = match op {
        BinaryOp::Add => a.checked_add(b),
        BinaryOp::Subtract => a.checked_sub(b),
        BinaryOp::Multiply => a.checked_mul(b),
    };
    match exact {
        Some(n) => Outcome::Returned(Value::Int(n)),
        None => Outcome::Limit(LimitKind::Int),
    }
}

/// An arithmetic operation on two values.
pub fn calculated(op: BinaryOp, left: Value, right: Value) -> Outcome
    ensures { result ≡ calculated op left right }
{
    match (number(left), number(right)) {
        (Some(a), Some(b)) => arithmetic(op, a, b),
        _ => Outcome::Raised(ExcClass::TypeError),
    }
}

fn equal(left: Value, right: Value) -> bool
    ensures { result ≡ equal left right }
{
    match (number(left), number(right)) {
        (Some(a), Some(b)) => a == b,
        (None, None) => true,
        _ => false,
    }
}

/// A comparison of two values.
pub fn compared(op: CompareOp, left: Value, right: Value) -> Outcome
    ensures { result ≡ compared op left right }
{
    let is_true = match op {
        CompareOp::Equal => Some(equal(left, right)),
        CompareOp::NotEqual => Some(!equal(left, right)),
        CompareOp::Less => less(left, right),
        CompareOp::LessEqual => less_or_equal(left, right),
        CompareOp::Greater => less(right, left),
        CompareOp::GreaterEqual => less_or_equal(right, left),
    };
    match is_true {
        Some(answer) => Outcome::Returned(Value::Bool(answer)),
        None => Outcome::Raised(ExcClass::TypeError),
    }
}

/// Whether the left value is less; None where one has no integer.
fn less(left: Value, right: Value) -> Option<bool>
    ensures { result ≡ both int_lt (number left) (number right) }
{
    match (number(left), number(right)) {
        (Some(a), Some(b)) => Some(a < b),
        _ => None,
    }
}

fn less_or_equal(left: Value, right: Value) -> Option<bool>
    ensures { result ≡ both int_le (number left) (number right) }
{
    match (number(left), number(right)) {
        (Some(a), Some(b)) => Some(a <= b),
        _ => None,
    }
}
