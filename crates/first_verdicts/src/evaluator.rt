// The private evaluator: it runs a tree by recursion, as its meaning is defined.
ghost use Rattle.std.specs.Prelude.{◌≡◌, ◌<◌, pos, length, option_map};
ghost use Rattle.spec_running.specs.Running.{eval, read};
ghost use Rattle.spec_running.specs.States.{local};
ghost use Rattle.first_tree.specs.Arena.{shown};
ghost use Rattle.first_verdicts.specs.Evaluates.{passed, locals_in, RunsTo, stepped, AreOperands};

use crate::operations::{calculated, compared};
use first_tree::{ExcClass, ExprId, ExprNode, LimitKind, Module};
use spec_running::{Outcome, Value};
use xh_outside::Bytes;

/// The name of the returned value in a post line (PEP 316).
const RETURNED: &[u8] = b"__return__";

/// The names that an expression may read.
#[derive(Clone, Copy)]
pub struct Locals<'a> {
    /// The names of the parameters.
    pub parameters: &'a [Bytes],
    /// Their arguments, in the same order.
    pub arguments: &'a [i64],
    /// In a post line, the value that the body returned.
    pub returned: Option<Value>,
}

/// An outcome, and the steps that are left behind it.
#[derive(Clone, Copy)]
pub struct Evaluated {
    pub outcome: Outcome,
    pub steps: u32,
}

/// The values of two operands, and the steps that are left behind them.
#[derive(Clone, Copy)]
pub struct Operands {
    pub left: Value,
    pub right: Value,
    pub steps: u32,
}

/// The argument of the first parameter of this name, where it has one.
fn argument(parameters: &[Bytes], arguments: &[i64], name: &[u8]) -> Option<i64>
    ensures { option_map Value.Int result ≡ local (passed parameters.now arguments.now) name.now }
{
    for (place, parameter) in parameters.iter().enumerate() {
        if parameter.as_slice() == name {
            return arguments.get(place).copied();
        }
    }
    None
}

/// The value of a local, or UnboundLocalError where it has none.
fn read(locals: &Locals, name: &[u8]) -> Outcome
    ensures { result ≡ read (local (locals_in locals.now) name.now) }
{
    if let Some(argument) = argument(locals.parameters, locals.arguments, name) {
        return Outcome::Returned(Value::Int(i128::from(argument)));
    }
    match locals.returned {
        Some(value) if RETURNED == name => Outcome::Returned(value),
        _ => Outcome::Raised(ExcClass::UnboundLocalError),
    }
}

fn integer(value: u32) -> Value
    ensures { result ≡ Value.Int (pos value) }
{
    Value::Int(i128::from(value))
}

/// The outcome of a node without parts, which takes one step.
fn leaf(outcome: Outcome, steps: u32) -> Evaluated
    ensures { result ≡ stepped outcome steps }
{
    if steps == 0 {
        return Evaluated {
            outcome: Outcome::Limit(LimitKind::Steps),
            steps: 0,
        };
    }
    Evaluated {
        outcome,
        steps: steps - 1,
    }
}

/// Evaluates an expression. Each node takes one step at its start, and brackets take none.
#[cycle(evaluator)]
pub fn evaluate(trees: &Module, e: ExprId, locals: &Locals, steps: u32) -> Evaluated
    requires { e.index < length trees.now.nodes }
    ensures { RunsTo (eval (shown trees.now.nodes e.index)) (locals_in locals.now) steps result.outcome result.steps }
{
    match trees.expr(e) {
        ExprNode::Group { inner, .. } => evaluate(trees, *inner, locals, steps),
        ExprNode::Name { name, .. } => leaf(read(locals, name.as_slice()), steps),
        ExprNode::Int { value, .. } => leaf(Outcome::Returned(integer(*value)), steps),
        ExprNode::Binary {
            op,
            left,
            right,
            ..
        } => match evaluate_both(trees, *left, *right, locals, steps) {
            Ok(both) => Evaluated {
                outcome: calculated(*op, both.left, both.right),
                steps: both.steps,
            },
            Err(ended) => ended,
        },
        ExprNode::Compare {
            op,
            left,
            right,
            ..
        } => match evaluate_both(trees, *left, *right, locals, steps) {
            Ok(both) => Evaluated {
                outcome: compared(*op, both.left, both.right),
                steps: both.steps,
            },
            Err(ended) => ended,
        },
    }
}

/// Evaluates both operands of a node, which takes one step itself; or says how the run ends before.
#[cycle(evaluator)]
fn evaluate_both(
    trees: &Module,
    left: ExprId,
    right: ExprId,
    locals: &Locals,
    steps: u32,
) -> Result<Operands, Evaluated>
    requires left { left.index < length trees.now.nodes }
    requires right { right.index < length trees.now.nodes }
    ensures { AreOperands (shown trees.now.nodes left.index) (shown trees.now.nodes right.index) (locals_in locals.now) steps result }
{
    if steps == 0 {
        return Err(Evaluated {
            outcome: Outcome::Limit(LimitKind::Steps),
            steps: 0,
        });
    }
    let first = evaluate(trees, left, locals, steps - 1);
    let left = match first.outcome {
        Outcome::Returned(value) => value,
        Outcome::Raised(_) | Outcome::Limit(_) => return Err(first),
    };
    let second = evaluate(trees, right, locals, first.steps);
    let right = match second.outcome {
        Outcome::Returned(value) => value,
        Outcome::Raised(_) | Outcome::Limit(_) => return Err(second),
    };
    Ok(Operands {
        left,
        right,
        steps: second.steps,
    })
}
