// Judging one call for a condition.
ghost use Rattle.std.specs.Prelude.{◌≡◌, ◌<◌, [], length, map};
ghost use Rattle.spec_running.specs.Running.{fresh};
ghost use Rattle.spec_verdicts.specs.Judging.{decided, on_precondition};
ghost use Rattle.spec_verdicts.specs.Breaking.{line_outcome, raise_fault};
ghost use Rattle.first_tree.specs.Arena.{shown, AreExprsBelow, IsFunctionBelow};
ghost use Rattle.first_tree.specs.BoundsOf.{bounds_of};
ghost use Rattle.first_tree.specs.Functions.{expr_in, function_in};
ghost use Rattle.first_verdicts.specs.Evaluates.{locals_in};
ghost use Rattle.first_verdicts.specs.Meaning.{condition_in, IsConditionBelow};
ghost use Rattle.first_verdicts.specs.Judges.{call_of, decided_by, by_body, EndsBody, IsJudged, IsLineJudged, IsRaiseJudged, Tells};

use crate::evaluator::{Locals, evaluate};
use crate::operations::truth;
use crate::permitted::is_permitted;
use crate::verdicts::{Condition, Fault};
use first_tree::{Bounds, ExcClass, ExprId, FnNode, LimitKind, Module};
use spec_running::{Outcome, Value};

/// A condition of a function, for its calls within the bounds.
#[derive(Clone, Copy)]
pub struct Question<'a> {
    pub trees: &'a Module,
    pub function: &'a FnNode,
    pub condition: Condition,
    pub bounds: &'a Bounds,
}

/// What preconditions say of a call.
#[derive(Clone, Copy, Debug, PartialEq, Eq)]
pub enum Preconditions {
    Met,
    Unmet,
    Limited(LimitKind),
}

/// The answer for a condition in one call.
#[derive(Clone, Copy, Debug, PartialEq, Eq)]
pub enum Judgement {
    Unmet,
    Held,
    Broken(Fault),
    Limited(LimitKind),
}

/// What the outcome of one precondition says of the call.
fn judge_precondition(outcome: Outcome) -> Preconditions
    ensures { decided_by result ≡ on_precondition outcome None }
{
    match outcome {
        Outcome::Returned(value) if truth(value) => Preconditions::Met,
        Outcome::Returned(_) | Outcome::Raised(_) => Preconditions::Unmet,
        Outcome::Limit(kind) => Preconditions::Limited(kind),
    }
}

/// What preconditions say of a call with these locals: the first that is not met decides.
fn judge_preconditions(
    trees: &Module,
    preconditions: &[ExprId],
    locals: &Locals,
    steps: u32,
) -> Preconditions
    requires { AreExprsBelow (length trees.now.nodes) preconditions.now }
    ensures { decided_by result ≡ decided (map (expr_in trees.now.nodes) preconditions.now) (fresh [] (locals_in locals.now) steps) }
{
    for precondition in preconditions {
        let ended = evaluate(trees, *precondition, locals, steps);
        match judge_precondition(ended.outcome) {
            Preconditions::Met => {}
            Preconditions::Unmet => return Preconditions::Unmet,
            Preconditions::Limited(kind) => return Preconditions::Limited(kind),
        }
    }
    Preconditions::Met
}

/// How the body ends. Its `return` statement takes a step of its own.
fn run_body(question: &Question, arguments: &[i64]) -> Outcome
    requires { IsFunctionBelow (length question.now.trees.now.nodes) question.now.function.now }
    ensures { EndsBody (function_in question.now.trees.now.nodes question.now.function.now) (call_of arguments.now) (bounds_of question.now.bounds.now) result }
{
    let locals = Locals {
        parameters: question.function.parameters.as_slice(),
        arguments,
        returned: None,
    };
    match question.function.values.first() {
        Some(value) => evaluate(
            question.trees,
            *value,
            &locals,
            question.bounds.max_steps - 1,
        )
        .outcome,
        None => Outcome::Returned(Value::Nil),
    }
}

/// How a post line ends behind a body that returned.
fn run_line(question: &Question, line: ExprId, arguments: &[i64], returned: Value) -> Outcome
    requires { line.index < length question.now.trees.now.nodes }
    ensures { result ≡ line_outcome (function_in question.now.trees.now.nodes question.now.function.now) (call_of arguments.now) (bounds_of question.now.bounds.now) [] returned (shown question.now.trees.now.nodes line.index) }
{
    let locals = Locals {
        parameters: question.function.parameters.as_slice(),
        arguments,
        returned: Some(returned),
    };
    evaluate(question.trees, line, &locals, question.bounds.max_steps).outcome
}

/// What the outcome of a post line says of its condition.
fn judge_line(returned: Value, outcome: Outcome) -> Judgement
    ensures { IsLineJudged returned outcome result }
{
    match outcome {
        Outcome::Returned(holds) => {
            if truth(holds) {
                Judgement::Held
            } else {
                Judgement::Broken(Fault::WasFalse(returned))
            }
        }
        Outcome::Raised(class) => Judgement::Broken(Fault::RaisedInPost(class)),
        Outcome::Limit(kind) => Judgement::Limited(kind),
    }
}

/// What a class that the body raised says of the condition that no class but these is raised.
fn judge_raised(permitted: &[ExcClass], class: ExcClass) -> Judgement
    ensures { IsRaiseJudged (raise_fault permitted.now class) result }
{
    if is_permitted(permitted, class) {
        Judgement::Held
    } else {
        Judgement::Broken(Fault::RaisedInBody(class))
    }
}

/// Judges a call by its body, where the preconditions are met.
fn judge_body(question: &Question, arguments: &[i64]) -> Judgement
    requires function { IsFunctionBelow (length question.now.trees.now.nodes) question.now.function.now }
    requires condition { IsConditionBelow (length question.now.trees.now.nodes) question.now.condition }
    ensures { Tells (function_in question.now.trees.now.nodes question.now.function.now) (condition_in question.now.trees.now.nodes question.now.function.now question.now.condition) (bounds_of question.now.bounds.now) (call_of arguments.now) (by_body (function_in question.now.trees.now.nodes question.now.function.now) (bounds_of question.now.bounds.now) (call_of arguments.now)) result }
{
    match (run_body(question, arguments), question.condition) {
        (Outcome::Limit(kind), _) => Judgement::Limited(kind),
        (Outcome::Raised(class), Condition::Raises) => {
            judge_raised(question.function.permitted.as_slice(), class)
        }
        (Outcome::Raised(_), Condition::Post(_)) => Judgement::Held,
        (Outcome::Returned(_), Condition::Raises) => Judgement::Held,
        (Outcome::Returned(value), Condition::Post(post)) => {
            judge_line(value, run_line(question, post.expr, arguments, value))
        }
    }
}

/// Judges the call with these arguments. Its preconditions, its body and a post line each have a fresh budget of steps.
pub fn judge(question: &Question, arguments: &[i64]) -> Judgement
    requires function { IsFunctionBelow (length question.now.trees.now.nodes) question.now.function.now }
    requires condition { IsConditionBelow (length question.now.trees.now.nodes) question.now.condition }
    ensures { IsJudged (function_in question.now.trees.now.nodes question.now.function.now) (condition_in question.now.trees.now.nodes question.now.function.now question.now.condition) (bounds_of question.now.bounds.now) (call_of arguments.now) result }
{
    let locals = Locals {
        parameters: question.function.parameters.as_slice(),
        arguments,
        returned: None,
    };
    let preconditions = question.function.preconditions.as_slice();
    match judge_preconditions(
        question.trees,
        preconditions,
        &locals,
        question.bounds.max_steps,
    ) {
        Preconditions::Met => judge_body(question, arguments),
        Preconditions::Unmet => Judgement::Unmet,
        Preconditions::Limited(kind) => Judgement::Limited(kind),
    }
}
