// The verdict of a condition: its calls are tried one after the other.
ghost use Rattle.std.specs.Prelude.{◌≡◌, ◌<◌, length, IfOk, OnOk};
ghost use Rattle.spec_verdicts.specs.Verdicts.{verdict};
ghost use Rattle.spec_verdicts.specs.Verdicts as verdicts;
ghost use Rattle.spec_verdicts.specs.Report.{is_error};
ghost use Rattle.first_tree.specs.Arena.{IsFunctionBelow};
ghost use Rattle.first_tree.specs.BoundsOf.{bounds_of};
ghost use Rattle.first_tree.specs.Functions.{function_in};
ghost use Rattle.first_verdicts.specs.Meaning.{IsConditionBelow, condition_in, verdict_in};
ghost use Rattle.first_verdicts.specs.Judges.{call_of};
ghost use Rattle.first_verdicts.specs.Joining.{joined, verdict_at, asked, beginning};

use crate::calls::{Call, integers};
use crate::judging::{Judgement, Question, judge};
use first_tree::{Bounds, ExcClass, FnNode, LimitKind, Module, Post};
use spec_running::Value;
use std::alloc::Global;
use xh_outside::NoMemory;

/// A condition of a function.
#[derive(Clone, Copy, Debug, PartialEq, Eq)]
pub enum Condition {
    /// No exception class is raised but those that are permitted; reported at the line of the `def`.
    Raises,
    /// A post line holds; reported at its own line.
    Post(Post),
}

/// What breaks a condition.
#[derive(Clone, Copy, Debug, PartialEq, Eq)]
pub enum Fault {
    /// The post line is false, where the body returned this value.
    WasFalse(Value),
    RaisedInBody(ExcClass),
    RaisedInPost(ExcClass),
}

/// The answer for a condition over all calls.
#[derive(Drop)]
pub enum Verdict {
    Error { call: Call, fault: Fault },
    NotConfirmed { call: Call, kind: LimitKind },
    Unmet,
    Confirmed,
}

impl Verdict {
    /// Whether some call breaks the condition.
    pub fn is_error(&self) -> bool
        ensures { result ≡ is_error (verdict_in self.now) }
    {
        match self {
            Verdict::Error { .. } => true,
            Verdict::NotConfirmed { .. } | Verdict::Unmet | Verdict::Confirmed => false,
        }
    }
}

/// The verdict over some calls and one more, by the verdict over those and the judgement of this one. The arguments are
/// copied where the verdict is about them.
fn with_call(
    alloc: Global,
    so_far: Verdict,
    judgement: Judgement,
    arguments: &[i64],
) -> Result<Verdict, NoMemory>
    ensures { IfOk result (λ v. verdict_in v ≡ joined (verdict_in so_far) (verdict_at (call_of arguments.now) judgement)) }
{
    if so_far.is_error() {
        return Ok(so_far);
    }
    match judgement {
        Judgement::Unmet => Ok(so_far),
        Judgement::Held => Ok(with_held(so_far)),
        Judgement::Broken(fault) => Ok(Verdict::Error {
            call: copied(alloc, arguments)?,
            fault,
        }),
        Judgement::Limited(kind) => with_limited(alloc, so_far, kind, arguments),
    }
}

/// The verdict over some calls and one more that holds.
fn with_held(so_far: Verdict) -> Verdict
    ensures { verdict_in result ≡ joined (verdict_in so_far) verdicts.Confirmed }
{
    match so_far {
        Verdict::Unmet => Verdict::Confirmed,
        kept => kept,
    }
}

/// The verdict over some calls and one more that is limited.
fn with_limited(
    alloc: Global,
    so_far: Verdict,
    kind: LimitKind,
    arguments: &[i64],
) -> Result<Verdict, NoMemory>
    ensures { IfOk result (λ v. verdict_in v ≡ joined (verdict_in so_far) (verdicts.NotConfirmed (call_of arguments.now) kind)) }
{
    match so_far {
        Verdict::Unmet | Verdict::Confirmed => Ok(Verdict::NotConfirmed {
            call: copied(alloc, arguments)?,
            kind,
        }),
        kept => Ok(kept),
    }
}

/// The call with these arguments.
fn copied(alloc: Global, arguments: &[i64]) -> Result<Call, NoMemory>
    ensures { IfOk result (λ call. call.arguments.items ≡ arguments.now) }
{
    Ok(Call {
        arguments: Vec::from_slice(alloc, arguments)?,
    })
}

/// Tries the calls that begin with these arguments and have so many more, each an integer of the domain, in order; up to
/// the first that breaks the condition. Answers the verdict over these calls and those before.
fn search(
    alloc: Global,
    question: &Question,
    domain: &[i64],
    left: usize,
    arguments: &mut Vec<i64>,
    mut so_far: Verdict,
) -> Result<Verdict, NoMemory>
    requires function { IsFunctionBelow (length question.now.trees.now.nodes) question.now.function.now }
    requires condition { IsConditionBelow (length question.now.trees.now.nodes) question.now.condition }
    ensures verdict { IfOk result (λ v. verdict_in v ≡ joined (verdict_in so_far) (asked question.now (beginning domain.now left arguments.old.items))) }
    ensures arguments { OnOk result (arguments.new.items ≡ arguments.old.items) }
{
    if left == 0 {
        return with_call(alloc, so_far, judge(question, arguments), arguments);
    }
    for argument in domain {
        arguments.push(*argument)?;
        so_far = search(alloc, question, domain, left - 1, arguments, so_far)?;
        arguments.pop();
        if so_far.is_error() {
            return Ok(so_far);
        }
    }
    Ok(so_far)
}

/// The verdict of a condition over all calls of the function within the bounds. `NoMemory` comes where there is no
/// memory for the integers of the bounds, or for a call that is kept. Takes time for each call up to the first that
/// breaks the condition, and memory for the integers and for one call.
pub fn verdict_of(
    alloc: Global,
    trees: &Module,
    function: &FnNode,
    condition: Condition,
    bounds: &Bounds,
) -> Result<Verdict, NoMemory>
    requires function { IsFunctionBelow (length trees.now.nodes) function.now }
    requires condition { IsConditionBelow (length trees.now.nodes) condition }
    ensures { IfOk result (λ v. verdict_in v ≡ verdict (function_in trees.now.nodes function.now) (condition_in trees.now.nodes function.now condition) (bounds_of bounds.now)) }
{
    let question = Question {
        trees,
        function,
        condition,
        bounds,
    };
    let domain = integers(alloc, bounds.int_bits)?;
    let mut arguments = Vec::new(alloc);
    search(
        alloc,
        &question,
        &domain,
        function.parameters.len(),
        &mut arguments,
        Verdict::Unmet,
    )
}
