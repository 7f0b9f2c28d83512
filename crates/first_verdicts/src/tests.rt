ghost use Rattle.std.specs.Prelude.{◌≡◌, ◌<◌, ◌≤◌, length, IfOk, IfSome, option_to_list};
ghost use Rattle.first_tree.specs.Arena.{IsFunctionBelow};
ghost use Rattle.first_verdicts.specs.Meaning.{IsConditionBelow};

use crate::{Condition, Fault, Verdict, verdict_of};
use first_tree::{
    BinaryOp, Bounds, CompareOp, ExcClass, ExprId, ExprNode, FnNode, LimitKind, Module, Post,
};
use spec_running::Value;
use std::alloc::Global;
use std::test::Fail;
use xh_outside::{Bytes, NoMemory};

fn bytes(alloc: Global, text: &[u8]) -> Result<Bytes, NoMemory> {
    let mut copy = Bytes::new(alloc);
    copy.extend(text)?;
    Ok(copy)
}

fn name(alloc: Global, trees: &mut Module, text: &[u8]) -> Result<ExprId, NoMemory>
    ensures there { IfOk result (λ e. e.index < length trees.new.nodes) }
    ensures grown { length trees.old.nodes ≤ length trees.new.nodes }
{
    trees.add_expr(ExprNode::Name {
        name: bytes(alloc, text)?,
        line: 1,
    })
}

fn integer(trees: &mut Module, value: u32) -> Result<ExprId, NoMemory>
    ensures there { IfOk result (λ e. e.index < length trees.new.nodes) }
    ensures grown { length trees.old.nodes ≤ length trees.new.nodes }
{
    trees.add_expr(ExprNode::Int { value, line: 1 })
}

fn product(trees: &mut Module, left: ExprId, right: ExprId) -> Result<ExprId, NoMemory>
    requires left { left.index < length trees.old.nodes }
    requires right { right.index < length trees.old.nodes }
    ensures there { IfOk result (λ e. e.index < length trees.new.nodes) }
    ensures grown { length trees.old.nodes ≤ length trees.new.nodes }
{
    trees.add_expr(ExprNode::Binary {
        op: BinaryOp::Multiply,
        left,
        right,
        line: 1,
    })
}

fn comparison(
    trees: &mut Module,
    op: CompareOp,
    left: ExprId,
    right: ExprId,
) -> Result<ExprId, NoMemory>
    requires left { left.index < length trees.old.nodes }
    requires right { right.index < length trees.old.nodes }
    ensures there { IfOk result (λ e. e.index < length trees.new.nodes) }
    ensures grown { length trees.old.nodes ≤ length trees.new.nodes }
{
    trees.add_expr(ExprNode::Compare {
        op,
        left,
        right,
        line: 1,
    })
}

/// A list of at most one expression.
fn list(alloc: Global, e: Option<ExprId>) -> Result<Vec<ExprId>, NoMemory>
    ensures { IfOk result (λ list. list.items ≡ option_to_list e) }
{
    let mut list = Vec::new(alloc);
    if let Some(e) = e {
        list.push(e)?;
    }
    Ok(list)
}

/// A function with at most one precondition and one `return`, and the steps of each run of it.
#[derive(Clone, Copy)]
struct Case<'a> {
    names: &'a [&'a [u8]],
    precondition: Option<ExprId>,
    permitted: &'a [ExcClass],
    value: Option<ExprId>,
    max_steps: u32,
}

fn function(alloc: Global, size: usize, case: &Case) -> Result<FnNode, NoMemory>
    requires precondition { IfSome case.now.precondition (λ e. e.index < size) }
    requires value { IfSome case.now.value (λ e. e.index < size) }
    ensures { IfOk result (λ f. IsFunctionBelow size f) }
{
    let mut parameters = Vec::new(alloc);
    for name in case.names {
        parameters.push(bytes(alloc, name)?)?;
    }
    Ok(FnNode {
        name: bytes(alloc, b"f")?,
        line: 1,
        parameters,
        preconditions: list(alloc, case.precondition)?,
        permitted: Vec::from_slice(alloc, case.permitted)?,
        posts: Vec::new(alloc),
        values: list(alloc, case.value)?,
    })
}

/// The verdict over the integers 0, -1, 1 and -2.
fn verdict(
    alloc: Global,
    trees: &Module,
    case: &Case,
    condition: Condition,
) -> Result<Verdict, NoMemory>
    requires precondition { IfSome case.now.precondition (λ e. e.index < length trees.now.nodes) }
    requires value { IfSome case.now.value (λ e. e.index < length trees.now.nodes) }
    requires condition { IsConditionBelow (length trees.now.nodes) condition }
    requires least { 1 ≤ case.now.max_steps }
    requires most { case.now.max_steps ≤ 100000 }
{
    let function = function(alloc, trees.len(), case)?;
    let bounds = Bounds {
        int_bits: 2,
        max_len: 3,
        char_bits: 7,
        max_nest: 2,
        max_steps: case.max_steps,
        max_depth: 20,
    };
    verdict_of(alloc, trees, &function, condition, &bounds)
}

/// The condition that an expression holds after the call.
fn post(expr: ExprId) -> Condition
    ensures { result ≡ Condition.Post (record { line = 2; expr = expr }) }
{
    Condition::Post(Post { line: 2, expr })
}

fn is_error(verdict: &Verdict, arguments: &[i64], expected: Fault) -> bool {
    match verdict {
        Verdict::Error { call, fault } => {
            call.arguments.as_slice() == arguments && *fault == expected
        }
        _ => false,
    }
}

fn is_not_confirmed(verdict: &Verdict, arguments: &[i64], expected: LimitKind) -> bool {
    match verdict {
        Verdict::NotConfirmed { call, kind } => {
            call.arguments.as_slice() == arguments && *kind == expected
        }
        _ => false,
    }
}

#[test]
fn the_first_breaking_call_counts(rt: HostRuntime) -> Result<(), Fail> {
    let alloc = rt.alloc();
    let mut trees = Module::new(alloc);
    let x = name(alloc, &mut trees, b"x")?;
    let y = name(alloc, &mut trees, b"y")?;
    let is_below = comparison(&mut trees, CompareOp::LessEqual, y, x)?;
    let case = Case {
        names: &[b"x", b"y"],
        precondition: None,
        permitted: &[],
        value: Some(y),
        max_steps: 3,
    };

    let broken = verdict(alloc, &trees, &case, post(is_below))?;
    assert!(rt; is_error(&broken, &[0, 1], Fault::WasFalse(Value::Int(1))));
    assert!(rt; broken.is_error());
    let kept = verdict(alloc, &trees, &case, Condition::Raises)?;
    assert!(rt; matches!(kept, Verdict::Confirmed));
    assert!(rt; !kept.is_error());
    Ok(())
}

#[test]
fn the_first_of_three_arguments_counts_most(rt: HostRuntime) -> Result<(), Fail> {
    let alloc = rt.alloc();
    let mut trees = Module::new(alloc);
    let a = name(alloc, &mut trees, b"a")?;
    let b = name(alloc, &mut trees, b"b")?;
    let c = name(alloc, &mut trees, b"c")?;
    let two = integer(&mut trees, 2)?;
    let front = product(&mut trees, a, b)?;
    let all = product(&mut trees, front, c)?;
    let is_other = comparison(&mut trees, CompareOp::NotEqual, all, two)?;
    let case = Case {
        names: &[b"a", b"b", b"c"],
        precondition: None,
        permitted: &[],
        value: Some(c),
        max_steps: 9,
    };

    let broken = verdict(alloc, &trees, &case, post(is_other))?;
    assert!(rt; is_error(&broken, &[-1, 1, -2], Fault::WasFalse(Value::Int(-2))));
    Ok(())
}

#[test]
fn a_limit_counts_at_calls_that_meet_the_preconditions(rt: HostRuntime) -> Result<(), Fail> {
    let alloc = rt.alloc();
    let mut trees = Module::new(alloc);
    let x = name(alloc, &mut trees, b"x")?;
    let zero = integer(&mut trees, 0)?;
    let is_negative = comparison(&mut trees, CompareOp::Less, x, zero)?;
    let square = product(&mut trees, x, x)?;
    let is_below = comparison(&mut trees, CompareOp::LessEqual, x, square)?;
    // The precondition takes 3 steps, the body 2, and the post line 5.
    for (max_steps, limited) in [(5, None), (4, Some([-1])), (2, Some([0]))] {
        let case = Case {
            names: &[b"x"],
            precondition: Some(is_negative),
            permitted: &[],
            value: Some(x),
            max_steps,
        };
        let verdict = verdict(alloc, &trees, &case, post(is_below))?;
        let is_told = match limited {
            Some(call) => is_not_confirmed(&verdict, &call, LimitKind::Steps),
            None => matches!(verdict, Verdict::Confirmed),
        };
        assert!(rt; is_told, "with {max_steps} steps");
    }
    Ok(())
}

#[test]
fn preconditions_that_no_call_meets_are_told(rt: HostRuntime) -> Result<(), Fail> {
    let alloc = rt.alloc();
    let mut trees = Module::new(alloc);
    let x = name(alloc, &mut trees, b"x")?;
    let unset = name(alloc, &mut trees, b"y")?;
    let is_below_itself = comparison(&mut trees, CompareOp::Less, x, x)?;
    for precondition in [is_below_itself, unset] {
        let case = Case {
            names: &[b"x"],
            precondition: Some(precondition),
            permitted: &[],
            value: Some(unset),
            max_steps: 9,
        };
        let verdict = verdict(alloc, &trees, &case, Condition::Raises)?;
        assert!(rt; matches!(verdict, Verdict::Unmet));
    }
    Ok(())
}

#[test]
fn a_class_is_permitted_with_those_below_it(rt: HostRuntime) -> Result<(), Fail> {
    let alloc = rt.alloc();
    let mut trees = Module::new(alloc);
    let unset = name(alloc, &mut trees, b"y")?;
    let rows: [(&[ExcClass], bool); 5] = [
        (&[], false),
        (&[ExcClass::Exception], true),
        (&[ExcClass::ValueError, ExcClass::NameError], true),
        (&[ExcClass::UnboundLocalError], true),
        (&[ExcClass::LookupError, ExcClass::TypeError], false),
    ];
    for (row, (permitted, is_permitted)) in rows.into_iter().enumerate() {
        let case = Case {
            names: &[b"x"],
            precondition: None,
            permitted,
            value: Some(unset),
            max_steps: 9,
        };
        let verdict = verdict(alloc, &trees, &case, Condition::Raises)?;
        let is_told = if is_permitted {
            matches!(verdict, Verdict::Confirmed)
        } else {
            is_error(
                &verdict,
                &[0],
                Fault::RaisedInBody(ExcClass::UnboundLocalError),
            )
        };
        assert!(rt; is_told, "in row {row}");
    }
    Ok(())
}

#[test]
fn a_body_without_return_gives_none(rt: HostRuntime) -> Result<(), Fail> {
    let alloc = rt.alloc();
    let mut trees = Module::new(alloc);
    let returned = name(alloc, &mut trees, b"__return__")?;
    let one = integer(&mut trees, 1)?;
    let is_below = comparison(&mut trees, CompareOp::Less, returned, one)?;
    let is_one = comparison(&mut trees, CompareOp::Equal, returned, one)?;
    let case = Case {
        names: &[],
        precondition: None,
        permitted: &[],
        value: None,
        max_steps: 9,
    };

    let raised = verdict(alloc, &trees, &case, post(is_below))?;
    assert!(rt; is_error(&raised, &[], Fault::RaisedInPost(ExcClass::TypeError)));
    let broken = verdict(alloc, &trees, &case, post(is_one))?;
    assert!(rt; is_error(&broken, &[], Fault::WasFalse(Value::Nil)));
    Ok(())
}
