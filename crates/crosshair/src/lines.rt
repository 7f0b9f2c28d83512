ghost use Rattle.std.specs.Prelude.{◌≡◌, ◌++◌, List, map, IfOk, OnOk};
ghost use Rattle.spec_calls.specs.Calls.{Number};
ghost use Rattle.spec_calls.specs.Printing.{named, arguments_text, more_text, printed, shown};
ghost use Rattle.spec_verdicts.specs.Lines.{class_name, error_line, fault_text, info_line, limit_name, limit_text, refusal_line, verdict_line, which_returns};
ghost use Rattle.first_tree.specs.declared.nodes.ExprNode.{ExprNode};
ghost use Rattle.first_tree.specs.Functions.{function_in, int_parameter};
ghost use Rattle.first_verdicts.specs.Meaning.{call_in, fault_in, verdict_in};

use first_tree::{ExcClass, FnNode, LimitKind};
use first_verdicts::{Call, Fault, Verdict};
use spec_running::Value;
use std::alloc::Global;
use xh_outside::{Bytes, NoMemory};

/// The line `NAME:LINE: refused: KIND`. The only error is that there is no memory for it.
pub fn refusal_line(alloc: Global, name: &str, line: u32, kind: &str) -> Result<Bytes, NoMemory>
    ensures { IfOk result (λ text. text ≡ refusal_line name.now line kind.now) }
{
    let mut text = Bytes::new(alloc);
    text.extend(format!(in alloc; "{name}:{line}: refused: {kind}\n")?.as_bytes())?;
    Ok(text)
}

/// What is written for a verdict: a line, or nothing where it is no error and the errors alone are
/// asked for. The only error is that there is no memory for it.
pub fn verdict_line(
    alloc: Global,
    report_all: bool,
    name: &str,
    line: u32,
    function: &FnNode,
    verdict: &Verdict,
) -> Result<Bytes, NoMemory>
    ensures { IfOk result (λ text. (nodes : List ExprNode) → text ≡ verdict_line report_all name.now line (function_in nodes function.now) (verdict_in verdict.now)) }
{
    let is_written = report_all | verdict.is_error();
    if !is_written {
        return Ok(Bytes::new(alloc));
    }
    match verdict {
        Verdict::Error { call, fault } => error_line(alloc, name, line, function, call, *fault),
        Verdict::NotConfirmed { call, kind } => {
            limit_line(alloc, name, line, function, call, *kind)
        }
        Verdict::Unmet => info_line(alloc, name, line, "Unable to meet precondition."),
        Verdict::Confirmed => info_line(alloc, name, line, "Confirmed over all paths."),
    }
}

/// The line `NAME:LINE: info: TEXT`. The only error is that there is no memory for it.
fn info_line(alloc: Global, name: &str, line: u32, info: &str) -> Result<Bytes, NoMemory>
    ensures { IfOk result (λ text. text ≡ info_line name.now line info.now) }
{
    let mut text = Bytes::new(alloc);
    text.extend(format!(in alloc; "{name}:{line}: info: {info}\n")?.as_bytes())?;
    Ok(text)
}

/// The line of a result that is not confirmed, since this call meets a limit. The only error is that
/// there is no memory for it.
fn limit_line(
    alloc: Global,
    name: &str,
    line: u32,
    function: &FnNode,
    call: &Call,
    kind: LimitKind,
) -> Result<Bytes, NoMemory>
    ensures { IfOk result (λ text. (nodes : List ExprNode) → text ≡ info_line name.now line (limit_text (function_in nodes function.now) (call_in call.now) kind)) }
{
    let mut text = Bytes::new(alloc);
    text.extend(format!(in alloc; "{name}:{line}: info: Not confirmed. (")?.as_bytes())?;
    text.extend(limit_name(kind).as_bytes())?;
    text.extend(b" limit when calling ")?;
    add_call(alloc, &mut text, function, call)?;
    text.extend(b")\n")?;
    Ok(text)
}

/// The line `NAME:LINE: error: TEXT`, where this call breaks a condition of the function. The only error is that there is no memory for it.
fn error_line(
    alloc: Global,
    name: &str,
    line: u32,
    function: &FnNode,
    call: &Call,
    fault: Fault,
) -> Result<Bytes, NoMemory>
    ensures { IfOk result (λ text. (nodes : List ExprNode) → text ≡ error_line name.now line (function_in nodes function.now) (call_in call.now) (fault_in fault)) }
{
    let mut text = Bytes::new(alloc);
    text.extend(format!(in alloc; "{name}:{line}: error: ")?.as_bytes())?;
    add_fault(alloc, &mut text, function, call, fault)?;
    text.extend(b"\n")?;
    Ok(text)
}

/// Appends what breaks a condition in this call.
fn add_fault(
    alloc: Global,
    text: &mut Bytes,
    function: &FnNode,
    call: &Call,
    fault: Fault,
) -> Result<(), NoMemory>
    ensures { OnOk result ((nodes : List ExprNode) → text.new ≡ text.old ++ fault_text (function_in nodes function.now) (call_in call.now) (fault_in fault)) }
{
    match fault {
        Fault::WasFalse(value) => {
            text.extend(b"false when calling ")?;
            add_call(alloc, text, function, call)?;
            add_returned(alloc, text, value)?;
        }
        Fault::RaisedInBody(class) => {
            text.extend(class_name(class).as_bytes())?;
            text.extend(b" when calling ")?;
            add_call(alloc, text, function, call)?;
        }
        Fault::RaisedInPost(class) => {
            text.extend(class_name(class).as_bytes())?;
            text.extend(b" in postcondition when calling ")?;
            add_call(alloc, text, function, call)?;
        }
    }
    Ok(())
}

/// Appends the call `NAME(P1 = A1, P2 = A2)`.
fn add_call(alloc: Global, text: &mut Bytes, function: &FnNode, call: &Call) -> Result<(), NoMemory>
    ensures { OnOk result ((nodes : List ExprNode) → text.new ≡ text.old ++ printed (function_in nodes function.now) (call_in call.now)) }
{
    text.extend(function.name.as_slice())?;
    text.extend(b"(")?;
    add_arguments(alloc, text, &function.parameters, &call.arguments)?;
    text.extend(b")")?;
    Ok(())
}

/// Appends the parameters with their arguments, `P1 = A1, P2 = A2`.
fn add_arguments(
    alloc: Global,
    text: &mut Bytes,
    parameters: &[Bytes],
    arguments: &[i64],
) -> Result<(), NoMemory>
    ensures { OnOk result (text.new ≡ text.old ++ arguments_text (map int_parameter parameters.now) (map Number arguments.now)) }
{
    let ([parameter, parameters @ ..], [argument, arguments @ ..]) = (parameters, arguments) else {
        return Ok(());
    };
    add_argument(alloc, text, parameter, *argument)?;
    add_more(alloc, text, parameters, arguments)
}

/// Appends further parameters with their arguments, `, P2 = A2, P3 = A3`.
fn add_more(
    alloc: Global,
    text: &mut Bytes,
    parameters: &[Bytes],
    arguments: &[i64],
) -> Result<(), NoMemory>
    ensures { OnOk result (text.new ≡ text.old ++ more_text (map int_parameter parameters.now) (map Number arguments.now)) }
{
    for i in 0..parameters.len().min(arguments.len()) {
        text.extend(b", ")?;
        add_argument(alloc, text, &parameters[i], arguments[i])?;
    }
    Ok(())
}

/// Appends `NAME = ARGUMENT`.
fn add_argument(
    alloc: Global,
    text: &mut Bytes,
    name: &Bytes,
    argument: i64,
) -> Result<(), NoMemory>
    ensures { OnOk result (text.new ≡ text.old ++ named name.now (Number argument)) }
{
    text.extend(name.as_slice())?;
    text.extend(format!(in alloc; " = {argument}")?.as_bytes())?;
    Ok(())
}

/// Appends the value that was returned, unless it is None.
fn add_returned(alloc: Global, text: &mut Bytes, value: Value) -> Result<(), NoMemory>
    ensures { OnOk result (text.new ≡ text.old ++ which_returns value) }
{
    match value {
        Value::Nil => Ok(()),
        Value::Bool(true) => text.extend(b" (which returns True)"),
        Value::Bool(false) => text.extend(b" (which returns False)"),
        Value::Int(number) => {
            text.extend(format!(in alloc; " (which returns {number})")?.as_bytes())?;
            Ok(())
        }
    }
}

/// The name of a limit.
fn limit_name(kind: LimitKind) -> &'static str
    ensures { result.now ≡ limit_name kind }
{
    match kind {
        LimitKind::Steps => "steps",
        LimitKind::Depth => "depth",
        LimitKind::Int => "int",
        LimitKind::Profile => "profile",
    }
}

/// The name of an exception class.
fn class_name(class: ExcClass) -> &'static str
    ensures { result.now ≡ class_name class }
{
    match class {
        ExcClass::Exception => "Exception",
        ExcClass::ArithmeticError => "ArithmeticError",
        ExcClass::ZeroDivisionError => "ZeroDivisionError",
        ExcClass::LookupError => "LookupError",
        ExcClass::IndexError => "IndexError",
        ExcClass::KeyError => "KeyError",
        ExcClass::ValueError => "ValueError",
        ExcClass::TypeError => "TypeError",
        ExcClass::AttributeError => "AttributeError",
        ExcClass::NameError => "NameError",
        ExcClass::UnboundLocalError => "UnboundLocalError",
        ExcClass::AssertionError => "AssertionError",
        ExcClass::RuntimeError => "RuntimeError",
        ExcClass::NotImplementedError => "NotImplementedError",
    }
}
