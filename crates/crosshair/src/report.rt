ghost use Rattle.std.specs.Prelude.{◌≡◌, ◌≤◌, ◌++◌, List, length, codes, IfOk, IfSome, OnOk};
ghost use Rattle.std.specs.List.{flat_map, list_any};
ghost use Rattle.std.specs.Io.KnownBytes.{append_known};
ghost use Rattle.xh_outside.specs.Causes.{Rose};
ghost use Rattle.xh_outside.specs.Reading.{next_left, read_of};
ghost use Rattle.xh_outside.specs.Writing.{AppendsPart};
ghost use Rattle.first_tree.specs.declared.nodes.ExprNode.{ExprNode};
ghost use Rattle.first_tree.specs.Arena.{IsFunctionBelow};
ghost use Rattle.first_tree.specs.BoundsOf.{bounds_of};
ghost use Rattle.spec_verdicts.specs.Lines.{fault_line, refusal_line};
ghost use Rattle.spec_verdicts.specs.Report.{entry_of, function_text, has_error, line_of, program_report, refused, report_of, reported};
ghost use Rattle.spec_verdicts.specs.declared.TheConstants.{READ_LIMIT};
ghost use Rattle.crosshair.specs.Ends.{Ends, HasStopCause, TellsRead};
ghost use Rattle.first_tree.specs.Functions.{function_in};
ghost use Rattle.first_verdicts.specs.Meaning.{IsConditionBelow, condition_in};
ghost use Rattle.crosshair.specs.Texts.{condition_fails, condition_text, program_in};

use crate::admission::{StageError, admit};
use crate::lines::{refusal_line, verdict_line};
use crate::settings::Settings;
use crate::stop::Stop;
use first_tree::{FnNode, Module};
use first_verdicts::{Condition, verdict_of};
use spec_verdicts::READ_LIMIT;
use std::alloc::Global;
use xh_outside::{Bytes, Files, NoMemory, ReadError, Sink, write_all};

/// The line under which a condition is reported.
fn line_of(function: &FnNode, condition: Condition) -> u32
    ensures { (nodes : List ExprNode) → result ≡ line_of (condition_in nodes function.now condition) }
{
    match condition {
        Condition::Raises => function.line,
        Condition::Post(post) => post.line,
    }
}

/// Appends what is written for a condition, and answers whether its verdict is an error.
fn add_condition(
    alloc: Global,
    name: &str,
    trees: &Module,
    function: &FnNode,
    condition: Condition,
    settings: &Settings,
    text: &mut Bytes,
) -> Result<bool, NoMemory>
    requires function { IsFunctionBelow (length trees.now.nodes) function.now }
    requires condition { IsConditionBelow (length trees.now.nodes) condition }
    ensures text { OnOk result (text.new ≡ text.old ++ condition_text settings.now.report_all name.now (bounds_of settings.now.bounds) (function_in trees.now.nodes function.now) (condition_in trees.now.nodes function.now condition)) }
    ensures fails { IfOk result (λ fails. fails ≡ condition_fails (bounds_of settings.now.bounds) (function_in trees.now.nodes function.now) (condition_in trees.now.nodes function.now condition)) }
{
    let verdict = verdict_of(alloc, trees, function, condition, &settings.bounds)?;
    let line = line_of(function, condition);
    let piece = verdict_line(alloc, settings.report_all, name, line, function, &verdict)?;
    text.extend(piece.as_slice())?;
    Ok(verdict.is_error())
}

/// Appends the lines of a function's conditions, and answers whether one is an error.
fn add_function(
    alloc: Global,
    name: &str,
    trees: &Module,
    function: &FnNode,
    settings: &Settings,
    text: &mut Bytes,
) -> Result<bool, NoMemory>
    requires { IsFunctionBelow (length trees.now.nodes) function.now }
    ensures text { OnOk result (text.new ≡ text.old ++ function_text settings.now.report_all name.now (bounds_of settings.now.bounds) (function_in trees.now.nodes function.now)) }
    ensures fails { IfOk result (λ fails. fails ≡ has_error (bounds_of settings.now.bounds) (function_in trees.now.nodes function.now)) }
{
    let raises = Condition::Raises;
    let mut fails = add_condition(alloc, name, trees, function, raises, settings, text)?;
    for post in &function.posts {
        let post = Condition::Post(*post);
        fails |= add_condition(alloc, name, trees, function, post, settings, text)?;
    }
    Ok(fails)
}

/// Appends the lines of a program's functions, and answers whether one is an error.
pub fn add_program(
    alloc: Global,
    name: &str,
    trees: &Module,
    settings: &Settings,
    text: &mut Bytes,
) -> Result<bool, NoMemory>
    ensures text { OnOk result (text.new ≡ text.old ++ flat_map (function_text settings.now.report_all name.now (bounds_of settings.now.bounds)) (program_in trees.now).functions) }
    ensures fails { IfOk result (λ fails. fails ≡ list_any (has_error (bounds_of settings.now.bounds)) (program_in trees.now).functions) }
{
    let mut fails = false;
    for i in 0..trees.functions() {
        fails |= add_function(alloc, name, trees, trees.function(i), settings, text)?;
    }
    Ok(fails)
}

/// Writes a refusal.
fn refuse<O: Sink, E: Sink>(
    alloc: Global,
    name: &str,
    line: u32,
    kind: &str,
    out: &mut O,
    err: &mut E,
) -> Result<u8, Stop>
    ensures ends { Ends (reported (refused (refusal_line name.now line kind.now))) (O.bytes out.old) (O.bytes out.new) (E.bytes err.old) (E.bytes err.new) (E.faults err.old) (E.faults err.new) result }
    ensures status { IfOk result (λ status. status ≤ 2) }
    ensures cause { HasStopCause 0 0 (O.faults out.old) (O.faults out.new) (E.faults err.old) (E.faults err.new) result }
{
    let line = refusal_line(alloc, name, line, kind)?;
    write_all(err, line.as_slice())?;
    Ok(2)
}

/// Writes the report of an admitted file.
fn report_program<O: Sink, E: Sink>(
    alloc: Global,
    name: &str,
    trees: &Module,
    settings: &Settings,
    out: &mut O,
    err: &mut E,
) -> Result<u8, Stop>
    ensures ends { Ends (reported (program_report settings.now.report_all name.now (bounds_of settings.now.bounds) (program_in trees.now))) (O.bytes out.old) (O.bytes out.new) (E.bytes err.old) (E.bytes err.new) (E.faults err.old) (E.faults err.new) result }
    ensures status { IfOk result (λ status. status ≤ 2) }
    ensures cause { HasStopCause 0 0 (O.faults out.old) (O.faults out.new) (E.faults err.old) (E.faults err.new) result }
{
    let mut text = Bytes::new(alloc);
    let fails = add_program(alloc, name, trees, settings, &mut text)?;
    write_all(out, text.as_slice())?;
    Ok(u8::from(fails))
}

/// Writes the report of a file that was read.
#[tactic(auto, unfolding(spec_verdicts::specs::Report::report_of))]
fn report<O: Sink, E: Sink>(
    alloc: Global,
    name: &str,
    content: &[u8],
    settings: &Settings,
    out: &mut O,
    err: &mut E,
) -> Result<u8, Stop>
    requires { length content.now ≤ READ_LIMIT }
    ensures ends { Ends (reported (report_of settings.now.report_all (bounds_of settings.now.bounds) name.now content.now)) (O.bytes out.old) (O.bytes out.new) (E.bytes err.old) (E.bytes err.new) (E.faults err.old) (E.faults err.new) result }
    ensures status { IfOk result (λ status. status ≤ 2) }
    ensures cause { HasStopCause 0 0 (O.faults out.old) (O.faults out.new) (E.faults err.old) (E.faults err.new) result }
{
    match admit(alloc, content, &settings.bounds) {
        Ok(trees) => report_program(alloc, name, &trees, settings, out, err),
        Err(StageError::Refused(line, kind)) => refuse(alloc, name, line, kind.name(), out, err),
        Err(StageError::NoMemory) => Err(Stop::NoMemory),
    }
}

/// Writes the line of a failed read, which takes no memory. A write that fails here leaves the rest
/// of the line out.
fn report_fault<E: Sink>(name: &str, err: &mut E)
    ensures part { AppendsPart (E.bytes err.old) (E.bytes err.new) (fault_line name.now) }
    ensures whole { (Rose (E.faults err.old) (E.faults err.new) → ⊥) → E.bytes err.new ≡ append_known (E.bytes err.old) (fault_line name.now) }
    ensures later { E.faults err.old ≤ E.faults err.new }
{
    if write_all(err, name.as_bytes()).is_ok() {
        let _ = write_all(err, b": read fault\n");
    }
}

/// Reads one file and writes its report or its refusal.
pub fn check_target<F: Files, O: Sink, E: Sink>(
    alloc: Global,
    name: &str,
    settings: &Settings,
    files: &mut F,
    out: &mut O,
    err: &mut E,
) -> Result<u8, Stop>
    ensures ends { IfSome (F.contents files.old) (λ contents. Ends (entry_of settings.now.report_all (bounds_of settings.now.bounds) name.now (read_of contents (F.left files.old) name.now READ_LIMIT)) (O.bytes out.old) (O.bytes out.new) (E.bytes err.old) (E.bytes err.new) (E.faults err.old) (E.faults err.new) result) }
    ensures read { IfSome (F.contents files.old) (λ contents. TellsRead (read_of contents (F.left files.old) name.now READ_LIMIT) result) }
    ensures contents { F.contents files.new ≡ F.contents files.old }
    ensures left { OnOk result (F.left files.new ≡ next_left (F.left files.old)) }
    ensures status { IfOk result (λ status. status ≤ 2) }
    ensures cause { HasStopCause (F.faults files.old) (F.faults files.new) (O.faults out.old) (O.faults out.new) (E.faults err.old) (E.faults err.new) result }
{
    match files.read(alloc, name, READ_LIMIT) {
        Ok(content) => report(alloc, name, content.as_slice(), settings, out, err),
        Err(ReadError::TooLong) => refuse(alloc, name, 1, "TooLong", out, err),
        Err(ReadError::NoMemory) => Err(Stop::NoMemory),
        Err(ReadError::Failed) => {
            report_fault(name, err);
            Err(Stop::ReadFault)
        }
    }
}
