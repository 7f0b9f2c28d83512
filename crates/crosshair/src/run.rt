ghost use Rattle.std.specs.Prelude.{◌≡◌, ◌≢◌, ◌⊎◌, ◌≤◌, IfOk, IfSome, IsSome};
ghost use Rattle.xh_outside.specs.Causes.{Rose};
ghost use Rattle.first_tree.specs.BoundsOf.{bounds_of};
ghost use Rattle.spec_verdicts.specs.Lines.{usage};
ghost use Rattle.spec_verdicts.specs.Report.{known_total, refused, reported, targets_total};
ghost use Rattle.spec_verdicts.specs.Settings.{settings};
ghost use Rattle.spec_verdicts.specs.Statuses.{EachTarget, SomeReadFails, SomeTarget, Passes, Fails, IsRefused};
ghost use Rattle.crosshair.specs.Ends.{Ends, HasStopCause, IsCutShort, IsDone, IsReadFault, status_of};

use crate::commands::settings;
use crate::report::check_target;
use crate::settings::Settings;
use crate::stop::Stop;
use std::alloc::Global;
use xh_outside::{Files, Sink, Words, write_all};

/// Checks the targets in order, and answers the greatest status of one.
fn check_targets<F: Files, O: Sink, E: Sink>(
    alloc: Global,
    settings: &Settings,
    files: &mut F,
    out: &mut O,
    err: &mut E,
) -> Result<u8, Stop>
    ensures ends { IfSome (F.contents files.old) (λ contents. Ends (targets_total settings.now.report_all (bounds_of settings.now.bounds) settings.now.targets contents (F.left files.old)) (O.bytes out.old) (O.bytes out.new) (E.bytes err.old) (E.bytes err.new) (E.faults err.old) (E.faults err.new) result) }
    ensures status { IfOk result (λ status. status ≤ 2) }
    ensures cause { HasStopCause (F.faults files.old) (F.faults files.new) (O.faults out.old) (O.faults out.new) (E.faults err.old) (E.faults err.new) result }
{
    let mut worst = 0u8;
    for i in 0..settings.targets.len() {
        let name = settings.targets.get(i).unwrap();
        let status = check_target(alloc, name, settings, files, out, err)?;
        worst = worst.max(status);
    }
    Ok(worst)
}

/// Writes how the program is called, and answers 2.
fn refuse_words<O: Sink, E: Sink>(out: &mut O, err: &mut E) -> Result<u8, Stop>
    ensures ends { Ends (reported (refused usage)) (O.bytes out.old) (O.bytes out.new) (E.bytes err.old) (E.bytes err.new) (E.faults err.old) (E.faults err.new) result }
    ensures status { IfOk result (λ status. status ≡ 2) }
    ensures cause { HasStopCause 0 0 (O.faults out.old) (O.faults out.new) (E.faults err.old) (E.faults err.new) result }
{
    let usage = b"usage: crosshair check [OPTIONS] FILE[:LINE]...\n       crosshair demo N\n";
    write_all(err, usage)?;
    Ok(2)
}

/// Does what the words ask.
fn check_words<F: Files, O: Sink, E: Sink>(
    alloc: Global,
    words: &Words,
    files: &mut F,
    out: &mut O,
    err: &mut E,
) -> Result<u8, Stop>
    ensures ends { IfSome (known_total words.now (F.contents files.old) (F.left files.old)) (λ total. Ends total (O.bytes out.old) (O.bytes out.new) (E.bytes err.old) (E.bytes err.new) (E.faults err.old) (E.faults err.new) result) }
    ensures status { IfOk result (λ status. status ≤ 2) }
    ensures accepted { IfOk result (λ status. status ≤ 1 → IsSome (settings words.now)) }
    ensures cause { HasStopCause (F.faults files.old) (F.faults files.new) (O.faults out.old) (O.faults out.new) (E.faults err.old) (E.faults err.new) result }
{
    match settings(alloc, words)? {
        Some(settings) => check_targets(alloc, &settings, files, out, err),
        None => refuse_words(out, err),
    }
}

/// The exit status of an answer.
fn status_of(answer: Result<u8, Stop>) -> u8
    ensures { result ≡ status_of answer }
{
    match answer {
        Ok(status) => status,
        Err(Stop::NoMemory) => 3,
        Err(Stop::ReadFault) => 4,
        Err(Stop::WriteFault) => 5,
    }
}

/// The program: reads the files that the words name, writes the reports, and answers the exit
/// status.
///
/// - 0: no verdict is an error. 1: one is.
/// - 2: the words or the content of a file are refused.
/// - 3: there was no memory.
/// - 4: a file could not be read.
/// - 5: a write failed, but for the line of a file that could not be read.
pub fn run<F: Files, O: Sink, E: Sink>(
    alloc: Global,
    words: &Words,
    files: &mut F,
    out: &mut O,
    err: &mut E,
) -> u8
    ensures range { result ≤ 5 }

    // 0, 1 and 2: all of it was written, and the status is that of the whole run.
    ensures whole { IfSome (known_total words.now (F.contents files.old) (F.left files.old)) (λ total. result ≤ 2
        → IsDone total (O.bytes out.old) (O.bytes out.new) (E.bytes err.old) (E.bytes err.new) result) }

    // The same for each answer but 3 where no write failed.
    ensures no_write_failed { IfSome (known_total words.now (F.contents files.old) (F.left files.old)) (λ total. result ≢ 3
        → (Rose (O.faults out.old) (O.faults out.new) → ⊥)
        → (Rose (E.faults err.old) (E.faults err.new) → ⊥)
        → IsDone total (O.bytes out.old) (O.bytes out.new) (E.bytes err.old) (E.bytes err.new) result) }

    // 3 and 5: a front of it was written.
    ensures cut_short { IfSome (known_total words.now (F.contents files.old) (F.left files.old)) (λ total. (result ≡ 3) ⊎ (result ≡ 5)
        → IsCutShort total (O.bytes out.old) (O.bytes out.new) (E.bytes err.old) (E.bytes err.new)) }

    // 4: the whole run ends so too, and only the line of the failed read may be cut short.
    ensures read_fault { IfSome (known_total words.now (F.contents files.old) (F.left files.old)) (λ total. result ≡ 4
        → IsReadFault total (O.bytes out.old) (O.bytes out.new) (E.bytes err.old) (E.bytes err.new) (E.faults err.old) (E.faults err.new)) }

    // 0: every file is admitted, and none has an error.
    ensures clean { result ≡ 0 → IfSome (settings words.now) (λ s. IfSome (F.contents files.old) (λ contents. EachTarget (Passes s.bounds contents) s.targets)) }

    // 1: every file is admitted, and one has an error.
    ensures failing { result ≡ 1 → IfSome (settings words.now) (λ s. IfSome (F.contents files.old) (λ contents. EachTarget (λ name. Passes s.bounds contents name ⊎ Fails s.bounds contents name) s.targets × SomeTarget (Fails s.bounds contents) s.targets)) }

    // 2: the words are refused, or a file is.
    ensures refusing { result ≡ 2 → IfSome (settings words.now) (λ s. IfSome (F.contents files.old) (λ contents. SomeTarget (IsRefused s.bounds contents) s.targets)) }

    // 4: a file could not be read.
    ensures unread { result ≡ 4 → IfSome (settings words.now) (λ s. IfSome (F.contents files.old) (λ contents. SomeReadFails contents s.targets (F.left files.old))) }

    // When 0, 1, 4 and 5 come, whether contents are told or not.
    ensures accepted { result ≤ 1 → IsSome (settings words.now) }
    ensures read_cause { result ≡ 4 → Rose (F.faults files.old) (F.faults files.new) }
    ensures write_cause { result ≡ 5 → Rose (O.faults out.old) (O.faults out.new) ⊎ Rose (E.faults err.old) (E.faults err.new) }
{
    status_of(check_words(alloc, words, files, out, err))
}
