ghost use Rattle.std.specs.Prelude.{◌≡◌, false, [], ◌∷◌, slice_get, codes, IfOk};
ghost use Rattle.std.specs.Option.{option_map, option_map_or};
ghost use Rattle.std.specs.Str.{bytes_eq};
ghost use Rattle.spec_verdicts.specs.Settings.{begins_with_dash, check_of, checked, is_report_all, is_target, settings};
ghost use Rattle.crosshair.specs.SettingsOf.{settings_in};

use crate::settings::Settings;
use first_tree::Bounds;
use std::alloc::Global;
use xh_outside::{Name, NoMemory, Words};

/// What the words ask for, or None where they are refused. The only error is that there is no
/// memory for it.
pub fn settings(alloc: Global, words: &Words) -> Result<Option<Settings>, NoMemory>
    ensures { IfOk result (λ o. option_map settings_in o ≡ settings words.now) }
{
    if !begins_with_check(words) {
        return Ok(None);
    }
    match words.len() {
        2 => check_of(alloc, false, words.get(1).unwrap()),
        3 => check_of_two(alloc, words.get(1).unwrap(), words.get(2).unwrap()),
        _ => Ok(None),
    }
}

/// Whether the first word is the command.
fn begins_with_check(words: &Words) -> bool
    ensures { result ≡ option_map_or (λ word. bytes_eq word (codes "check")) (slice_get words.now 0) false }
{
    match words.get(0) {
        Some(word) => word == "check",
        None => false,
    }
}

/// The check of one file, or None where the word names none.
fn check_of(alloc: Global, report_all: bool, target: &str) -> Result<Option<Settings>, NoMemory>
    ensures { IfOk result (λ o. option_map settings_in o ≡ check_of report_all target.now) }
{
    if !is_target(target) {
        return Ok(None);
    }
    let mut targets = Words::new(alloc);
    targets.push(Name::from_str(alloc, target)?)?;
    Ok(Some(Settings {
        bounds: Bounds::standard(),
        report_all,
        targets,
    }))
}

/// The check that two words ask for, which are a file and the option in either order.
fn check_of_two(alloc: Global, first: &str, second: &str) -> Result<Option<Settings>, NoMemory>
    ensures { IfOk result (λ o. option_map settings_in o ≡ checked (first.now ∷ second.now ∷ [])) }
{
    if is_report_all(first) {
        check_of(alloc, true, second)
    } else if is_report_all(second) {
        check_of(alloc, true, first)
    } else {
        Ok(None)
    }
}

/// Whether a word is the option that asks for all results.
fn is_report_all(word: &str) -> bool
    ensures { result ≡ is_report_all word.now }
{
    word == "--report_all"
}

/// Whether a word names a file.
fn is_target(word: &str) -> bool
    ensures { result ≡ is_target word.now }
{
    let bytes = word.as_bytes();
    !bytes.is_empty() && !begins_with_dash(bytes) && !bytes.contains(&b':')
}

/// Whether a word looks like an option.
fn begins_with_dash(word: &[u8]) -> bool
    ensures { result ≡ begins_with_dash word.now }
{
    match word {
        [] => false,
        [first, ..] => *first == b'-',
    }
}
