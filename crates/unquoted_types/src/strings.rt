ghost use Rattle.std.specs.Prelude.{◌≡◌, ◌<◌, ◌+◌, ◌^◌, ◌&&◌, nat_lt, chars, length, encode_utf8_all, string_bytes, IfOk};
ghost use Rattle.spec_syntax.specs.Texts.{parsed_type};
ghost use Rattle.py_types.specs.Given.{Grows};
ghost use Rattle.unquoted_types.specs.Given.{IsHeld, is_refusal};

use py_parser::{SyntaxError, type_text};
use py_tree::{Module, TypeId};
use std::alloc::Global;
use xh_outside::NoMemory;

/// The text of letters.
pub(crate) fn text_of(alloc: Global, letters: &[char]) -> Result<String, NoMemory>
    ensures { IfOk result (λ t. string_bytes t ≡ encode_utf8_all letters.now) }
{
    let text = letters.iter().copied().collect(alloc)?;
    Ok(text)
}

// Whether a text and its line are as small as what is read: each text below 2 GiB is.
fn is_small(text: &str, line: u32) -> bool
    ensures { result ≡ (nat_lt (length text.now) (2 ^ 31) && nat_lt (line + length text.now) (2 ^ 32)) }
{
    text.len() < 1 << 31 && line as usize + text.len() < 1 << 32
}

// Whether an error tells that a text is no type.
fn is_refusal(error: SyntaxError) -> bool
    ensures { result ≡ is_refusal error }
{
    match error {
        SyntaxError::NoMemory => false,
        _ => true,
    }
}

/// The type that a text on a line is, where it is one.
#[tactic(auto, using(py_types::proofs::Growth::grows_same))]
pub(crate) fn held_type(
    alloc: Global,
    module: &mut Module,
    line: u32,
    text: &str,
) -> Result<Option<TypeId>, NoMemory>
    ensures grown { Grows «module».old «module».new }
    ensures held { IfOk result (λ o. IsHeld «module».new o (parsed_type line (chars text.now))) }
{
    // its contract tells what holds of every module
    let _ = module.types_count();
    if !is_small(text, line) {
        return Err(NoMemory);
    }
    match type_text(alloc, text, line, module) {
        Ok(t) => Ok(Some(t)),
        Err(error) if is_refusal(error) => Ok(None),
        Err(_) => Err(NoMemory),
    }
}
