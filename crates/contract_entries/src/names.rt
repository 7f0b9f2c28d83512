ghost use Rattle.std.specs.Prelude.{◌≡◌, length, map, IfOk};
ghost use Rattle.std.specs.List.{list_all, slice_split};
ghost use Rattle.std.specs.Option.{option_map};
ghost use Rattle.spec_tokens.specs.Letters.{begins_name, continues_name};
ghost use Rattle.spec_tokens.specs.Forms.{is_name};
ghost use Rattle.spec_contracts.specs.Heads.{bracket_names, name_in, names_in};

use crate::letters::{cut, trimmed, unindented};
use std::alloc::Global;
use unicode_ident::{is_xid_continue, is_xid_start};
use unicode_normalization::slice::extend_nfkc;
use xh_outside::{Name, NoMemory};

// Whether a name may go on with the letters.
fn continue_name(letters: &[char]) -> bool
    ensures { result ≡ list_all continues_name letters.now }
{
    for letter in letters {
        if !is_xid_continue(*letter) {
            return false;
        }
    }
    true
}

// Whether the letters are a name (Python 3.12 language reference, "Identifiers and keywords").
fn is_name(letters: &[char]) -> bool
    ensures { result ≡ is_name letters.now }
{
    match letters {
        [] => false,
        [first, rest @ ..] => (is_xid_start(*first) || *first == '_') && continue_name(rest),
    }
}

// The name with spaces and tabs round it that the letters are, in normalization form KC.
fn name_in(alloc: Global, letters: &[char]) -> Result<Option<Name>, NoMemory>
    ensures { IfOk result (λ o. o ≡ name_in letters.now) }
{
    let name = trimmed(letters);
    if !is_name(name) {
        return Ok(None);
    }
    let mut points = Vec::new(alloc);
    extend_nfkc(&mut points, name)?;
    let text: String = points.iter().copied().collect(alloc)?;
    Ok(Some(Name::from_str(alloc, text.as_str())?))
}

/// The names with commas between them that the letters are, of which there is at least one.
pub(crate) fn names_in(alloc: Global, letters: &[char]) -> Result<Option<Vec<Name>>, NoMemory>
    ensures { IfOk result (λ o. option_map (λ v. v.items) o ≡ names_in letters.now) }
{
    let mut names = Vec::new(alloc);
    let mut rest = Some(letters);
    while let Some(letters) = rest {
        let (part, behind) = cut(letters, ',');
        let Some(name) = name_in(alloc, part)? else {
            return Ok(None);
        };
        names.push(name)?;
        rest = behind;
    }
    Ok(Some(names))
}

/// The names that stand in brackets, of which there may be none.
pub(crate) fn bracket_names(alloc: Global, letters: &[char]) -> Result<Option<Vec<Name>>, NoMemory>
    ensures { IfOk result (λ o. option_map (λ v. v.items) o ≡ bracket_names letters.now) }
{
    if unindented(letters).is_empty() {
        return Ok(Some(Vec::new(alloc)));
    }
    names_in(alloc, letters)
}
