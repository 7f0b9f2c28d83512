ghost use Rattle.std.specs.Prelude.{◌≡◌, IfOk};
ghost use Rattle.std.specs.Option.{option_map};
ghost use Rattle.spec_contracts.specs.Heads.{bracketed, head_of, plain};
ghost use Rattle.contract_entries.specs.Given.{head_in};

use crate::letters::{behind, cut};
use crate::names::bracket_names;
use spec_contracts::LineKind;
use std::alloc::Global;
use xh_outside::{Name, NoMemory};

const PRE: [char; 4] = ['p', 'r', 'e', ':'];

const POST: [char; 5] = ['p', 'o', 's', 't', ':'];

const POST_WITH_BRACKETS: [char; 5] = ['p', 'o', 's', 't', '['];

const INV: [char; 4] = ['i', 'n', 'v', ':'];

const RAISES: [char; 7] = ['r', 'a', 'i', 's', 'e', 's', ':'];

/// How a contract line begins.
#[derive(Drop)]
pub(crate) struct Head<'a> {
    pub kind: LineKind,
    /// The names in its brackets, where it has brackets.
    pub names: Option<Vec<Name>>,
    /// What stands behind the colon.
    pub rest: &'a [char],
}

// What begins with a word and goes on in any way.
fn plain<'a>(word: &[char], kind: LineKind, letters: &'a [char]) -> Option<Head<'a>>
    ensures { option_map head_in result ≡ plain word.now kind letters.now }
{
    let rest = behind(word, letters)?;
    Some(Head {
        kind,
        names: None,
        rest,
    })
}

// `post[NAMES]:`
fn bracketed<'a>(alloc: Global, letters: &'a [char]) -> Result<Option<Head<'a>>, NoMemory>
    ensures { IfOk result (λ o. option_map head_in o ≡ bracketed letters.now) }
{
    let Some(inside) = behind(&POST_WITH_BRACKETS, letters) else {
        return Ok(None);
    };
    let (before, Some(after)) = cut(inside, ']') else {
        return Ok(None);
    };
    let Some(names) = bracket_names(alloc, before)? else {
        return Ok(None);
    };
    let Some(rest) = behind(&[':'], after) else {
        return Ok(None);
    };
    Ok(Some(Head {
        kind: LineKind::Post,
        names: Some(names),
        rest,
    }))
}

/// How a line begins, where it is a contract line.
pub(crate) fn head_of<'a>(alloc: Global, letters: &'a [char]) -> Result<Option<Head<'a>>, NoMemory>
    ensures { IfOk result (λ o. option_map head_in o ≡ head_of letters.now) }
{
    if let Some(head) = plain(&PRE, LineKind::Pre, letters) {
        return Ok(Some(head));
    }
    if let Some(head) = plain(&POST, LineKind::Post, letters) {
        return Ok(Some(head));
    }
    if let Some(head) = bracketed(alloc, letters)? {
        return Ok(Some(head));
    }
    if let Some(head) = plain(&INV, LineKind::Invariant, letters) {
        return Ok(Some(head));
    }
    Ok(plain(&RAISES, LineKind::Raises, letters))
}
