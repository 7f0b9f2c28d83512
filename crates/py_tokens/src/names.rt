ghost use Rattle.std.specs.Prelude.{◌≡◌, ◌≤◌, ◌<◌, ◌+◌, ◌^◌, length};
ghost use Rattle.spec_tokens.specs.Letters.{run, begins_name, continues_name};
ghost use Rattle.spec_tokens.specs.Cutting.{named};

use crate::strings::{is_quote, string};
use spec_tokens::Kind;

/// Whether a name may begin with the letter.
pub(crate) fn begins_name(letter: char) -> bool
    ensures { result ≡ begins_name letter }
{
    unicode_ident::is_xid_start(letter) || letter == '_'
}

/// Whether a name may go on with the letter.
pub(crate) fn continues_name(letter: char) -> bool
    ensures { result ≡ continues_name letter }
{
    unicode_ident::is_xid_continue(letter)
}

/// How many letters at the front a name may go on with.
pub(crate) fn name_run(letters: &[char]) -> usize
    ensures run { result ≡ run continues_name letters.now }
    ensures within { result ≤ length letters.now }
{
    for (i, letter) in letters.iter().enumerate() {
        if !continues_name(*letter) {
            return i;
        }
    }
    letters.len()
}

/// The name of a first letter and so many more, before the rest. A quote directly behind it makes it the prefix of a
/// string, or a fault.
pub(crate) fn named(first: char, more: usize, rest: &[char]) -> (Kind, usize)
    requires { more + length rest.now < 2 ^ 38 }
    ensures { result ≡ named first more rest.now }
{
    match rest.split_first() {
        Some((quote, behind)) if is_quote(*quote) => {
            if more == 0 && matches!(first, 'r' | 'R') {
                string(1, *quote, behind)
            } else {
                (Kind::Misquoted, more + 2)
            }
        }
        _ => (Kind::Name, more + 1),
    }
}
