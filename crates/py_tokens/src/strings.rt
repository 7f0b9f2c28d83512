ghost use Rattle.std.specs.Prelude.{◌≡◌, ℕ, ◌≤◌, ◌<◌, ◌+◌, ◌^◌, ◌||◌, nat_eq, length};
ghost use Rattle.std.specs.List.{starts_with};
ghost use Rattle.spec_tokens.specs.Forms.{quotes_of};
ghost use Rattle.spec_tokens.specs.Letters.{is_inline, is_quote};
ghost use Rattle.spec_tokens.specs.Cutting.{tail, sized, string_of};

use spec_tokens::Kind;

pub(crate) fn is_quote(letter: char) -> bool
    ensures { result ≡ is_quote letter }
{
    matches!(letter, '\'' | '"')
}

/// Whether three quotes stand at the front, or one where the string is not long.
fn starts_with_quotes(long: bool, quote: char, letters: &[char]) -> bool
    ensures { result ≡ starts_with nat_eq letters.now (quotes_of long quote) }
{
    if long {
        letters.len() >= 3 && letters[0] == quote && letters[1] == quote && letters[2] == quote
    } else {
        !letters.is_empty() && letters[0] == quote
    }
}

/// How many quotes open and close a string.
fn quote_count(long: bool) -> usize
    ensures count { (quote : ℕ) → result ≡ length (quotes_of long quote) }
    ensures few { result ≤ 3 }
{
    if long { 3 } else { 1 }
}

/// Whether a letter that no backslash stands before may stand in a string: within one quote a line end may not.
fn may_hold(long: bool, letter: char) -> bool
    ensures { result ≡ (long || is_inline letter) }
{
    long || letter != '\n'
}

/// How far a string goes on behind its opening quotes, and whether closing ones end it.
fn tail(long: bool, quote: char, letters: &[char]) -> (usize, bool)
    ensures tail { result ≡ tail long quote letters.now }
    ensures within { result.0 ≤ length letters.now }
{
    let mut passed = 0;
    let mut rest = letters;
    while let Some((letter, after)) = rest.split_first() {
        if starts_with_quotes(long, quote, rest) {
            return (passed + quote_count(long), true);
        }
        if *letter == '\\' {
            let Some((_, behind)) = after.split_first() else {
                return (passed, false);
            };
            passed += 2;
            rest = behind;
            continue;
        }
        if !may_hold(long, *letter) {
            return (passed, false);
        }
        passed += 1;
        rest = after;
    }
    (passed, false)
}

/// A string of which so many letters are passed before its tail.
fn sized(passed: usize, tail: (usize, bool)) -> (Kind, usize)
    requires { passed + tail.0 < 2 ^ 40 }
    ensures { result ≡ sized passed tail }
{
    let (more, closed) = tail;
    if closed {
        (Kind::Text, passed + more)
    } else {
        (Kind::OpenText, passed + more)
    }
}

/// The string behind a prefix of so many letters and its first quote.
pub(crate) fn string(prefix: usize, quote: char, letters: &[char]) -> (Kind, usize)
    requires { prefix + length letters.now < 2 ^ 39 }
    ensures { result ≡ string_of prefix quote letters.now }
{
    if letters.len() >= 2 && letters[0] == quote && letters[1] == quote {
        sized(prefix + 3, tail(true, quote, &letters[2..]))
    } else {
        sized(prefix + 1, tail(false, quote, letters))
    }
}
