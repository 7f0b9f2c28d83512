ghost use Rattle.std.specs.Prelude.{◌≡◌};
ghost use Rattle.spec_tokens.specs.Forms.{is_sign, is_assigning, is_doubled, is_pair, is_triple};
ghost use Rattle.spec_tokens.specs.Cutting.{bracket_of, single, operator_of, sign_of};

use spec_tokens::{Bracket, Kind};

/// The bracket that a letter is.
fn bracket(letter: char) -> Option<Kind>
    ensures { result ≡ bracket_of letter }
{
    match letter {
        '(' => Some(Kind::Open(Bracket::Round)),
        '[' => Some(Kind::Open(Bracket::Square)),
        '{' => Some(Kind::Open(Bracket::Curly)),
        ')' => Some(Kind::Close(Bracket::Round)),
        ']' => Some(Kind::Close(Bracket::Square)),
        '}' => Some(Kind::Close(Bracket::Curly)),
        _ => None,
    }
}

/// Whether a letter is an operator alone.
fn is_sign(letter: char) -> bool
    ensures { result ≡ is_sign letter }
{
    matches!(
        letter,
        '+' | '-'
            | '*'
            | '/'
            | '%'
            | '&'
            | '|'
            | '^'
            | '~'
            | '<'
            | '>'
            | ','
            | ':'
            | '.'
            | ';'
            | '='
            | '@'
    )
}

/// Whether a letter makes an operator with an equals sign behind it.
fn is_assigning(letter: char) -> bool
    ensures { result ≡ is_assigning letter }
{
    matches!(
        letter,
        '<' | '>' | '=' | '!' | '+' | '-' | '*' | '%' | '&' | '|' | '^' | ':'
    )
}

/// Whether a letter makes an operator with itself.
fn is_doubled(letter: char) -> bool
    ensures { result ≡ is_doubled letter }
{
    matches!(letter, '*' | '/' | '<' | '>')
}

fn is_pair(first: char, second: char) -> bool
    ensures { result ≡ is_pair first second }
{
    second == '=' && is_assigning(first)
        || first == second && is_doubled(first)
        || first == '-' && second == '>'
}

fn is_triple(first: char, second: char, third: char) -> bool
    ensures { result ≡ is_triple first second third }
{
    third == '=' && first == second && matches!(first, '<' | '>' | '/')
        || first == '.' && second == '.' && third == '.'
}

fn single(letter: char) -> (Kind, usize)
    ensures { result ≡ single letter }
{
    if is_sign(letter) {
        (Kind::Operator, 1)
    } else {
        (Kind::Unknown, 1)
    }
}

/// The longest operator of a first letter and those behind it.
fn operator(first: char, rest: &[char]) -> (Kind, usize)
    ensures { result ≡ operator_of first rest.now }
{
    if rest.len() >= 2 && is_triple(first, rest[0], rest[1]) {
        return (Kind::Operator, 3);
    }
    if !rest.is_empty() && is_pair(first, rest[0]) {
        return (Kind::Operator, 2);
    }
    single(first)
}

/// The bracket or the operator of a first letter and those behind it.
pub(crate) fn sign(first: char, rest: &[char]) -> (Kind, usize)
    ensures { result ≡ sign_of (bracket_of first) first rest.now }
{
    match bracket(first) {
        Some(kind) => (kind, 1),
        None => operator(first, rest),
    }
}
