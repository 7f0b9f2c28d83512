ghost use Rattle.std.specs.Prelude.{◌≡◌, ◌≤◌, ◌<◌, ◌+◌, ◌^◌, ◌||◌, ◌&&◌, ◌==◌, length};
ghost use Rattle.spec_tokens.specs.Letters.{is_digit, is_hex_digit, is_octal_digit};
ghost use Rattle.spec_tokens.specs.Forms.{is_digit_of};
ghost use Rattle.spec_tokens.specs.Cutting.{starts, digit_run, is_based, integer_length};
ghost use Rattle.py_tokens.specs.Steps.{digits_of};

pub(crate) fn is_digit(letter: char) -> bool
    ensures { result ≡ is_digit letter }
{
    matches!(letter, '0'..='9')
}

pub(crate) fn is_hex_digit(letter: char) -> bool
    ensures { result ≡ is_hex_digit letter }
{
    is_digit(letter) || matches!(letter, 'A'..='F' | 'a'..='f')
}

pub(crate) fn is_octal_digit(letter: char) -> bool
    ensures { result ≡ is_octal_digit letter }
{
    matches!(letter, '0'..='7')
}

/// Whether it is a digit of the base that the letter stands for: `x`, `o` or `b`, in either case.
fn is_digit_of(base: char, letter: char) -> bool
    ensures { result ≡ is_digit_of base letter }
{
    match base {
        'x' | 'X' => is_hex_digit(letter),
        'o' | 'O' => is_octal_digit(letter),
        'b' | 'B' => matches!(letter, '0' | '1'),
        _ => false,
    }
}

/// Whether it is a decimal digit or, where there is the letter of a base, one of that base.
fn is_digit_in(base: Option<char>, letter: char) -> bool
    ensures { result ≡ digits_of base letter }
{
    match base {
        Some(base) => is_digit_of(base, letter),
        None => is_digit(letter),
    }
}

/// Whether digits go on with a letter: a digit, or `_` directly before a digit.
fn continues_digits(base: Option<char>, letter: char, after: &[char]) -> bool
    ensures { result ≡ (digits_of base letter || (letter == 95 && starts (digits_of base) after.now)) }
{
    if is_digit_in(base, letter) {
        return true;
    }
    match after.first() {
        Some(next) => letter == '_' && is_digit_in(base, *next),
        None => false,
    }
}

/// How many letters at the front go on with digits.
fn digit_run(base: Option<char>, letters: &[char]) -> usize
    ensures run { result ≡ digit_run (digits_of base) letters.now }
    ensures within { result ≤ length letters.now }
{
    let mut run = 0;
    let mut rest = letters;
    while let Some((letter, after)) = rest.split_first() {
        if !continues_digits(base, *letter, after) {
            return run;
        }
        run += 1;
        rest = after;
    }
    run
}

/// How many letters the integer has whose first digit stands before the rest.
pub(crate) fn integer_length(first: char, rest: &[char]) -> usize
    requires { length rest.now < 2 ^ 38 }
    ensures length { result ≡ integer_length first rest.now }
{
    if let Some((base, digits)) = rest.split_first() {
        if first == '0' && is_based(*base, digits) {
            return digit_run(Some(*base), digits) + 2;
        }
    }
    digit_run(None, rest) + 1
}

/// Whether digits of the base follow that the letter stands for, perhaps behind one `_`.
fn is_based(base: char, rest: &[char]) -> bool
    ensures { result ≡ is_based base rest.now }
{
    match rest.split_first() {
        Some((letter, after)) => continues_digits(Some(base), *letter, after),
        None => false,
    }
}
