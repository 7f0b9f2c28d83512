ghost use Rattle.std.specs.Prelude.{◌≡◌, ◌<◌, ◌+◌, ◌*◌, ◌^◌};
ghost use Rattle.std.specs.List.{list_any};
ghost use Rattle.spec_tokens.specs.Values.{digit_value, value_onto, base_of, integer_value, is_counting, is_zero_led};
ghost use Rattle.py_tokens.specs.Given.{below};

/// The smallest value that no integer may have.
const TOO_BIG: u128 = 1 << 127;

/// The value of a digit, in any base. Letters that are no digits have some value too.
fn digit_value(letter: char) -> u32
    ensures { result ≡ digit_value letter }
{
    let code = letter as u32;
    match letter {
        '0'..='9' => code - 48,
        ..='F' => code.saturating_sub(55),
        _ => code.saturating_sub(87),
    }
}

/// The value of digits with one more behind them, where it is below 2^127.
fn with_digit(base: u32, value: u128, letter: char) -> Option<u128>
    ensures { result ≡ below (2 ^ 127) (value * base + digit_value letter) }
{
    let shifted = value.checked_mul(base as u128)?;
    let longer = shifted.checked_add(digit_value(letter) as u128)?;
    if longer < TOO_BIG { Some(longer) } else { None }
}

/// The value of digits in a base, where it is below 2^127; a `_` counts nothing.
pub(crate) fn digits_value(base: u32, digits: &[char]) -> Option<u128>
    requires { 0 < base }
    ensures { result ≡ below (2 ^ 127) (value_onto base 0 digits.now) }
{
    let mut value = 0;
    let mut rest = digits;
    while let Some((letter, after)) = rest.split_first() {
        if *letter != '_' {
            value = with_digit(base, value, *letter)?;
        }
        rest = after;
    }
    Some(value)
}

/// The base that the letter behind a first `0` tells.
fn base_of(letter: char) -> u32
    ensures base { result ≡ base_of letter }
    ensures some { 0 < result }
{
    match letter {
        'x' | 'X' => 16,
        'o' | 'O' => 8,
        'b' | 'B' => 2,
        _ => 10,
    }
}

/// The value of an integer, where it is below 2^127.
pub(crate) fn integer_value(letters: &[char]) -> Option<u128>
    ensures { result ≡ below (2 ^ 127) (integer_value letters.now) }
{
    if letters.len() < 2 {
        return digits_value(10, letters);
    }
    let base = base_of(letters[1]);
    if base == 10 {
        return digits_value(10, letters);
    }
    digits_value(base, &letters[2..])
}

/// Whether it is a digit other than 0.
fn is_counting(letter: char) -> bool
    ensures { result ≡ is_counting letter }
{
    matches!(letter, '1'..='9')
}

/// Whether one of them is a digit other than 0.
fn has_counting(letters: &[char]) -> bool
    ensures { result ≡ list_any is_counting letters.now }
{
    letters.iter().any(|letter| is_counting(*letter))
}

/// Whether a decimal integer begins with 0 and goes on with other digits.
pub(crate) fn is_zero_led(letters: &[char]) -> bool
    ensures { result ≡ is_zero_led letters.now }
{
    match letters {
        [first, second, ..] => {
            *first == '0' && base_of(*second) == 10 && has_counting(&letters[1..])
        }
        _ => false,
    }
}
