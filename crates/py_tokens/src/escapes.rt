ghost use Rattle.std.specs.Prelude.{◌≡◌, ◌≤◌, ◌+◌, ◌++◌, zero, length, is_some, IfOk, OnOk, IfSome};
ghost use Rattle.std.specs.List.{list_all};
ghost use Rattle.spec_tokens.specs.Letters.{run, is_hex_digit, is_octal_digit};
ghost use Rattle.spec_tokens.specs.Values.{hex_value, coded, octal, plain_escape, escape_of, unescaped, is_raw, unprefixed, quote_count, inside_of, text_value};
ghost use Rattle.py_tokens.specs.Given.{points, shown, given_of};

use crate::numbers::{is_hex_digit, is_octal_digit};
use crate::values::digits_value;
use py_text::Text;
use std::alloc::Global;
use xh_outside::NoMemory;

/// What a letter of a string gives, or an escape.
#[derive(Clone, Copy, Drop)]
enum Given {
    /// Nothing, as a line end behind a backslash.
    Nothing,
    /// One code point.
    Letter(char),
    /// A letter that is no escape, and the backslash before it.
    Kept(char),
}

/// An escape of so many letters that names a code point, if there is one.
fn coded(length: usize, code: Option<u128>) -> Option<(usize, Given)>
    ensures coded { shown result ≡ coded length code }
    ensures length { IfSome result (λ x. x.0 ≡ length) }
{
    let code = u32::try_from(code?).ok()?;
    let letter = char::from_u32(code)?;
    Some((length, Given::Letter(letter)))
}

/// Whether all are hexadecimal digits.
fn are_hex_digits(letters: &[char]) -> bool
    ensures { result ≡ list_all is_hex_digit letters.now }
{
    letters.iter().all(|letter| is_hex_digit(*letter))
}

/// The escape of a first letter and so many hexadecimal digits.
fn hex_escape(count: usize, letters: &[char]) -> Option<(usize, Given)>
    ensures escape { shown result ≡ coded (count + 1) (hex_value count 0 letters.now) }
    ensures within { IfSome result (λ x. x.0 ≤ length letters.now + 1) }
{
    if letters.len() < count {
        return None;
    }
    let digits = &letters[..count];
    if !are_hex_digits(digits) {
        return None;
    }
    coded(count + 1, digits_value(16, digits))
}

/// How many letters at the front are octal digits.
fn octal_run(letters: &[char]) -> usize
    ensures run { result ≡ run is_octal_digit letters.now }
    ensures within { result ≤ length letters.now }
{
    for (i, letter) in letters.iter().enumerate() {
        if !is_octal_digit(*letter) {
            return i;
        }
    }
    letters.len()
}

/// The escape of one to three octal digits.
fn octal_escape(letters: &[char]) -> Option<(usize, Given)>
    ensures escape { shown result ≡ octal letters.now }
    ensures within { IfSome result (λ x. x.0 ≤ length letters.now) }
{
    let count = octal_run(letters).min(3);
    coded(count, digits_value(8, &letters[..count]))
}

/// What a backslash and one letter give.
fn plain_escape(letter: char) -> Given
    ensures { points result ≡ plain_escape letter }
{
    match letter {
        '\\' | '\'' | '"' => Given::Letter(letter),
        'a' => Given::Letter('\x07'),
        'b' => Given::Letter('\x08'),
        'f' => Given::Letter('\x0c'),
        'n' => Given::Letter('\n'),
        'r' => Given::Letter('\r'),
        't' => Given::Letter('\t'),
        'v' => Given::Letter('\x0b'),
        _ => Given::Kept(letter),
    }
}

/// The escape at the front of the letters behind a backslash: how many belong to it, and what it gives.
fn escape(letters: &[char]) -> Option<(usize, Given)>
    ensures escape { shown result ≡ escape_of letters.now }
    ensures within { IfSome result (λ x. x.0 ≤ length letters.now) }
{
    let Some((letter, after)) = letters.split_first() else {
        return Some((0, Given::Letter('\\')));
    };
    match *letter {
        '\n' => Some((1, Given::Nothing)),
        'x' => hex_escape(2, after),
        'u' => hex_escape(4, after),
        'U' => hex_escape(8, after),
        'N' => None,
        '0'..='7' => octal_escape(letters),
        _ => Some((1, plain_escape(*letter))),
    }
}

/// What a letter gives with those behind it that belong to it, and how many those are.
fn first_given(letter: char, after: &[char]) -> Option<(usize, Given)>
    ensures given { shown result ≡ given_of letter after.now }
    ensures within { IfSome result (λ x. x.0 ≤ length after.now) }
{
    if letter == '\\' {
        escape(after)
    } else {
        Some((0, Given::Letter(letter)))
    }
}

/// Whether each escape between the quotes has a value.
fn inside_has_value(letters: &[char]) -> bool
    ensures { result ≡ is_some (unescaped zero letters.now) }
{
    let mut rest = letters;
    while let Some((letter, after)) = rest.split_first() {
        let Some((passed, _)) = first_given(*letter, after) else {
            return false;
        };
        rest = &after[passed..];
    }
    true
}

/// Appends what is given.
fn push_given(text: &mut Text, given: Given) -> Result<(), NoMemory>
    ensures { OnOk result (text.new ≡ text.old ++ points given) }
{
    match given {
        Given::Nothing => {}
        Given::Letter(letter) => text.push(letter)?,
        Given::Kept(letter) => {
            text.push('\\')?;
            text.push(letter)?;
        }
    }
    Ok(())
}

/// What letters between quotes give, if each escape has a value.
fn unescaped(alloc: Global, letters: &[char]) -> Result<Option<Text>, NoMemory>
    ensures { IfOk result (λ o. o ≡ unescaped zero letters.now) }
{
    let mut text = Text::new(alloc);
    let mut rest = letters;
    while let Some((letter, after)) = rest.split_first() {
        let Some((passed, given)) = first_given(*letter, after) else {
            return Ok(None);
        };
        push_given(&mut text, given)?;
        rest = &after[passed..];
    }
    Ok(Some(text))
}

/// The letters as a text.
fn copied(alloc: Global, letters: &[char]) -> Result<Text, NoMemory>
    ensures { IfOk result (λ t. t ≡ letters.now) }
{
    let mut text = Text::new(alloc);
    for letter in letters {
        text.push(*letter)?;
    }
    Ok(text)
}

/// Whether a string has the prefix `r` or `R`, behind which backslashes stay.
pub fn is_raw(letters: &[char]) -> bool
    ensures { result ≡ is_raw letters.now }
{
    matches!(letters.first(), Some('r' | 'R'))
}

fn unprefixed(letters: &[char]) -> &[char]
    ensures { result.now ≡ unprefixed letters.now }
{
    if is_raw(letters) {
        &letters[1..]
    } else {
        letters
    }
}

/// How many quotes a string without its prefix begins with: three, or one.
fn quote_count(letters: &[char]) -> usize
    ensures { result ≡ quote_count letters.now }
{
    match letters {
        [first, second, third, ..] if first == second && second == third => 3,
        _ => 1,
    }
}

/// What stands between the quotes of a string.
pub fn inside(letters: &[char]) -> &[char]
    ensures { result.now ≡ inside_of letters.now }
{
    let quoted = unprefixed(letters);
    let quotes = quote_count(quoted);
    // Letters that are no string may be fewer than their quotes.
    let behind = &quoted[quotes.min(quoted.len())..];
    &behind[..behind.len().saturating_sub(quotes)]
}

/// Whether each escape of a string has a value.
pub(crate) fn has_value(letters: &[char]) -> bool
    ensures { result ≡ is_some (text_value letters.now) }
{
    is_raw(letters) || inside_has_value(inside(letters))
}

/// The text that a string stands for, if each of its escapes has a value.
pub fn text_value(alloc: Global, letters: &[char]) -> Result<Option<Text>, NoMemory>
    ensures { IfOk result (λ o. o ≡ text_value letters.now) }
{
    if is_raw(letters) {
        return Ok(Some(copied(alloc, inside(letters))?));
    }
    unescaped(alloc, inside(letters))
}
