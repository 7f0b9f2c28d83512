ghost use Rattle.std.specs.Prelude.{◌≡◌, ◌≤◌, ◌<◌, ◌+◌, ◌*◌, ◌^◌, ◌++◌, length, map, IfOk};
ghost use Rattle.spec_tokens.specs.Letters.{without_mark, mark_size, read, ends, letters_of, ends_of, lines_of, run, is_blank, is_inline, is_bad};
ghost use Rattle.py_tokens.specs.Steps.{is_return, read_one, ends_one, first_line};

use std::alloc::Global;
use xh_outside::NoMemory;

/// The letters of a text, and where each ends, in bytes of the text.
#[derive(Drop)]
pub(crate) struct Letters {
    pub codes: Vec<char>,
    pub ends: Vec<usize>,
}

pub(crate) fn is_blank(letter: char) -> bool
    ensures { result ≡ is_blank letter }
{
    matches!(letter, ' ' | '\t')
}

/// Whether it is a carriage return that ends no line, or a NUL.
pub(crate) fn is_bad(letter: char) -> bool
    ensures { result ≡ is_bad letter }
{
    matches!(letter, '\r' | '\0')
}

/// How many letters at the front are spaces and tabs.
pub(crate) fn blank_run(letters: &[char]) -> usize
    ensures run { result ≡ run is_blank letters.now }
    ensures within { result ≤ length letters.now }
{
    for (i, letter) in letters.iter().enumerate() {
        if !is_blank(*letter) {
            return i;
        }
    }
    letters.len()
}

/// How many letters at the front are no line feeds.
pub(crate) fn inline_run(letters: &[char]) -> usize
    ensures run { result ≡ run is_inline letters.now }
    ensures within { result ≤ length letters.now }
{
    for (i, letter) in letters.iter().enumerate() {
        if *letter == '\n' {
            return i;
        }
    }
    letters.len()
}

/// The text without a leading byte order mark.
fn without_mark(text: &[char]) -> &[char]
    ensures { result.now ≡ without_mark text.now }
{
    match text.split_first() {
        Some(('\u{feff}', rest)) => rest,
        _ => text,
    }
}

/// How many bytes a leading byte order mark takes.
pub(crate) fn mark_size(text: &[char]) -> usize
    ensures { result ≡ mark_size text.now }
{
    match text.first() {
        Some('\u{feff}') => 3,
        _ => 0,
    }
}

/// Whether a carriage return stands directly before a line feed.
fn is_return(letter: char, after: &[char]) -> bool
    ensures { result ≡ is_return letter after.now }
{
    letter == '\r' && matches!(after.first(), Some('\n'))
}

/// Appends the letter that ends at a place. Where it is the last one and no line end, a line end follows.
fn push_letter(
    letters: &mut Letters,
    letter: char,
    after: &[char],
    end: usize,
) -> Result<(), NoMemory>
    ensures codes { IfOk result (λ _. letters.new.codes.items ≡ letters.old.codes.items ++ read_one letter after.now) }
    ensures ends { IfOk result (λ _. letters.new.ends.items ≡ letters.old.ends.items ++ ends_one letter after.now end) }
{
    if is_return(letter, after) {
        return Ok(());
    }
    letters.codes.push(letter)?;
    letters.ends.push(end)?;
    if after.is_empty() && letter != '\n' {
        letters.codes.push('\n')?;
        letters.ends.push(end)?;
    }
    Ok(())
}

/// The letters of a text that stands behind so many bytes.
fn read(alloc: Global, text: &[char], first: usize) -> Result<Letters, NoMemory>
    requires { first + 4 * length text.now < 2 ^ 40 }
    ensures codes { IfOk result (λ l. l.codes.items ≡ read text.now) }
    ensures ends { IfOk result (λ l. l.ends.items ≡ ends first text.now) }
{
    let mut letters = Letters {
        codes: Vec::new(alloc),
        ends: Vec::new(alloc),
    };
    let mut end = first;
    let mut rest = text;
    while let Some((letter, after)) = rest.split_first() {
        end += letter.len_utf8();
        push_letter(&mut letters, *letter, after, end)?;
        rest = after;
    }
    Ok(letters)
}

/// The letters of a text, given by its code points.
#[tactic(auto, using(crate::proofs::Reading::letters_few))]
pub(crate) fn letters_of(alloc: Global, text: &[char]) -> Result<Letters, NoMemory>
    requires { length text.now < 2 ^ 31 }
    ensures few { IfOk result (λ l. length l.codes.items ≤ length text.now + 1) }
    ensures codes { IfOk result (λ l. l.codes.items ≡ letters_of text.now) }
    ensures ends { IfOk result (λ l. l.ends.items ≡ ends_of text.now) }
{
    read(alloc, without_mark(text), mark_size(text))
}

/// How many letters the first line has, its line feed among them.
fn line_length(letters: &[char]) -> usize
    ensures line { result ≡ first_line letters.now }
    ensures within { result ≤ length letters.now }
{
    for (i, letter) in letters.iter().enumerate() {
        if *letter == '\n' {
            return i + 1;
        }
    }
    letters.len()
}

/// How many spaces and tabs each line begins with.
pub(crate) fn indents(alloc: Global, letters: &[char]) -> Result<Vec<u32>, NoMemory>
    requires { length letters.now < 2 ^ 32 }
    ensures { IfOk result (λ v. v.items ≡ map (run is_blank) (lines_of letters.now)) }
{
    let mut indents = Vec::new(alloc);
    let mut rest = letters;
    while !rest.is_empty() {
        let (line, after) = rest.split_at(line_length(rest));
        indents.push(blank_run(line) as u32)?;
        rest = after;
    }
    Ok(indents)
}
