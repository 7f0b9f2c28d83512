ghost use Rattle.std.specs.Prelude.{◌≡◌, Some, slice_get, encode_utf8_all, IfOk};
ghost use Rattle.std.specs.Option.{option_map};
ghost use Rattle.spec_syntax.specs.TokenWords.{part_of, word_of};
ghost use Rattle.py_tokens.specs.Scanned.{token_at};
ghost use Rattle.py_tree.specs.Exprs.{part_tree};
ghost use Rattle.py_words.specs.Seen.{seen};

use crate::spellings::mark_of;
use crate::words::Word;
use py_text::Text;
use py_tokens::{Token, TokenKind, Tokens, inside, is_raw, text_value};
use py_tree::StrPart;
use std::alloc::Global;
use xh_outside::{Name, NoMemory};

// The letters as a name, in UTF-8.
fn name_of(alloc: Global, letters: &[char]) -> Result<Name, NoMemory>
    ensures { IfOk result (λ n. n ≡ encode_utf8_all letters.now) }
{
    let text: String = letters.iter().copied().collect(alloc)?;
    Name::from_str(alloc, text.as_str())
}

// The part that the letters of a string are, which starts on a line with so many blanks at its front.
fn part_of(alloc: Global, letters: &[char], line: u32, indent: u32) -> Result<StrPart, NoMemory>
    ensures { IfOk result (λ p. part_tree p ≡ part_of line indent letters.now) }
{
    let value = match text_value(alloc, letters)? {
        Some(value) => value,
        None => Text::new(alloc),
    };
    Ok(StrPart {
        value,
        source: name_of(alloc, inside(letters))?,
        raw: is_raw(letters),
        indent,
        line,
    })
}

/// The word of the token at a place.
pub(crate) fn word_of(
    alloc: Global,
    tokens: &Tokens,
    place: usize,
    token: Token,
) -> Result<Word, NoMemory>
    requires { token_at tokens.now place ≡ Some token }
    ensures { IfOk result (λ w. option_map (word_of tokens.now.scan) (slice_get tokens.now.scan.tokens place) ≡ Some (seen w)) }
{
    let line = token.line;
    if let Some(text) = tokens.name_text(alloc, place)? {
        return Ok(Word::Name { line, text });
    }
    if let Some(value) = tokens.int_value(place) {
        let value = value.unsigned_abs();
        return Ok(Word::Integer { line, value });
    }
    let letters = tokens.letters(place).unwrap_or(&[]);
    match token.kind {
        TokenKind::Str => {
            let indent = tokens.indent(place).unwrap_or(0);
            let part = part_of(alloc, letters, line, indent)?;
            Ok(Word::Text(part))
        }
        _ => {
            let mark = mark_of(letters);
            Ok(Word::Sign { line, mark })
        }
    }
}
