ghost use Rattle.std.specs.Prelude.{◌≡◌, map, IfOk};
ghost use Rattle.spec_syntax.specs.Lines.{word_lines};
ghost use Rattle.py_words.specs.Lines.{line_seen};

use crate::tokens::word_of;
use crate::words::LineWords;
use py_tokens::{TokenKind, Tokens};
use std::alloc::Global;
use xh_outside::NoMemory;

/// A logical line.
#[derive(Drop)]
pub struct WordLine {
    /// The number of blocks in which it stands.
    pub depth: usize,
    pub words: LineWords,
}

/// The logical lines of a text, from the first to the last. The only error is that there is no memory for them.
pub fn word_lines(alloc: Global, tokens: &Tokens) -> Result<Vec<WordLine>, NoMemory>
    ensures { IfOk result (λ ls. map line_seen ls.items ≡ word_lines tokens.now.scan) }
{
    let mut lines = Vec::new(alloc);
    let mut words = LineWords::new(alloc);
    let mut depth: usize = 0;
    for place in 0..tokens.len() {
        let Some(token) = tokens.get(place) else {
            break;
        };
        match token.kind {
            TokenKind::Indent => depth += 1,
            TokenKind::Dedent => depth = depth.saturating_sub(1),
            TokenKind::Newline => {
                lines.push(WordLine { depth, words })?;
                words = LineWords::new(alloc);
            }
            TokenKind::End => break,
            _ => words.push(word_of(alloc, tokens, place, token)?)?,
        }
    }
    Ok(lines)
}
