ghost use Rattle.std.specs.Prelude.{◌≡◌, [], map, drop, IfOk};
ghost use Rattle.spec_grammar.specs.Reading.{strings_onto};
ghost use Rattle.py_tree.specs.Exprs.{part_tree};
ghost use Rattle.py_words.specs.Found.{FindsString};

use crate::words::{LineWords, Word};
use py_text::Text;
use py_tree::StrPart;
use std::alloc::Global;
use xh_outside::{Name, NoMemory};

// The letters as a text.
fn text_of(alloc: Global, letters: &[char]) -> Result<Text, NoMemory>
    ensures { IfOk result (λ t. t ≡ letters.now) }
{
    let mut text = Text::new(alloc);
    for letter in letters {
        text.push(*letter)?;
    }
    Ok(text)
}

// The same part again.
fn copy_of(alloc: Global, part: &StrPart) -> Result<StrPart, NoMemory>
    ensures { IfOk result (λ p. p ≡ part.now) }
{
    Ok(StrPart {
        value: text_of(alloc, part.value.as_slice())?,
        source: Name::from_str(alloc, part.source.as_str())?,
        raw: part.raw,
        indent: part.indent,
        line: part.line,
    })
}

impl LineWords {
    /// A copy of the string literal at a place, and the place behind it. The only error is that there is no memory for
    /// it.
    pub fn part(&self, alloc: Global, pos: usize) -> Result<Option<(StrPart, usize)>, NoMemory>
        ensures { IfOk result (λ o. FindsString self.now pos o) }
    {
        match self.first(pos) {
            Some(Word::Text(part)) => {
                let copy = copy_of(alloc, part)?;
                Ok(Some((copy, pos + 1)))
            }
            _ => Ok(None),
        }
    }

    /// Copies of all the adjacent string literals from a place on, and the place behind them. There may be none. The
    /// only error is that there is no memory for them.
    #[tactic(auto, using(crate::proofs::Literals::strings_end))]
    pub fn strings(&self, alloc: Global, pos: usize) -> Result<(Vec<StrPart>, usize), NoMemory>
        ensures { IfOk result (λ x. (map part_tree x.0.items, drop x.1 self.now) ≡ strings_onto [] (drop pos self.now)) }
    {
        let mut parts = Vec::new(alloc);
        let mut next = pos;
        while let Some((part, after)) = self.part(alloc, next)? {
            parts.push(part)?;
            next = after;
        }
        Ok((parts, next))
    }
}
