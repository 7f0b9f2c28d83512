ghost use Rattle.std.specs.Prelude.{drop};
ghost use Rattle.spec_grammar.specs.Marks.{name_at, keyword_at};
ghost use Rattle.py_words.specs.Found.{FindsSeen};

use crate::words::{LineWords, Word};
use spec_grammar::Mark;

impl LineWords {
    /// The name at a place, and the place behind it.
    pub fn name(&self, pos: usize) -> Option<(&str, usize)>
        ensures { FindsSeen (λ t. t.now) self.now result (name_at (drop pos self.now)) }
    {
        match self.first(pos)? {
            Word::Name { text, .. } => Some((text.as_str(), pos + 1)),
            _ => None,
        }
    }

    /// The name directly before `=` at a place, and the place behind the `=`.
    pub fn keyword(&self, pos: usize) -> Option<(&str, usize)>
        ensures { FindsSeen (λ t. t.now) self.now result (keyword_at (drop pos self.now)) }
    {
        let (name, end) = self.name(pos)?;
        let after = self.sign(end, Mark::Assign)?;
        Some((name, after))
    }
}
