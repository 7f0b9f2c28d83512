ghost use Rattle.std.specs.Prelude.{◌≡◌, ◌+◌, ◌^◌, ◌<◌, [], ◌∷◌, ◌++◌, map, length, drop, slice_get, IfSome, OnOk, OnErr};
ghost use Rattle.std.specs.Option.{option_copied};
ghost use Rattle.spec_grammar.specs.Words.{line_of};
ghost use Rattle.spec_syntax.specs.Texts.{moved};
ghost use Rattle.py_words.specs.Found.{IsFirst};
ghost use Rattle.py_words.specs.Seen.{seen};

use py_tree::StrPart;
use spec_grammar::Mark;
use std::alloc::Global;
use std::marker::Model;
use xh_outside::{Name, NoMemory};

/// A word of a logical line. Each has the line, from 1, on which it starts.
#[derive(Drop)]
pub enum Word {
    /// A name, in normalization form KC.
    Name { line: u32, text: Name },
    Integer { line: u32, value: u128 },
    /// A string literal.
    Text(StrPart),
    /// An operator, a delimiter or a keyword.
    Sign { line: u32, mark: Mark },
}

impl Word {
    /// The line, from 1, on which the word starts.
    pub fn line(&self) -> u32
        ensures { result ≡ line_of (seen self.now ∷ []) }
    {
        match self {
            Word::Name { line, .. } | Word::Integer { line, .. } | Word::Sign { line, .. } => *line,
            Word::Text(part) => part.line,
        }
    }

    // Puts the word on a line, from 1.
    fn move_to(&mut self, to: u32)
        ensures { seen self.new ≡ moved to (seen self.old) }
    {
        match self {
            Word::Name { line, .. } => *line = to,
            Word::Integer { line, .. } => *line = to,
            Word::Text(part) => part.line = to,
            Word::Sign { line, .. } => *line = to,
        }
    }
}

/// The words of a logical line.
#[derive(Drop)]
pub struct LineWords {
    words: Vec<Word>,
}

impl Model for LineWords {
    ghost use Rattle.std.specs.Prelude.{List, map};
    ghost use Rattle.spec_grammar.specs.Words as grammar;
    ghost use Rattle.py_words.specs.Seen.{seen};

    ghost Value = { List grammar.Word };

    ghost view = { λ w. map seen w.words.items };
}

impl LineWords {
    /// No words. It takes no memory yet.
    pub fn new(alloc: Global) -> LineWords
        ensures { result ≡ [] }
    {
        LineWords {
            words: Vec::new(alloc),
        }
    }

    /// Appends a word. Where there is no memory for it, the words stay as they were.
    pub fn push(&mut self, word: Word) -> Result<(), NoMemory>
        ensures ok { OnOk result (self.new ≡ self.old ++ seen word ∷ []) }
        ensures refused { OnErr result (self.new ≡ self.old) }
    {
        self.words.push(word)?;
        Ok(())
    }

    /// The number of words.
    pub fn len(&self) -> usize
        ensures count { result ≡ length self.now }
        ensures small { result < 2 ^ 63 }
    {
        self.words.len()
    }

    /// The word at a place. It is None exactly at the end of the line and past it.
    pub fn first(&self, pos: usize) -> Option<&Word>
        ensures word { IsFirst self.now pos (option_copied result) }
        ensures within { IfSome result (λ _. pos + 1 < 2 ^ 64) }
    {
        word_at(&self.words, pos)
    }

    /// The line, from 1, on which the word at a place starts, and 0 where there is none.
    pub fn line(&self, pos: usize) -> u32
        ensures { result ≡ line_of (drop pos self.now) }
    {
        match self.first(pos) {
            Some(word) => word.line(),
            None => 0,
        }
    }

    /// Puts all words on one line, from 1.
    pub fn move_to(&mut self, line: u32)
        ensures { self.new ≡ map (moved line) self.old }
    {
        for word in self.words.iter_mut() {
            word.move_to(line);
        }
    }
}

// The word at a place.
fn word_at(words: &[Word], pos: usize) -> Option<&Word>
    ensures word { option_copied result ≡ slice_get words.now pos }
    ensures within { IfSome result (λ _. pos + 1 < 2 ^ 64) }
{
    words.get(pos)
}
