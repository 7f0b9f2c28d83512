ghost use Rattle.std.specs.Prelude.{◌≡◌, List, ℕ, [], ◌∷◌, ◌++◌, length, slice_get, OnOk, OnErr};

use std::alloc::Global;
use std::marker::Model;
use xh_outside::NoMemory;

/// A list of code points that grows at its end, as the value of a string literal.
#[derive(Drop)]
pub struct Text {
    letters: Vec<char>,
}

impl Model for Text {
    ghost Value = { List ℕ };

    ghost view = { λ t. t.letters.items };
}

impl Text {
    /// No code points. It takes no memory yet.
    pub fn new(alloc: Global) -> Text
        ensures { result ≡ [] }
    {
        Text {
            letters: Vec::new(alloc),
        }
    }

    /// Appends a code point. Where there is no memory for it, the text stays as it was.
    pub fn push(&mut self, letter: char) -> Result<(), NoMemory>
        ensures ok { OnOk result (self.new ≡ self.old ++ letter ∷ []) }
        ensures refused { OnErr result (self.new ≡ self.old) }
    {
        self.letters.push(letter)?;
        Ok(())
    }

    /// The number of code points.
    pub fn len(&self) -> usize
        ensures { result ≡ length self.now }
    {
        self.letters.len()
    }

    /// The code point at place `i`, counted from 0. It is None exactly where `i` is not below the length.
    pub fn get(&self, i: usize) -> Option<char>
        ensures { result ≡ slice_get self.now i }
    {
        self.letters.get(i).copied()
    }

    /// All the code points, in the order in which they were appended.
    pub fn as_slice(&self) -> &[char]
        ensures { result.now ≡ self.now }
    {
        self.letters.as_slice()
    }
}
