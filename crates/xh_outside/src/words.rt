ghost use Rattle.std.specs.Prelude.{◌≡◌, ◌↔◌, IsTrue, List, ℕ, [], ◌∷◌, ◌++◌, length, slice_get, OnOk, OnErr};
ghost use Rattle.std.specs.Option.{option_copied};

use crate::{Name, NoMemory};
use std::alloc::Global;
use std::marker::Model;

/// A list of texts, as the words of the command line.
#[derive(Drop)]
pub struct Words {
    names: Vec<Name>,
}

impl Model for Words {
    ghost Value = { List (List ℕ) };

    ghost view = { λ w. w.names.items };
}

impl Words {
    /// No words. It takes no memory yet.
    pub fn new(alloc: Global) -> Words
        ensures { result ≡ [] }
    {
        Words {
            names: Vec::new(alloc),
        }
    }

    /// Appends a word. Where there is no memory for it, the words stay as they were.
    pub fn push(&mut self, word: Name) -> Result<(), NoMemory>
        ensures ok { OnOk result (self.new ≡ self.old ++ word ∷ []) }
        ensures refused { OnErr result (self.new ≡ self.old) }
    {
        self.names.push(word)?;
        Ok(())
    }

    /// The number of words.
    pub fn len(&self) -> usize
        ensures { result ≡ length self.now }
    {
        self.names.len()
    }

    /// Whether there is no word.
    pub fn is_empty(&self) -> bool
        ensures { IsTrue result ↔ (self.now ≡ []) }
    {
        self.names.is_empty()
    }

    /// The word at place `i`, counted from 0. It is None exactly where `i` is not below the length.
    pub fn get(&self, i: usize) -> Option<&str>
        ensures { option_copied result ≡ slice_get self.now i }
    {
        match self.names.get(i) {
            Some(name) => Some(name.as_str()),
            None => None,
        }
    }
}
