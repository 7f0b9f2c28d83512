ghost use Rattle.std.specs.Prelude.{◌≡◌, ◌||◌, [], ℕ, List, OnOk, bytes_eq};
ghost use Rattle.spec_contracts.specs.ContractLines.{is_among};

use indexmap::IndexSet;
use std::alloc::Global;
use std::marker::Model;
use xh_outside::NoMemory;

/// A set of texts.
#[derive(Drop)]
pub(crate) struct TextSet {
    alloc: Global,
    texts: IndexSet<String>,
}

impl Model for TextSet {
    ghost use Rattle.std.specs.Prelude.{ℕ, List, map, string_bytes};

    ghost Value = { List (List ℕ) };

    ghost view = { λ s. map string_bytes s.texts.keys };
}

impl TextSet {
    /// No text.
    pub fn new(alloc: Global) -> TextSet
        ensures { result ≡ [] }
    {
        TextSet {
            alloc,
            texts: IndexSet::new(alloc),
        }
    }

    /// Adds a text.
    pub fn insert(&mut self, text: &str) -> Result<(), NoMemory>
        ensures { OnOk result ((x : List ℕ) → is_among self.new x ≡ (is_among self.old x || bytes_eq x text.now)) }
    {
        self.texts.insert(String::from_str(self.alloc, text)?)?;
        Ok(())
    }

    /// Whether a text is one of these.
    pub fn contains(&self, text: &str) -> bool
        ensures { result ≡ is_among self.now text.now }
    {
        self.texts.contains(text)
    }
}
