ghost use Rattle.std.specs.Prelude.{◌≡◌, List, ℕ, IfOk, string_bytes};

use crate::NoMemory;
use std::alloc::Global;
use std::marker::Model;

/// A text that is owned, as a word of the command line or the name of a file. Contracts see its
/// bytes in UTF-8.
#[derive(Drop)]
pub struct Name {
    text: String,
}

impl Model for Name {
    ghost Value = { List ℕ };

    ghost view = { λ n. string_bytes n.text };
}

impl Name {
    /// A copy of the text. The only error is that there is no memory for it.
    pub fn from_str(alloc: Global, text: &str) -> Result<Name, NoMemory>
        ensures { IfOk result (λ name. name ≡ text.now) }
    {
        Ok(Name {
            text: String::from_str(alloc, text)?,
        })
    }

    /// The text.
    pub fn as_str(&self) -> &str
        ensures { result.now ≡ self.now }
    {
        self.text.as_str()
    }
}
