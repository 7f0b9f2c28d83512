ghost use Rattle.std.specs.Prelude.{◌≡◌, List, ℕ, [], ◌∷◌, ◌++◌, OnOk, OnErr};

use crate::NoMemory;
use std::alloc::Global;
use std::marker::Model;

/// A list of bytes that grows at its end, as the content of a file.
#[derive(Drop)]
pub struct Bytes {
    buffer: Vec<u8>,
}

impl Model for Bytes {
    ghost Value = { List ℕ };

    ghost view = { λ b. b.buffer.items };
}

impl Bytes {
    /// No bytes. It takes no memory yet.
    pub fn new(alloc: Global) -> Self
        ensures { result ≡ [] }
    {
        Bytes {
            buffer: Vec::new(alloc),
        }
    }

    /// Appends one byte. Where there is no memory for it, the bytes stay as they were.
    pub fn push(&mut self, b: u8) -> Result<(), NoMemory>
        ensures ok { OnOk result (self.new ≡ self.old ++ b ∷ []) }
        ensures refused { OnErr result (self.new ≡ self.old) }
    {
        self.buffer.push(b)?;
        Ok(())
    }

    /// Appends the whole piece. Where there is no memory for it, the bytes stay as they were.
    pub fn extend(&mut self, piece: &[u8]) -> Result<(), NoMemory>
        ensures ok { OnOk result (self.new ≡ self.old ++ piece.now) }
        ensures refused { OnErr result (self.new ≡ self.old) }
    {
        self.buffer.extend_from_slice(piece)?;
        Ok(())
    }

    /// All the bytes, in the order in which they were appended.
    pub fn as_slice(&self) -> &[u8]
        ensures { result.now ≡ self.now }
    {
        self.buffer.as_slice()
    }
}
