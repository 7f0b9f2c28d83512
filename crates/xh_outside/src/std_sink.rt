ghost use Rattle.std.specs.Prelude.{◌≡◌, None};

use crate::{Failed, Sink};
use std::io::ErrorKind;
use std::marker::Model;

/// A standard stream, or any other place for output. It tells no bytes. Contracts see how often a
/// write has failed.
#[derive(Drop)]
pub struct StdSink<P> {
    to: P,
    faults: u64,
}

impl<P> Model for StdSink<P> {
    ghost use Rattle.std.specs.Prelude.{ℕ};

    ghost Value = { ℕ };

    ghost view = { λ s. s.faults };
}

impl<P: Print> StdSink<P> {
    /// The sink that writes there. No write has failed yet.
    pub fn new(to: P) -> Self
        ensures { result ≡ 0 }
    {
        StdSink { to, faults: 0 }
    }
}

impl<P: Print> Sink for StdSink<P> {
    ghost bytes = { λ _. None };

    ghost faults = { λ s. s };

    // A write that was only interrupted is tried again. One that takes nothing is a fault, since
    // more tries might never end.
    fn write(&mut self, piece: &[u8]) -> Result<usize, Failed> {
        if piece.is_empty() {
            return Ok(0);
        }
        for _ in 0..u64::MAX {
            match self.to.write_some(piece) {
                Ok(count) if count > 0 => return Ok(count),
                Err(error) if error.kind() == ErrorKind::Interrupted => {}
                _ => break,
            }
        }
        self.faults = self.faults.saturating_add(1);
        Err(Failed)
    }
}
