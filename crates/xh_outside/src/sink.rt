ghost use Rattle.std.specs.Prelude.{◌≡◌, ◌≤◌, ◌<◌, List, ℕ, length, Option, IfOk, OnOk, OnErr};
ghost use Rattle.std.specs.Io.KnownBytes.{append_known};
ghost use Rattle.xh_outside.specs.Causes.{HasCause};
ghost use Rattle.xh_outside.specs.Writing.{Takes, AppendsPart};

use crate::Failed;

/// A place to which bytes are written, each after the earlier ones.
pub trait Sink {
    /// The bytes written so far, where the sink tells them.
    ghost bytes: { Self → Option (List ℕ) };

    /// How often a write has failed, as a `u64` that stops at its greatest value. It never falls.
    ghost faults: { Self → ℕ };

    /// Writes a front part of the piece, and answers its length in bytes: at least 1 where the piece
    /// is not empty.
    ///
    /// At an error nothing was written. It comes only where the count of faults rose in this call,
    /// or stands at its greatest value.
    fn write(&mut self, piece: &[u8]) -> Result<usize, Failed>
        ensures bound { IfOk result (λ n. n ≤ length piece.now) }
        ensures progress { IfOk result (λ n. 0 < length piece.now → 0 < n) }
        ensures bytes { Takes (bytes self.old) (bytes self.new) piece.now result }
        ensures cause { HasCause (faults self.old) (faults self.new) result };
}

/// Writes the whole piece.
///
/// At an error some front part of the piece was written, maybe none of it. The error comes only
/// where the sink's count of faults rose in this call, or stands at its greatest value.
pub fn write_all<S: Sink>(sink: &mut S, piece: &[u8]) -> Result<(), Failed>
    ensures written { OnOk result (S.bytes sink.new ≡ append_known (S.bytes sink.old) piece.now) }
    ensures part { OnErr result (AppendsPart (S.bytes sink.old) (S.bytes sink.new) piece.now) }
    ensures cause { HasCause (S.faults sink.old) (S.faults sink.new) result }
{
    let mut rest = piece;
    while !rest.is_empty() {
        let count = sink.write(rest)?;
        let (_, after) = rest.split_at(count);
        rest = after;
    }
    Ok(())
}
