ghost use Rattle.std.specs.Prelude.{◌≡◌, ◌≤◌, List, ℕ, length, IfOk, IfSome, Option};
ghost use Rattle.xh_outside.specs.Causes.{HasReadCause};
ghost use Rattle.xh_outside.specs.Reading.{IsAnswer, read_of, left_after};

use crate::{Bytes, ReadError};
use std::alloc::Global;

/// Files that are read whole, by name.
pub trait Files {
    /// Each name with its content, where the files tell them. Of two entries with one name the
    /// first counts.
    ghost contents: { Self → Option (List (List ℕ × List ℕ)) };

    /// The number of reads before the one that is made to fail, or None where none is.
    ghost left: { Self → Option ℕ };

    /// How often a read has failed, as a `u64` that stops at its greatest value. It never falls.
    ghost faults: { Self → ℕ };

    /// The content of the file of this name, of at most `limit` bytes.
    ///
    /// - `Failed`: the file can't be read. It comes only where the count of faults rose in this
    ///   call, or stands at its greatest value. Where the contents are told, it comes exactly where
    ///   the name is missing or `left` is 0.
    /// - `TooLong`: the content is longer than `limit`. Where the contents are told, it comes
    ///   exactly where the read does not fail and the content has more than `limit` bytes.
    /// - `NoMemory`: there is no memory for the content. Nothing is changed.
    ///
    /// Every answer leaves the contents. Every answer but `NoMemory` lowers `left` by one, and makes
    /// it None where it is 0.
    fn read(&mut self, alloc: Global, name: &str, limit: u64) -> Result<Bytes, ReadError>
        ensures answer { IfSome (contents self.old) (λ files. IsAnswer (read_of files (left self.old) name.now limit) result) }
        ensures bound { IfOk result (λ content. length content ≤ limit) }
        ensures contents { contents self.new ≡ contents self.old }
        ensures left { left self.new ≡ left_after (left self.old) result }
        ensures cause { HasReadCause (faults self.old) (faults self.new) result };
}
