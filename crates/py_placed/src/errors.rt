use std::alloc::{AllocError, AllocFailed};
use xh_outside::NoMemory;

/// Why lines are not read.
#[derive(Clone, Copy, Debug, PartialEq, Eq)]
pub enum Misread {
    /// The words of the line, whose number it has, from 1, spell none.
    NoLine(u32),
    /// There is no memory, or the number of a line does not fit in 32 bits.
    NoMemory,
}

impl From<NoMemory> for Misread {
    ghost use Rattle.std.specs.Prelude.{◌≡◌};
    ghost use Rattle.py_placed.specs.declared.errors.Misread.TheVariants as misread;

    ghost from_gives = { λ _ e. e ≡ misread.NoMemory };

    fn from(_: NoMemory) -> Self {
        Misread::NoMemory
    }
}

impl From<AllocError> for Misread {
    ghost use Rattle.std.specs.Prelude.{◌≡◌};
    ghost use Rattle.py_placed.specs.declared.errors.Misread.TheVariants as misread;

    ghost from_gives = { λ _ e. e ≡ misread.NoMemory };

    fn from(_: AllocError) -> Self {
        Misread::NoMemory
    }
}

impl<T: Drop> From<AllocFailed<T>> for Misread {
    ghost use Rattle.std.specs.Prelude.{◌≡◌};
    ghost use Rattle.py_placed.specs.declared.errors.Misread.TheVariants as misread;

    ghost from_gives = { λ _ e. e ≡ misread.NoMemory };

    fn from(_: AllocFailed<T>) -> Self {
        Misread::NoMemory
    }
}
