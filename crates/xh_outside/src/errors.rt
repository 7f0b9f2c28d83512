ghost use Rattle.std.specs.Prelude.{◌≡◌};
ghost use Rattle.xh_outside.specs.declared.errors.ReadError.TheVariants as read_error;

use std::alloc::{AllocError, AllocFailed};

/// There is no memory for what a call needs.
#[derive(Clone, Copy, Debug, PartialEq, Eq)]
pub struct NoMemory;

/// A write failed. The count of faults of its sink tells of it.
#[derive(Clone, Copy, Debug, PartialEq, Eq)]
pub struct Failed;

/// Why a read gives no content.
#[derive(Clone, Copy, Debug, PartialEq, Eq)]
pub enum ReadError {
    /// The file is missing, or can't be opened or read. The count of faults of the files tells of it.
    Failed,
    /// The content has more bytes than the limit of the call.
    TooLong,
    /// There is no memory for the content. The call has changed nothing.
    NoMemory,
}

impl From<AllocError> for NoMemory {
    fn from(_: AllocError) -> Self {
        NoMemory
    }
}

impl<T: Drop> From<AllocFailed<T>> for NoMemory {
    fn from(_: AllocFailed<T>) -> Self {
        NoMemory
    }
}

impl From<NoMemory> for ReadError {
    ghost from_gives = { λ _ e. e ≡ read_error.NoMemory };

    fn from(_: NoMemory) -> Self {
        ReadError::NoMemory
    }
}
