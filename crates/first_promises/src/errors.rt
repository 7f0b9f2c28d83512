ghost use Rattle.std.specs.Prelude.{◌≡◌};
ghost use Rattle.first_promises.specs.Errors.{error_at};

use std::alloc::AllocError;
use thiserror::Error;
use xh_outside::NoMemory;

/// Why the functions of a module are not read.
#[derive(Clone, Copy, Debug, PartialEq, Eq, Error)]
pub enum FormError {
    /// What stands on the line of this number, counted from 1, is the first of a form that is not run yet.
    #[error("the form of line {0} is not built")]
    NotBuilt(u32),
    /// There is no memory for the functions.
    #[error("out of memory")]
    NoMemory,
}

impl From<NoMemory> for FormError {
    ghost use Rattle.std.specs.Prelude.{◌≡◌};
    ghost use Rattle.first_promises.specs.declared.errors.FormError.TheVariants as form_error;

    ghost from_gives = { λ _ e. e ≡ form_error.NoMemory };

    fn from(_: NoMemory) -> Self {
        FormError::NoMemory
    }
}

impl From<AllocError> for FormError {
    ghost use Rattle.std.specs.Prelude.{◌≡◌};
    ghost use Rattle.first_promises.specs.declared.errors.FormError.TheVariants as form_error;

    ghost from_gives = { λ _ e. e ≡ form_error.NoMemory };

    fn from(_: AllocError) -> Self {
        FormError::NoMemory
    }
}

/// Why a part of a function is not read.
#[derive(Clone, Copy, Debug, PartialEq, Eq)]
pub enum Unformed {
    /// It has another form.
    OtherForm,
    /// There is no memory for it.
    NoMemory,
}

impl From<NoMemory> for Unformed {
    ghost use Rattle.std.specs.Prelude.{◌≡◌};
    ghost use Rattle.first_promises.specs.declared.errors.Unformed.TheVariants as unformed;

    ghost from_gives = { λ _ e. e ≡ unformed.NoMemory };

    fn from(_: NoMemory) -> Self {
        Unformed::NoMemory
    }
}

/// The error where what stands on a line is of another form.
pub fn error_of(unformed: Unformed, line: u32) -> FormError
    ensures { result ≡ error_at line unformed }
{
    match unformed {
        Unformed::OtherForm => FormError::NotBuilt(line),
        Unformed::NoMemory => FormError::NoMemory,
    }
}
