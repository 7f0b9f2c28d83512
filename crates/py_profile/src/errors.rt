use spec_names::ProfileFault;
use std::alloc::AllocError;
use thiserror::Error;
use xh_outside::NoMemory;

/// Why a module is refused whose lines are right.
#[derive(Clone, Copy, Debug, PartialEq, Eq, Error)]
pub enum ProfileError {
    /// The line, from 1, and what is wrong there.
    #[error("line {line} is refused")]
    Refused { line: u32, fault: ProfileFault },
    /// There is no memory for the look-up of names.
    #[error("out of memory")]
    NoMemory,
}

impl From<NoMemory> for ProfileError {
    ghost use Rattle.std.specs.Prelude.{◌≡◌};
    ghost use Rattle.py_profile.specs.declared.errors.ProfileError.TheVariants as profile_error;

    ghost from_gives = { λ _ e. e ≡ profile_error.NoMemory };

    fn from(_: NoMemory) -> Self {
        ProfileError::NoMemory
    }
}
