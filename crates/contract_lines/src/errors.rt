ghost use Rattle.std.specs.Prelude.{◌≡◌};
ghost use Rattle.contract_lines.specs.Errors.{error_for};

use spec_contracts::{ContractFault, Refusal};
use std::alloc::AllocError;
use thiserror::Error;
use xh_outside::NoMemory;

/// Why contract lines are refused. Each has its line, counted from 1, but the last.
#[derive(Clone, Copy, Debug, PartialEq, Eq, Error)]
pub enum ContractError {
    /// An expression is missing or cannot be read, or what stands behind `raises:` is no list of names.
    #[error("bad expression in line {0}")]
    BadExpression(u32),
    /// A name in brackets is no parameter, or one behind `raises:` is no exception class.
    #[error("unknown name in line {0}")]
    UnknownName(u32),
    /// `inv:` in a function, or another contract line in a class.
    #[error("misplaced contract in line {0}")]
    Misplaced(u32),
    /// There is no memory for the contract lines.
    #[error("out of memory")]
    NoMemory,
}

impl From<NoMemory> for ContractError {
    ghost use Rattle.std.specs.Prelude.{◌≡◌};
    ghost use Rattle.contract_lines.specs.declared.errors.ContractError.TheVariants as contract_error;

    ghost from_gives = { λ _ e. e ≡ contract_error.NoMemory };

    fn from(_: NoMemory) -> Self {
        ContractError::NoMemory
    }
}

/// The error that tells a refusal.
pub(crate) fn error_of(refusal: Refusal) -> ContractError
    ensures { result ≡ error_for refusal }
{
    match refusal.fault {
        ContractFault::BadExpression => ContractError::BadExpression(refusal.line),
        ContractFault::UnknownName => ContractError::UnknownName(refusal.line),
        ContractFault::Misplaced => ContractError::Misplaced(refusal.line),
    }
}
