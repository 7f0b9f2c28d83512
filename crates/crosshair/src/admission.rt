// Which contents are admitted.
ghost use Rattle.std.specs.Prelude.{◌≡◌, ◌<◌, ◌≤◌, ◌^◌, ◌==◌, suc, length, take, chars};
ghost use Rattle.std.specs.List.{count_by};
ghost use Rattle.spec_admission.specs.Admission.{admit, admit_text};
ghost use Rattle.first_tree.specs.BoundsOf.{bounds_of};
ghost use Rattle.crosshair.specs.Answers.{IsAdmission};
ghost use Rattle.crosshair.specs.Refusals.{profile_kind};

use crate::refusals::RefusalKind;
use contract_lines::{ContractError, conditions};
use first_forms::{FormError, functions};
use first_tree::{Bounds, Module};
use py_parser::{SyntaxError, module};
use py_profile::{ProfileError, check_profile};
use py_tokens::{TokenError, scan};
use spec_names::ProfileFault;
use std::alloc::Global;
use std::str;
use thiserror::Error;

/// Why a content is not admitted.
#[derive(Clone, Copy, Debug, PartialEq, Eq, Error)]
pub enum StageError {
    /// The content is refused at the line of this number, counted from 1.
    #[error("line {0} is refused")]
    Refused(u32, RefusalKind),
    /// There is no memory for the module.
    #[error("out of memory")]
    NoMemory,
}

impl From<TokenError> for StageError {
    ghost use Rattle.std.specs.Prelude.{◌≡◌};
    ghost use Rattle.crosshair.specs.Refusals.{token_refusal};

    ghost from_gives = { λ t e. e ≡ token_refusal t };

    fn from(error: TokenError) -> Self {
        match error {
            TokenError::BadCharacter(line) => StageError::Refused(line, RefusalKind::BadCharacter),
            TokenError::MixedIndent(line) => StageError::Refused(line, RefusalKind::MixedIndent),
            TokenError::BadDedent(line) => StageError::Refused(line, RefusalKind::BadDedent),
            TokenError::OpenString(line) => StageError::Refused(line, RefusalKind::OpenString),
            TokenError::OpenBracket(line) => StageError::Refused(line, RefusalKind::OpenBracket),
            TokenError::BigInteger(line) => StageError::Refused(line, RefusalKind::BigInteger),
            TokenError::NumberForm(line) => StageError::Refused(line, RefusalKind::NumberForm),
            TokenError::EscapeForm(line) => StageError::Refused(line, RefusalKind::EscapeForm),
            TokenError::NoMemory => StageError::NoMemory,
        }
    }
}

impl From<SyntaxError> for StageError {
    ghost use Rattle.std.specs.Prelude.{◌≡◌};
    ghost use Rattle.crosshair.specs.Refusals.{syntax_refusal};

    ghost from_gives = { λ s e. e ≡ syntax_refusal s };

    fn from(error: SyntaxError) -> Self {
        match error {
            SyntaxError::Line(line) => StageError::Refused(line, RefusalKind::Line),
            SyntaxError::TooDeep(line) => StageError::Refused(line, RefusalKind::TooDeep),
            SyntaxError::Block(line) => StageError::Refused(line, RefusalKind::Block),
            SyntaxError::NoMemory => StageError::NoMemory,
        }
    }
}

impl From<ContractError> for StageError {
    ghost use Rattle.std.specs.Prelude.{◌≡◌};
    ghost use Rattle.crosshair.specs.Refusals.{contract_refusal};

    ghost from_gives = { λ c e. e ≡ contract_refusal c };

    fn from(error: ContractError) -> Self {
        match error {
            ContractError::BadExpression(line) => {
                StageError::Refused(line, RefusalKind::BadExpression)
            }
            ContractError::UnknownName(line) => StageError::Refused(line, RefusalKind::UnknownName),
            ContractError::Misplaced(line) => StageError::Refused(line, RefusalKind::Misplaced),
            ContractError::NoMemory => StageError::NoMemory,
        }
    }
}

/// The refusal that a fault of the names or the statements of a module is.
fn profile_kind(fault: ProfileFault) -> RefusalKind
    ensures { result ≡ profile_kind fault }
{
    match fault {
        ProfileFault::UnknownName => RefusalKind::UnknownName,
        ProfileFault::Duplicate => RefusalKind::Duplicate,
        ProfileFault::MissingType => RefusalKind::MissingType,
        ProfileFault::UnknownType => RefusalKind::UnknownType,
        ProfileFault::ModuleStatement => RefusalKind::ModuleStatement,
        ProfileFault::TooWide => RefusalKind::TooWide,
        ProfileFault::Form => RefusalKind::Form,
    }
}

impl From<ProfileError> for StageError {
    ghost use Rattle.std.specs.Prelude.{◌≡◌};
    ghost use Rattle.crosshair.specs.Refusals.{profile_refused};

    ghost from_gives = { λ p e. e ≡ profile_refused p };

    fn from(error: ProfileError) -> Self {
        match error {
            ProfileError::Refused { line, fault } => StageError::Refused(line, profile_kind(fault)),
            ProfileError::NoMemory => StageError::NoMemory,
        }
    }
}

impl From<FormError> for StageError {
    ghost use Rattle.std.specs.Prelude.{◌≡◌};
    ghost use Rattle.crosshair.specs.Refusals.{form_refusal};

    ghost from_gives = { λ f e. e ≡ form_refusal f };

    fn from(error: FormError) -> Self {
        match error {
            FormError::NotBuilt(line) => StageError::Refused(line, RefusalKind::NotBuilt),
            FormError::NoMemory => StageError::NoMemory,
        }
    }
}

/// The number, from 1, of the line on which the byte of this place stands.
fn line_at(content: &[u8], place: usize) -> u32
    requires within { place ≤ length content.now }
    requires small { length content.now < 2 ^ 31 }
    ensures { result ≡ suc (count_by (λ b. b == 10) (take place content.now)) }
{
    let mut line = 1;
    for b in &content[..place] {
        if *b == b'\n' {
            line += 1;
        }
    }
    line
}

/// Reads a text: its tokens, its blocks, its contract lines, its names with its statements, and its functions, in this order.
/// The first that refuses decides.
fn admit_text(alloc: Global, text: &str, bounds: &Bounds) -> Result<Module, StageError>
    requires { length text.now < 2 ^ 31 }
    ensures { IsAdmission (admit_text (bounds_of bounds.now) (chars text.now)) result }
{
    let tokens = scan(alloc, text)?;
    let mut module = module(alloc, &tokens)?;
    let contracts = conditions(alloc, &mut module)?;
    let (max_len, max_nest) = (bounds.max_len, bounds.max_nest);
    check_profile(alloc, &mut module, &contracts, max_len, max_nest)?;
    Ok(functions(alloc, &module, &contracts)?)
}

/// Reads a content, whose encoding is UTF-8, or else refuses it at the line of the first byte that begins no character.
pub fn admit(alloc: Global, content: &[u8], bounds: &Bounds) -> Result<Module, StageError>
    requires { length content.now < 2 ^ 31 }
    ensures { IsAdmission (admit (bounds_of bounds.now) content.now) result }
{
    match str::from_utf8(content) {
        Ok(text) => admit_text(alloc, text, bounds),
        Err(error) => {
            let line = line_at(content, error.valid_up_to());
            Err(StageError::Refused(line, RefusalKind::NotUtf8))
        }
    }
}
