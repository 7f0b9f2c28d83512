use py_placed::Misread;
use thiserror::Error;
use xh_outside::NoMemory;

/// Why a text has no tree. Each variant but the last has the line, counted from 1, at which that shows.
#[derive(Clone, Copy, Debug, PartialEq, Eq, Error)]
pub enum SyntaxError {
    /// The words spell no line, or no expression or type.
    #[error("line {0} spells nothing that is read")]
    Line(u32),
    /// A load, an expression or blocks go deeper than is admitted.
    #[error("line {0} goes too deep")]
    TooDeep(u32),
    /// A line stands where it may not.
    #[error("line {0} stands where it may not")]
    Block(u32),
    /// There is no memory for the trees.
    #[error("out of memory")]
    NoMemory,
}

impl From<NoMemory> for SyntaxError {
    ghost use Rattle.std.specs.Prelude.{◌≡◌};
    ghost use Rattle.py_parser.specs.declared.errors.SyntaxError.TheVariants as syntax_error;

    ghost from_gives = { λ _ e. e ≡ syntax_error.NoMemory };

    fn from(_: NoMemory) -> Self {
        SyntaxError::NoMemory
    }
}

impl From<Misread> for SyntaxError {
    ghost use Rattle.std.specs.Prelude.{◌≡◌};
    ghost use Rattle.py_parser.specs.Parsed.{misread_as};

    ghost from_gives = { λ m e. e ≡ misread_as m };

    fn from(misread: Misread) -> Self {
        match misread {
            Misread::NoLine(line) => SyntaxError::Line(line),
            Misread::NoMemory => SyntaxError::NoMemory,
        }
    }
}
