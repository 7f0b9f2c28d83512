ghost use Rattle.std.specs.Prelude.{◌≡◌};
ghost use Rattle.py_outline.specs.Orders as order;

/// A header, as far as the rules on places tell headers apart.
#[derive(Clone, Copy, Debug, PartialEq, Eq)]
pub enum HeaderKind {
    Def,
    Class,
    If,
    Elif,
    Else,
    While,
    For,
    Try,
    /// An `except` with classes.
    Except,
    /// An `except` without classes, which catches all.
    ExceptAll,
}

/// A simple statement, as far as the rules on places tell them apart.
#[derive(Clone, Copy, Debug, PartialEq, Eq)]
pub enum SimpleKind {
    Return,
    Break,
    Continue,
    /// `raise` alone.
    Reraise,
    /// An import of either kind.
    Import,
    /// Any other one, which may stand in every block.
    Other,
}

/// What stands on a line.
#[derive(Clone, Copy, Debug, PartialEq, Eq)]
pub enum Form {
    Simple(SimpleKind),
    /// A header whose block stands in the lines behind it.
    Header(HeaderKind),
    /// A header with the one statement of its block.
    HeaderSimple(HeaderKind, SimpleKind),
}

impl Form {
    /// The header of the line, where it has one.
    pub(crate) fn header(self) -> Option<HeaderKind>
        ensures { result ≡ order.header_of self }
    {
        match self {
            Form::Simple(_) => None,
            Form::Header(header) | Form::HeaderSimple(header, _) => Some(header),
        }
    }

    /// Whether the block of the line stands in the lines behind it.
    pub(crate) fn awaits_block(self) -> bool
        ensures { result ≡ order.awaits_block self }
    {
        matches!(self, Form::Header(_))
    }
}

/// What the rules on places ask of a line.
#[derive(Clone, Copy, Debug, PartialEq, Eq)]
pub struct Outline {
    /// The number of blocks in which the line stands.
    pub depth: usize,
    /// The number of the line, from 1.
    pub line: u32,
    pub form: Form,
}
