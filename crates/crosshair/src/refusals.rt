ghost use Rattle.std.specs.Prelude.{◌≡◌};
ghost use Rattle.crosshair.specs.Answers.{kind_name};

/// Why a content is refused: see `docs/report.md`, "Refusals".
#[derive(Clone, Copy, Debug, PartialEq, Eq)]
pub enum RefusalKind {
    NotUtf8,
    BadCharacter,
    MixedIndent,
    BadDedent,
    OpenString,
    OpenBracket,
    BigInteger,
    NumberForm,
    EscapeForm,
    Line,
    TooDeep,
    Block,
    BadExpression,
    UnknownName,
    Misplaced,
    Duplicate,
    MissingType,
    UnknownType,
    ModuleStatement,
    TooWide,
    Form,
    NotBuilt,
}

impl RefusalKind {
    /// The name, as it is written.
    pub fn name(self) -> &'static str
        ensures { result.now ≡ kind_name self }
    {
        match self {
            RefusalKind::NotUtf8 => "NotUtf8",
            RefusalKind::BadCharacter => "BadCharacter",
            RefusalKind::MixedIndent => "MixedIndent",
            RefusalKind::BadDedent => "BadDedent",
            RefusalKind::OpenString => "OpenString",
            RefusalKind::OpenBracket => "OpenBracket",
            RefusalKind::BigInteger => "BigInteger",
            RefusalKind::NumberForm => "NumberForm",
            RefusalKind::EscapeForm => "EscapeForm",
            RefusalKind::Line => "Line",
            RefusalKind::TooDeep => "TooDeep",
            RefusalKind::Block => "Block",
            RefusalKind::BadExpression => "BadExpression",
            RefusalKind::UnknownName => "UnknownName",
            RefusalKind::Misplaced => "Misplaced",
            RefusalKind::Duplicate => "Duplicate",
            RefusalKind::MissingType => "MissingType",
            RefusalKind::UnknownType => "UnknownType",
            RefusalKind::ModuleStatement => "ModuleStatement",
            RefusalKind::TooWide => "TooWide",
            RefusalKind::Form => "Form",
            RefusalKind::NotBuilt => "NotBuilt",
        }
    }
}
