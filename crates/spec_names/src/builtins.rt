/// A built-in function (Python 3.12 library reference, "Built-in Functions").
#[derive(Clone, Copy, Debug, PartialEq, Eq)]
pub enum Builtin {
    Abs,
    All,
    Any,
    Bool,
    Chr,
    Dict,
    Int,
    IsInstance,
    Len,
    List,
    Max,
    Min,
    Ord,
    Range,
    Str,
    Sum,
}

/// The built-in functions, in the order of their names. No module defines their names again.
pub const BUILTINS: [(&str, Builtin); 16] = [
    ("abs", Builtin::Abs),
    ("all", Builtin::All),
    ("any", Builtin::Any),
    ("bool", Builtin::Bool),
    ("chr", Builtin::Chr),
    ("dict", Builtin::Dict),
    ("int", Builtin::Int),
    ("isinstance", Builtin::IsInstance),
    ("len", Builtin::Len),
    ("list", Builtin::List),
    ("max", Builtin::Max),
    ("min", Builtin::Min),
    ("ord", Builtin::Ord),
    ("range", Builtin::Range),
    ("str", Builtin::Str),
    ("sum", Builtin::Sum),
];
