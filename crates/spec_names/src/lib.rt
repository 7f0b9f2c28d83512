//! The names of a module and the statements that it admits, as definitions: why a module is refused whose lines are right.
#![tactic(auto)]

ghost use Rattle.std.specs.Prelude.{◌≡◌, List, Some};
ghost use Rattle.spec_refusals.specs.Soonest.{AreLater};
ghost use Rattle.spec_names.specs.declared.Refusal.{Refusal};
ghost use Rattle.spec_names.specs.Refusals.{first_refusal, line_in, number_in};

mod builtins;

pub use builtins::{BUILTINS, Builtin};

/// Why a module is refused for its names or for what its statements are. Of two causes at one line the one that stands
/// first here is told.
#[derive(Clone, Copy, Debug, PartialEq, Eq)]
pub enum ProfileFault {
    /// A name that nothing defines.
    UnknownName,
    /// A name that is defined twice, or that of a built-in function or an exception class.
    Duplicate,
    /// A parameter needs a type and has none.
    MissingType,
    /// A parameter needs a type and has an annotation that is none.
    UnknownType,
    /// A statement that a module or a class does not admit.
    ModuleStatement,
    /// A checked function whose parameters have more values than are tried.
    TooWide,
    /// A form that is left out.
    Form,
}

/// A module that is refused.
#[derive(Clone, Copy, Debug, PartialEq, Eq)]
pub struct Refusal {
    /// From 1.
    pub line: u32,
    pub fault: ProfileFault,
}

/// The first refusal is the soonest of all.
pub fn the_first_refusal_is_the_soonest()
    ensures { (rs : List Refusal) (r : Refusal) → first_refusal rs ≡ Some r → AreLater line_in number_in r rs }
{}
