ghost use Rattle.std.specs.Prelude.{◌≡◌, ◌&&◌, not, if◌then◌else◌};
ghost use Rattle.spec_uses.specs.Expressions.{builtin_in, is_called, is_class, is_isinstance, is_old, is_range, is_walk, is_walked, takes};
ghost use Rattle.spec_uses.specs.declared.Place.TheVariants.{Read, Walked};

use spec_names::Builtin;
use spec_uses::{Meaning, Place};

fn is_called(place: Place) -> bool
    ensures { result ≡ is_called place }
{
    matches!(place, Place::Called(_))
}

// Whether an expression stands for the arguments before the call.
fn is_old(meaning: Option<Meaning>) -> bool
    ensures { result ≡ is_old meaning }
{
    matches!(meaning, Some(Meaning::Old))
}

/// The built-in function that an expression stands for.
pub(crate) fn builtin_in(meaning: Option<Meaning>) -> Option<Builtin>
    ensures { result ≡ builtin_in meaning }
{
    match meaning {
        Some(Meaning::BuiltIn(builtin)) => Some(builtin),
        _ => None,
    }
}

fn is_range(function: Option<Builtin>) -> bool
    ensures { result ≡ is_range function }
{
    matches!(function, Some(Builtin::Range))
}

pub(crate) fn is_isinstance(function: Option<Builtin>) -> bool
    ensures { result ≡ is_isinstance function }
{
    matches!(function, Some(Builtin::IsInstance))
}

/// Whether a function walks over its sole argument.
pub(crate) fn is_walk(function: Option<Builtin>) -> bool
    ensures { result ≡ is_walk function }
{
    matches!(
        function,
        Some(
            Builtin::List | Builtin::Sum | Builtin::Min | Builtin::Max | Builtin::Any | Builtin::All
        )
    )
}

// Whether an expression may stand as the class in `isinstance`.
fn is_class(meaning: Option<Meaning>) -> bool
    ensures { result ≡ is_class meaning }
{
    matches!(
        meaning,
        Some(
            Meaning::Class
                | Meaning::BuiltIn(
                    Builtin::Int | Builtin::Bool | Builtin::Str | Builtin::List | Builtin::Dict
                )
        )
    )
}

/// Whether an expression has one of the arguments before the call, where it is not called.
pub(crate) fn is_old_read(meaning: Option<Meaning>, place: Place) -> bool
    ensures { result ≡ (is_old meaning && not (is_called place)) }
{
    is_old(meaning) && !is_called(place)
}

/// Whether a call is a `range` that is not walked over.
pub(crate) fn is_misplaced(function: Option<Builtin>, place: Place) -> bool
    ensures { result ≡ (is_range function && not (is_walked place)) }
{
    is_range(function) && place != Place::Walked
}

/// Whether an argument is the class that an `isinstance` asks for.
pub(crate) fn is_asked_for(function: Option<Builtin>, argument: Option<Meaning>) -> bool
    ensures { result ≡ (is_isinstance function && is_class argument) }
{
    is_isinstance(function) && is_class(argument)
}

/// Where the sole argument of a call stands.
pub(crate) fn place_of_sole(function: Option<Builtin>) -> Place
    ensures { result ≡ (if is_walk function then Walked else Read) }
{
    if is_walk(function) {
        Place::Walked
    } else {
        Place::Read
    }
}

/// Whether a built-in function takes so many arguments.
pub(crate) fn takes(builtin: Builtin, count: usize) -> bool
    ensures { result ≡ takes builtin count }
{
    match builtin {
        Builtin::Bool | Builtin::Dict | Builtin::Int | Builtin::List | Builtin::Str => count <= 1,
        Builtin::IsInstance => count == 2,
        Builtin::Max | Builtin::Min => count >= 1,
        Builtin::Range => count >= 1 && count <= 3,
        Builtin::Abs
        | Builtin::All
        | Builtin::Any
        | Builtin::Chr
        | Builtin::Len
        | Builtin::Ord
        | Builtin::Sum => count == 1,
    }
}
