ghost use Rattle.std.specs.Prelude.{◌≡◌};
ghost use Rattle.spec_uses.specs.ContractScopes.{meaning_behind};
ghost use Rattle.name_scopes.specs.Showing.{around, has_before, is_post, is_seen_in};

use spec_contracts::LineKind;
use spec_uses::Meaning;

/// Whether what stands before the body of a function sees one of its names: all but the `self` of a constructor.
pub(crate) fn has_before(is_constructor: bool, name: &str) -> bool
    ensures { result ≡ has_before is_constructor name.now }
{
    !(is_constructor && name == "self")
}

/// Whether a name of a function is seen in its contract lines of a kind, or in its body.
pub(crate) fn is_seen_in(kind: Option<LineKind>, is_constructor: bool, name: &str) -> bool
    ensures { result ≡ is_seen_in kind is_constructor name.now }
{
    match kind {
        None | Some(LineKind::Post) => true,
        Some(LineKind::Pre) => has_before(is_constructor, name),
        Some(LineKind::Raises | LineKind::Invariant) => false,
    }
}

/// Whether this is the kind of a line about what a function has returned.
pub(crate) fn is_post(kind: Option<LineKind>) -> bool
    ensures { result ≡ is_post kind }
{
    matches!(kind, Some(LineKind::Post))
}

/// What a name stands for that is not local, where its meaning in the module is given.
pub(crate) fn around(kind: Option<LineKind>, meaning: Meaning, name: &str) -> Meaning
    ensures { result ≡ around kind meaning name.now }
{
    match kind {
        Some(LineKind::Post) => meaning_behind(meaning, name),
        Some(LineKind::Invariant) if name == "self" => Meaning::Local,
        _ => meaning,
    }
}

// What a name stands for in a post line where it is not local.
fn meaning_behind(meaning: Meaning, name: &str) -> Meaning
    ensures { result ≡ meaning_behind (λ _. meaning) name.now }
{
    match name {
        "__return__" | "_" => Meaning::Result,
        "__old__" => Meaning::Old,
        _ => meaning,
    }
}
