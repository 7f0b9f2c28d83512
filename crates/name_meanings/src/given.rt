ghost use Rattle.std.specs.Prelude.{◌≡◌};
ghost use Rattle.spec_uses.specs.Meanings.{first_named, given_as};

use module_members::is_exception;
use spec_names::{BUILTINS, Builtin};
use spec_uses::Meaning;

// The first of these functions that has a name.
fn first_named(functions: &[(&str, Builtin)], name: &str) -> Option<Builtin>
    ensures { result ≡ first_named (λ k. k.0.now) (λ k. k.1) functions.now name.now }
{
    for (known, builtin) in functions {
        if *known == name {
            return Some(*builtin);
        }
    }
    None
}

/// What a name stands for that no module defines.
pub(crate) fn given_meaning(name: &str) -> Meaning
    ensures { result ≡ given_as name.now }
{
    match first_named(&BUILTINS, name) {
        Some(builtin) => Meaning::BuiltIn(builtin),
        None if is_exception(name) => Meaning::Exception,
        None => Meaning::Unknown,
    }
}
