ghost use Rattle.std.specs.Prelude.{◌≡◌};
ghost use Rattle.std.specs.List.{list_any};
ghost use Rattle.std.specs.Str.{bytes_eq};
ghost use Rattle.spec_contracts.specs.ContractLines.{is_exception};
ghost use Rattle.spec_names.specs.Names.{is_builtin, is_given, is_private};

use spec_contracts::EXCEPTION_CLASSES;
use spec_names::{BUILTINS, Builtin};

// Whether a name is that of one of these functions.
fn is_known(functions: &[(&str, Builtin)], name: &str) -> bool
    ensures { result ≡ list_any (λ k. bytes_eq k.0.now name.now) functions.now }
{
    for (known, _) in functions {
        if *known == name {
            return true;
        }
    }
    false
}

/// Whether a name is that of a built-in function.
pub fn is_builtin(name: &str) -> bool
    ensures { result ≡ is_builtin name.now }
{
    is_known(&BUILTINS, name)
}

// Whether a name is one of these texts.
fn is_text(texts: &[&str], name: &str) -> bool
    ensures { result ≡ list_any (λ k. bytes_eq k.now name.now) texts.now }
{
    for text in texts {
        if *text == name {
            return true;
        }
    }
    false
}

/// Whether a name is that of an exception class.
pub fn is_exception(name: &str) -> bool
    ensures { result ≡ is_exception name.now }
{
    is_text(&EXCEPTION_CLASSES, name)
}

/// Whether a name is that of a built-in function or of an exception class, which no module may define.
pub fn is_given(name: &str) -> bool
    ensures { result ≡ is_given name.now }
{
    is_builtin(name) || is_exception(name)
}

/// Whether a name begins with two underscores.
pub fn is_private(name: &str) -> bool
    ensures { result ≡ is_private name.now }
{
    name.starts_with("__")
}
