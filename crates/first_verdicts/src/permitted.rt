// Which exception classes are permitted.
ghost use Rattle.std.specs.Prelude.{◌≡◌};
ghost use Rattle.spec_first_trees.specs.Classes.{within, is_permitted};

use first_tree::ExcClass;

/// Whether a class is the first one, or stands below it.
fn within(above: ExcClass, class: ExcClass) -> bool
    ensures { result ≡ within above class }
{
    match above {
        ExcClass::Exception => true,
        ExcClass::ArithmeticError => matches!(
            class,
            ExcClass::ArithmeticError | ExcClass::ZeroDivisionError
        ),
        ExcClass::LookupError => matches!(
            class,
            ExcClass::LookupError | ExcClass::IndexError | ExcClass::KeyError
        ),
        ExcClass::NameError => matches!(class, ExcClass::NameError | ExcClass::UnboundLocalError),
        ExcClass::RuntimeError => matches!(
            class,
            ExcClass::RuntimeError | ExcClass::NotImplementedError
        ),
        ExcClass::ZeroDivisionError
        | ExcClass::IndexError
        | ExcClass::KeyError
        | ExcClass::ValueError
        | ExcClass::TypeError
        | ExcClass::AttributeError
        | ExcClass::UnboundLocalError
        | ExcClass::AssertionError
        | ExcClass::NotImplementedError => class == above,
    }
}

/// Whether one of these classes permits a class.
pub fn is_permitted(permitted: &[ExcClass], class: ExcClass) -> bool
    ensures { result ≡ is_permitted permitted.now class }
{
    permitted.iter().any(|above| within(*above, class))
}
