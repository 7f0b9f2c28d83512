ghost use Rattle.std.specs.Prelude.{◌≡◌};
ghost use Rattle.spec_first_trees.specs.Classes.{is_permitted, within};

use crate::ExcClass;

// Whether a class is another one, or stands below it.
fn is_within(wide: ExcClass, class: ExcClass) -> bool
    ensures { result ≡ within wide class }
{
    match wide {
        ExcClass::Exception => true,
        ExcClass::ArithmeticError => {
            class == ExcClass::ArithmeticError || class == ExcClass::ZeroDivisionError
        }
        ExcClass::LookupError => {
            class == ExcClass::LookupError
                || class == ExcClass::IndexError
                || class == ExcClass::KeyError
        }
        ExcClass::NameError => {
            class == ExcClass::NameError || class == ExcClass::UnboundLocalError
        }
        ExcClass::RuntimeError => {
            class == ExcClass::RuntimeError || class == ExcClass::NotImplementedError
        }
        _ => class == wide,
    }
}

/// Whether one of these classes is another one, or stands above it.
pub(crate) fn is_permitted(classes: &[ExcClass], class: ExcClass) -> bool
    ensures { result ≡ is_permitted classes.now class }
{
    for wide in classes {
        if is_within(*wide, class) {
            return true;
        }
    }
    false
}
