ghost use Rattle.std.specs.Prelude.{◌≡◌, ◌↔◌, IsTrue};

/// Why a run ends before its end.
#[derive(Clone, Copy, Debug, PartialEq, Eq)]
pub enum LimitKind {
    /// It took more steps than it may.
    Steps,
    /// Too many calls or comparisons stand inside one another.
    Depth,
    /// An integer is too large.
    Int,
    /// An operation is none of those that are described.
    Profile,
}

/// The exception classes (Python 3.12 library reference, "Built-in Exceptions").
#[derive(Clone, Copy, Debug, PartialEq, Eq)]
pub enum ExcClass {
    Exception,
    ArithmeticError,
    ZeroDivisionError,
    LookupError,
    IndexError,
    KeyError,
    ValueError,
    TypeError,
    AttributeError,
    NameError,
    UnboundLocalError,
    AssertionError,
    RuntimeError,
    NotImplementedError,
}

impl ExcClass {
    ghost use Rattle.py_tree.specs.Classes.{IsWithin};

    /// Whether a class is another one or stands below it.
    pub fn within(self, wider: ExcClass) -> bool
        ensures { IsTrue result ↔ IsWithin self wider }
    {
        match wider {
            ExcClass::Exception => true,
            ExcClass::ArithmeticError => self == wider || self == ExcClass::ZeroDivisionError,
            ExcClass::LookupError => {
                self == wider || self == ExcClass::IndexError || self == ExcClass::KeyError
            }
            ExcClass::NameError => self == wider || self == ExcClass::UnboundLocalError,
            ExcClass::RuntimeError => self == wider || self == ExcClass::NotImplementedError,
            ExcClass::ZeroDivisionError => self == wider,
            ExcClass::IndexError => self == wider,
            ExcClass::KeyError => self == wider,
            ExcClass::ValueError => self == wider,
            ExcClass::TypeError => self == wider,
            ExcClass::AttributeError => self == wider,
            ExcClass::UnboundLocalError => self == wider,
            ExcClass::AssertionError => self == wider,
            ExcClass::NotImplementedError => self == wider,
        }
    }
}
