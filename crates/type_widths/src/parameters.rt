ghost use Rattle.std.specs.Prelude.{◌≡◌, ℕ, Option, length, map};
ghost use Rattle.std.specs.List.{All};
ghost use Rattle.std.specs.Option.{option_map};
ghost use Rattle.spec_types.specs.Classes as defined;
ghost use Rattle.spec_types.specs.Names.{type_name};
ghost use Rattle.spec_types.specs.Widths.{given_width, total};
ghost use Rattle.py_tree.specs.Arena.{module_tree};
ghost use Rattle.given_types.specs.Giving.{IsGiven, given_in};
ghost use Rattle.value_types.specs.Widths.{AreCapped, capped};

use given_types::GivenType;
use py_tree::Module;
use spec_types::TypeName;
use value_types::{sum, width};

// The width of what a parameter is given, where it has a type.
fn given_width(
    module: &Module,
    names: &[TypeName],
    given: GivenType,
    max_len: u8,
    classes: &[Option<usize>],
) -> Option<usize>
    requires names { names.now ≡ map (type_name (module_tree «module».now).body) «module».now.names }
    requires given { IsGiven «module».now given }
    requires classes { length classes.now ≡ length (defined.classes (module_tree «module».now).body) }
    ensures { (of_class : ℕ → Option ℕ) → AreCapped classes.now of_class → result ≡ option_map capped (given_width max_len of_class (given_in «module».now given)) }
{
    match given {
        GivenType::Missing | GivenType::Unknown { .. } => None,
        GivenType::Known(t) => width(module, names, t, max_len, classes),
    }
}

/// The widths of parameters together, where each has a type, counted up to 4,097.
pub(crate) fn total(
    module: &Module,
    names: &[TypeName],
    types: &[GivenType],
    max_len: u8,
    classes: &[Option<usize>],
) -> Option<usize>
    requires names { names.now ≡ map (type_name (module_tree «module».now).body) «module».now.names }
    requires types { All (IsGiven «module».now) types.now }
    requires classes { length classes.now ≡ length (defined.classes (module_tree «module».now).body) }
    ensures { (of_class : ℕ → Option ℕ) → AreCapped classes.now of_class → result ≡ option_map capped (total max_len of_class (map (given_in «module».now) types.now)) }
{
    let mut total = Some(0);
    for given in types {
        total = sum(total, given_width(module, names, *given, max_len, classes));
    }
    total
}
