ghost use Rattle.std.specs.Prelude.{◌≡◌, ℕ, suc, Option, length, map, IfOk};
ghost use Rattle.std.specs.List.{All};
ghost use Rattle.std.specs.Option.{option_map};
ghost use Rattle.spec_types.specs.Classes as defined;
ghost use Rattle.spec_types.specs.Names.{type_name};
ghost use Rattle.spec_types.specs.Widths.{class_width, total};
ghost use Rattle.py_tree.specs.Arena.{module_tree};
ghost use Rattle.given_types.specs.Giving.{AreGiven, IsGiven, all_given, given_in};
ghost use Rattle.value_types.specs.Widths.{AreCapped, capped};

use crate::parameters::total;
use given_types::GivenType;
use py_tree::Module;
use spec_types::TypeName;
use std::alloc::Global;
use value_types::sum;
use xh_outside::NoMemory;

// One more than the widths of what a constructor takes.
fn constructed_width(
    module: &Module,
    names: &[TypeName],
    types: &[GivenType],
    max_len: u8,
    classes: &[Option<usize>],
) -> Option<usize>
    requires names { names.now ≡ map (type_name (module_tree «module».now).body) «module».now.names }
    requires types { All (IsGiven «module».now) types.now }
    requires classes { length classes.now ≡ length (defined.classes (module_tree «module».now).body) }
    ensures { (of_class : ℕ → Option ℕ) → AreCapped classes.now of_class → result ≡ option_map capped (option_map suc (total max_len of_class (map (given_in «module».now) types.now))) }
{
    sum(Some(1), total(module, names, types, max_len, classes))
}

// The widths of all classes, of whose objects one more may stand in each other than where they have the widths before.
fn next_widths(
    alloc: Global,
    module: &Module,
    names: &[TypeName],
    taken: &[Vec<GivenType>],
    max_len: u8,
    before: &[Option<usize>],
) -> Result<Vec<Option<usize>>, NoMemory>
    requires names { names.now ≡ map (type_name (module_tree «module».now).body) «module».now.names }
    requires taken { AreGiven «module».now taken.now }
    requires before { length before.now ≡ length (defined.classes (module_tree «module».now).body) }
    ensures size { IfOk result (λ widths. length widths.items ≡ length taken.now) }
    ensures widths { IfOk result (λ widths. (n : ℕ) → AreCapped before.now (class_width (all_given «module».now taken.now) max_len n) → AreCapped widths.items (class_width (all_given «module».now taken.now) max_len (suc n))) }
{
    let mut widths = Vec::with_capacity(alloc, taken.len())?;
    for types in taken {
        widths.push(constructed_width(module, names, types, max_len, before))?;
    }
    Ok(widths)
}

/// The widths of all classes, counted up to 4,097, where an object stands inside at most `max_nest` other constructor calls.
pub(crate) fn class_widths(
    alloc: Global,
    module: &Module,
    names: &[TypeName],
    taken: &[Vec<GivenType>],
    max_len: u8,
    max_nest: u8,
) -> Result<Vec<Option<usize>>, NoMemory>
    requires names { names.now ≡ map (type_name (module_tree «module».now).body) «module».now.names }
    requires taken { AreGiven «module».now taken.now }
    requires classes { length taken.now ≡ length (defined.classes (module_tree «module».now).body) }
    ensures size { IfOk result (λ widths. length widths.items ≡ length taken.now) }
    ensures widths { IfOk result (λ widths. AreCapped widths.items (class_width (all_given «module».now taken.now) max_len (suc max_nest))) }
{
    let mut widths = vec![in alloc; Some(1); taken.len()]?;
    for _level in 0..u32::from(max_nest) + 1 {
        widths = next_widths(alloc, module, names, taken, max_len, &widths)?;
    }
    Ok(widths)
}
