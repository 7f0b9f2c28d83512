ghost use Rattle.std.specs.Prelude.{◌≡◌, ◌<◌, ◌&&◌, ℕ, suc, Option, Some, length, map, IfOk};
ghost use Rattle.std.specs.List.{flat_map};
ghost use Rattle.std.specs.Option.{option_map};
ghost use Rattle.spec_types.specs.Classes as defined;
ghost use Rattle.spec_types.specs.Names.{type_name};
ghost use Rattle.spec_types.specs.Widths.{class_width, greatest_width, is_wider, self_width, too_wide, width_of};
ghost use Rattle.py_tree.specs.Arena.{State, module_tree};
ghost use Rattle.told_refusals.specs.Telling.{Tells};
ghost use Rattle.given_types.specs.Giving.{AreGiven, AreSignatures, IsClassBelow, IsSignature, all_given, signature_in};
ghost use Rattle.value_types.specs.Widths.{AreCapped, capped};

use crate::levels::class_widths;
use crate::parameters::total;
use given_types::{GivenType, Signature};
use py_tree::Module;
use spec_names::{ProfileFault, Refusal};
use spec_types::TypeName;
use std::alloc::Global;
use told_refusals::told_if;
use value_types::sum;
use xh_outside::NoMemory;

/// The greatest width of a checked function.
const GREATEST_WIDTH: usize = 4096;

// The width of the object of its own class that a function takes.
fn self_width(signature: &Signature, classes: &[Option<usize>]) -> Option<usize>
    requires { IsClassBelow (length classes.now) signature.now.class }
    ensures { (of_class : ℕ → Option ℕ) → AreCapped classes.now of_class → (m : State) → result ≡ option_map capped (self_width of_class (signature_in m signature.now)) }
{
    match signature.class {
        Some(number) if signature.takes_self => classes[number],
        _ => Some(0),
    }
}

// The widths of the parameters of a function together.
fn width_of(
    module: &Module,
    names: &[TypeName],
    signature: &Signature,
    max_len: u8,
    classes: &[Option<usize>],
) -> Option<usize>
    requires names { names.now ≡ map (type_name (module_tree «module».now).body) «module».now.names }
    requires signature { IsSignature «module».now (length classes.now) signature.now }
    requires classes { length classes.now ≡ length (defined.classes (module_tree «module».now).body) }
    ensures { (of_class : ℕ → Option ℕ) → AreCapped classes.now of_class → result ≡ option_map capped (width_of max_len of_class (signature_in «module».now signature.now)) }
{
    sum(
        self_width(signature, classes),
        total(module, names, &signature.types, max_len, classes),
    )
}

// Whether a width, counted up to 4,097, is too great.
fn is_too_great(width: Option<usize>) -> bool
    ensures { (w : Option ℕ) → width ≡ option_map capped w → result ≡ is_wider greatest_width w }
{
    match width {
        Some(width) => width > GREATEST_WIDTH,
        None => false,
    }
}

// Whether a function is checked and too wide.
fn is_too_wide(
    module: &Module,
    names: &[TypeName],
    signature: &Signature,
    max_len: u8,
    classes: &[Option<usize>],
) -> bool
    requires names { names.now ≡ map (type_name (module_tree «module».now).body) «module».now.names }
    requires signature { IsSignature «module».now (length classes.now) signature.now }
    requires classes { length classes.now ≡ length (defined.classes (module_tree «module».now).body) }
    ensures { (of_class : ℕ → Option ℕ) → AreCapped classes.now of_class → result ≡ (signature.now.is_checked && is_wider greatest_width (width_of max_len of_class (signature_in «module».now signature.now))) }
{
    signature.is_checked && is_too_great(width_of(module, names, signature, max_len, classes))
}

// What is told behind the functions that are too wide, where the classes have these widths.
fn told_of_signatures(
    module: &Module,
    names: &[TypeName],
    signatures: &[Signature],
    max_len: u8,
    classes: &[Option<usize>],
    told: Option<Refusal>,
) -> Option<Refusal>
    requires names { names.now ≡ map (type_name (module_tree «module».now).body) «module».now.names }
    requires signatures { AreSignatures «module».now (length classes.now) signatures.now }
    requires classes { length classes.now ≡ length (defined.classes (module_tree «module».now).body) }
    ensures { (of_class : ℕ → Option ℕ) → AreCapped classes.now of_class → Tells told result (flat_map (too_wide max_len of_class) (map (signature_in «module».now) signatures.now)) }
{
    let mut told = told;
    for signature in signatures {
        let is_refused = is_too_wide(module, names, signature, max_len, classes);
        told = told_if(told, is_refused, signature.line, ProfileFault::TooWide);
    }
    told
}

/// What is told behind the checked functions whose parameters have too many values, where lists have at most `max_len`
/// elements and a new object stands inside at most `max_nest` other constructor calls. It takes time linear in the parts of
/// the types of all parameters, times `max_nest + 2` and the number of unions that stand in each other.
///
/// # Errors
///
/// There is no memory for the widths of classes.
pub fn told_of_widths(
    alloc: Global,
    module: &Module,
    names: &[TypeName],
    signatures: &[Signature],
    taken: &[Vec<GivenType>],
    max_len: u8,
    max_nest: u8,
    told: Option<Refusal>,
) -> Result<Option<Refusal>, NoMemory>
    requires names { names.now ≡ map (type_name (module_tree «module».now).body) «module».now.names }
    requires signatures { AreSignatures «module».now (length taken.now) signatures.now }
    requires taken { AreGiven «module».now taken.now }
    requires classes { length taken.now ≡ length (defined.classes (module_tree «module».now).body) }
    ensures { IfOk result (λ new. Tells told new (flat_map (too_wide max_len (class_width (all_given «module».now taken.now) max_len (suc max_nest))) (map (signature_in «module».now) signatures.now))) }
{
    let classes = class_widths(alloc, module, names, taken, max_len, max_nest)?;
    Ok(told_of_signatures(module, names, signatures, max_len, &classes, told))
}
