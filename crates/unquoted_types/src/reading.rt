ghost use Rattle.std.specs.Prelude.{◌≡◌, ◌<◌, length, IfOk};
ghost use Rattle.std.specs.Option.{option_map};
ghost use Rattle.spec_types.specs.Quotes.{unquoted};
ghost use Rattle.py_tree.specs.Arena.{shown_type};
ghost use Rattle.py_tree.specs.Types.{IsTypeBelow};
ghost use Rattle.py_types.specs.Given.{Grows};

use crate::counting::{letters, sum};
use crate::exchanging::exchanged;
use py_tree::{Module, TypeId};
use std::alloc::Global;
use xh_outside::NoMemory;

/// The annotation in which each string is exchanged for the type that it holds, or None where a string holds none. Its
/// nodes are added to the module, which keeps what it has, and may have more names and types after None and after an
/// error too. It calls itself as deep as types and strings stand in each other.
///
/// # Errors
///
/// There is no memory for it, or a string is too long to be read, which none in a text below 2 GiB is.
#[tactic(auto, using(py_types::proofs::Growth::grows_same))]
pub fn unquoted(alloc: Global, module: &mut Module, t: TypeId) -> Result<Option<TypeId>, NoMemory>
    requires { t.index < length «module».old.types }
    ensures grown { Grows «module».old «module».new }
    ensures there { IfOk result (λ o. IsTypeBelow (length «module».new.types) o) }
    ensures unquoted { IfOk result (λ o. option_map (λ u. shown_type «module».new u.index) o ≡ unquoted (shown_type «module».old t.index)) }
{
    // its contract tells what holds of every module
    let _ = module.types_count();
    let bound = sum(letters(module, t)?, 1)?;
    exchanged(alloc, module, bound, t)
}
