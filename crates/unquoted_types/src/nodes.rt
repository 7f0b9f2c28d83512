ghost use Rattle.std.specs.Prelude.{Some, IfOk};
ghost use Rattle.py_tree.specs.Arena.{AreTypePartsThere, shown_type};
ghost use Rattle.py_tree.specs.Types.{type_tree};
ghost use Rattle.py_types.specs.Given.{Grows};
ghost use Rattle.unquoted_types.specs.Given.{GivesType};

use py_tree::{Module, TypeId, TypeNode};
use xh_outside::NoMemory;

/// Adds a node whose parts are there.
#[tactic(auto, using(py_types::proofs::Growth::grows_type, py_types::proofs::Growth::grows_equal))]
pub(crate) fn add(module: &mut Module, node: TypeNode) -> Result<Option<TypeId>, NoMemory>
    requires parts { AreTypePartsThere «module».old node }
    ensures grown { Grows «module».old «module».new }
    ensures given { IfOk result (λ o. GivesType «module».new o (Some (type_tree «module».old.names (shown_type «module».old) node))) }
{
    let t = module.add_type(node)?;
    Ok(Some(t))
}
