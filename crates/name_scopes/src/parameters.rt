ghost use Rattle.std.specs.Prelude.{◌≡◌, length};
ghost use Rattle.spec_names.specs.Names.{names_of};
ghost use Rattle.py_tree.specs.Stmts.{AreParametersThere, parameters_tree};
ghost use Rattle.local_names.specs.Adding.{Adds};

use name_sets::NameSet;
use py_tree::{Module, ParameterNode};

/// Adds the names of parameters to a set.
pub(crate) fn add_parameters(module: &Module, parameters: &[ParameterNode], names: &mut NameSet)
    requires parameters { AreParametersThere «module».now parameters.now }
    requires size { length names.old ≡ length «module».now.names }
    ensures { Adds «module».now.names names.old names.new (names_of (parameters_tree «module».now parameters.now)) }
{
    // its contract tells what holds of every module
    let _ = module.names_count();
    for parameter in parameters {
        names.insert(parameter.name);
    }
}
