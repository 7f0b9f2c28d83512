ghost use Rattle.std.specs.Prelude.{◌≡◌, ◌<◌, length};
ghost use Rattle.std.specs.Str.{bytes_eq};
ghost use Rattle.spec_forms.specs.Names.{returned_name};
ghost use Rattle.spec_contracts.specs.ContractLines.{is_among};
ghost use Rattle.py_tree.specs.Names.{text_of};
ghost use Rattle.py_tree.specs.Stmts.{AreParametersThere};
ghost use Rattle.first_promises.specs.Scopes.{names_in, parameter_names};

use crate::expressions::Scope;
use py_tree::{Module, NameId, ParameterNode};

// The name of the returned value in a post line.
const RETURNED: &str = "__return__";

// Whether one of these parameters has a name.
fn is_parameter(module: &Module, parameters: &[ParameterNode], name: NameId) -> bool
    requires parameters { AreParametersThere «module».now parameters.now }
    requires name { name.index < length «module».now.names }
    ensures { result ≡ is_among (parameter_names «module».now parameters.now) (text_of «module».now.names name) }
{
    // its contract tells what holds of every module
    let _ = module.names_count();
    for parameter in parameters {
        if parameter.name.index == name.index {
            return true;
        }
    }
    false
}

// Whether a name is that of the returned value.
fn is_returned(module: &Module, name: NameId) -> bool
    requires { name.index < length «module».now.names }
    ensures { result ≡ bytes_eq (text_of «module».now.names name) returned_name }
{
    module.name_text(name) == RETURNED
}

/// Whether an expression may have a name.
pub(crate) fn has_name(module: &Module, scope: Scope, name: NameId) -> bool
    requires parameters { AreParametersThere «module».now scope.parameters.now }
    requires name { name.index < length «module».now.names }
    ensures { result ≡ is_among (names_in «module».now scope.entry) (text_of «module».now.names name) }
{
    is_parameter(module, scope.parameters, name) || (scope.is_post && is_returned(module, name))
}
