ghost use Rattle.std.specs.Prelude.{IfOk};
ghost use Rattle.spec_names.specs.Definitions.{definition_refusals};
ghost use Rattle.py_tree.specs.Arena.{module_tree};
ghost use Rattle.told_refusals.specs.Telling.{Tells};

use crate::doubles::told_of_doubles;
use crate::headers::told_of_headers;
use crate::parameters::told_of_parameters;
use crate::statements::told_of_statements;
use py_tree::Module;
use spec_names::Refusal;
use std::alloc::Global;
use xh_outside::NoMemory;

/// What is told behind the definitions of a module: its statements, names, headers and parameters.
pub(crate) fn told_of_definitions(
    alloc: Global,
    module: &Module,
    told: Option<Refusal>,
) -> Result<Option<Refusal>, NoMemory>
    ensures { IfOk result (λ new. Tells told new (definition_refusals (module_tree «module».now).body)) }
{
    let told = told_of_statements(module, told);
    let told = told_of_doubles(alloc, module, told)?;
    let told = told_of_headers(alloc, module, told)?;
    let told = told_of_parameters(alloc, module, told)?;
    Ok(told)
}
