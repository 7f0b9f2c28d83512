ghost use Rattle.std.specs.Prelude.{◌≡◌, ◌<◌, ℕ, List, length, IfOk};
ghost use Rattle.std.specs.List.{list_all};
ghost use Rattle.std.specs.Option.{option_map};
ghost use Rattle.spec_contracts.specs.ContractLines.{brackets_known, is_among};
ghost use Rattle.py_tree.specs.Arena.{shown_stmt};
ghost use Rattle.contract_owners.specs.Members.{parameters_in};

use crate::sets::TextSet;
use contract_owners::parameters;
use py_tree::{Module, StmtId};
use std::alloc::Global;
use xh_outside::{Name, NoMemory};

/// The names of the parameters of a function. Another statement has none.
pub(crate) fn parameter_names(
    alloc: Global,
    module: &Module,
    s: StmtId,
) -> Result<TextSet, NoMemory>
    requires { s.index < length «module».now.stmts }
    ensures { IfOk result (λ set. (x : List ℕ) → is_among set x ≡ is_among (parameters_in (shown_stmt «module».now s.index)) x) }
{
    let mut names = TextSet::new(alloc);
    for parameter in parameters(module, s) {
        names.insert(module.name_text(parameter.name))?;
    }
    Ok(names)
}

// Whether all of these are among the parameters.
fn are_among(parameters: &TextSet, names: &[Name]) -> bool
    ensures { result ≡ list_all (is_among parameters.now) names.now }
{
    for name in names {
        if !parameters.contains(name.as_str()) {
            return false;
        }
    }
    true
}

/// Whether the names in brackets, where there are brackets, are parameters.
pub(crate) fn are_known(parameters: &TextSet, names: &Option<Vec<Name>>) -> bool
    ensures { result ≡ brackets_known parameters.now (option_map (λ v. v.items) names.now) }
{
    match names {
        Some(names) => are_among(parameters, names),
        None => true,
    }
}
