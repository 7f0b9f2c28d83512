ghost use Rattle.std.specs.Prelude.{◌≡◌, ◌<◌, length, map, IfOk};
ghost use Rattle.std.specs.List.{list_any};
ghost use Rattle.std.specs.Option.{option_map};
ghost use Rattle.spec_names.specs.Names.{names_of};
ghost use Rattle.spec_names.specs.Defined.{defined_by};
ghost use Rattle.spec_names.specs.Names.{is_given, is_private};
ghost use Rattle.py_tree.specs.Names.{AreNamesBelow, text_of};
ghost use Rattle.py_tree.specs.Stmts.{AreParametersThere, parameters_tree, texts_of};
ghost use Rattle.module_members.specs.Defining.{IsThere, member_in};

use module_members::{Member, is_given, is_private};
use py_tree::{Module, NameId, NamesId, ParameterNode};
use std::alloc::Global;
use xh_outside::NoMemory;

// The names of a list.
fn listed(alloc: Global, module: &Module, list: NamesId) -> Result<Vec<NameId>, NoMemory>
    requires { list.index < length «module».now.lists }
    ensures texts { IfOk result (λ v. map (text_of «module».now.names) v.items ≡ texts_of «module».now list) }
    ensures there { IfOk result (λ v. AreNamesBelow (length «module».now.names) v.items) }
{
    let mut names = Vec::new(alloc);
    for i in 0..module.names_len(list) {
        names.push(module.names_get(list, i))?;
    }
    Ok(names)
}

/// The names that a statement defines, where it defines any.
pub(crate) fn defined(
    alloc: Global,
    module: &Module,
    member: Option<Member>,
) -> Result<Vec<NameId>, NoMemory>
    requires { IsThere «module».now member }
    ensures texts { IfOk result (λ v. map (text_of «module».now.names) v.items ≡ defined_by (option_map (member_in «module».now) member)) }
    ensures there { IfOk result (λ v. AreNamesBelow (length «module».now.names) v.items) }
{
    match member {
        None | Some(Member::Unnamed) => Ok(Vec::new(alloc)),
        Some(Member::Imported(list)) => listed(alloc, module, list),
        Some(Member::Constant(name) | Member::Function(name) | Member::Class(name)) => {
            Ok(vec![in alloc; name]?)
        }
    }
}

/// The names of parameters.
pub(crate) fn parameter_names(
    alloc: Global,
    module: &Module,
    parameters: &[ParameterNode],
) -> Result<Vec<NameId>, NoMemory>
    requires { AreParametersThere «module».now parameters.now }
    ensures texts { IfOk result (λ v. map (text_of «module».now.names) v.items ≡ names_of (parameters_tree «module».now parameters.now)) }
    ensures there { IfOk result (λ v. AreNamesBelow (length «module».now.names) v.items) }
{
    let mut names = Vec::new(alloc);
    for parameter in parameters {
        names.push(parameter.name)?;
    }
    Ok(names)
}

/// Whether one of these names is that of a built-in function or of an exception class.
pub(crate) fn are_given(module: &Module, names: &[NameId]) -> bool
    requires { AreNamesBelow (length «module».now.names) names.now }
    ensures { result ≡ list_any is_given (map (text_of «module».now.names) names.now) }
{
    for name in names {
        if is_given(module.name_text(*name)) {
            return true;
        }
    }
    false
}

/// Whether one of these names begins with two underscores.
pub(crate) fn are_private(module: &Module, names: &[NameId]) -> bool
    requires { AreNamesBelow (length «module».now.names) names.now }
    ensures { result ≡ list_any is_private (map (text_of «module».now.names) names.now) }
{
    for name in names {
        if is_private(module.name_text(*name)) {
            return true;
        }
    }
    false
}
