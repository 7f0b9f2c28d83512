ghost use Rattle.std.specs.Prelude.{◌≡◌, ◌==◌, length, not};
ghost use Rattle.std.specs.List.{list_any};
ghost use Rattle.spec_names.specs.Names.{is_private};
ghost use Rattle.spec_uses.specs.Expressions.{is_misused, keywords};
ghost use Rattle.py_tree.specs.Arena.{shown};
ghost use Rattle.py_tree.specs.Exprs.{AreArgumentsBelow, argument_list_tree};

use crate::builtins::takes;
use module_members::is_private;
use py_tree::{Argument, Module};
use spec_names::Builtin;

/// Whether one of these arguments is a keyword argument.
pub fn has_keywords(module: &Module, arguments: &[Argument]) -> bool
    requires { AreArgumentsBelow (length «module».now.names) (length «module».now.exprs) arguments.now }
    ensures { result ≡ not (length (keywords (argument_list_tree «module».now.names (shown «module».now) arguments.now)) == 0) }
{
    for argument in arguments {
        if argument.name.is_some() {
            return true;
        }
    }
    false
}

/// Whether the name of one of these arguments begins with two underscores.
pub(crate) fn are_private(module: &Module, arguments: &[Argument]) -> bool
    requires { AreArgumentsBelow (length «module».now.names) (length «module».now.exprs) arguments.now }
    ensures { result ≡ list_any is_private (keywords (argument_list_tree «module».now.names (shown «module».now) arguments.now)) }
{
    for argument in arguments {
        if let Some(name) = argument.name {
            if is_private(module.name_text(name)) {
                return true;
            }
        }
    }
    false
}

/// Whether a call of a built-in function has keywords, or a number of arguments that the function does not take.
pub(crate) fn is_misused(module: &Module, function: Option<Builtin>, arguments: &[Argument]) -> bool
    requires { AreArgumentsBelow (length «module».now.names) (length «module».now.exprs) arguments.now }
    ensures { result ≡ is_misused function (argument_list_tree «module».now.names (shown «module».now) arguments.now) }
{
    match function {
        Some(builtin) => has_keywords(module, arguments) || !takes(builtin, arguments.len()),
        None => false,
    }
}
