ghost use Rattle.std.specs.Prelude.{◌≡◌, length};
ghost use Rattle.spec_types.specs.Classes.{behind_self, constructor_of};
ghost use Rattle.py_tree.specs.Arena.{shown_stmt};
ghost use Rattle.py_tree.specs.Stmts.{AreParametersThere, AreStmtsBelow, block_tree, parameters_tree};

use py_tree::{Module, ParameterNode, StmtId, StmtNode};

/// The parameters behind a `self` that stands first, or all.
pub fn behind_self<'a>(module: &Module, parameters: &'a [ParameterNode]) -> &'a [ParameterNode]
    requires { AreParametersThere «module».now parameters.now }
    ensures parameters { parameters_tree «module».now result.now ≡ behind_self (parameters_tree «module».now parameters.now) }
    ensures there { AreParametersThere «module».now result.now }
{
    match parameters {
        [first, rest @ ..] if module.name_text(first.name) == "self" => rest,
        _ => parameters,
    }
}

// The parameters that the constructor of a class with these statements takes.
pub(crate) fn constructor_of<'a>(module: &'a Module, body: &[StmtId]) -> &'a [ParameterNode]
    requires { AreStmtsBelow (length «module».now.stmts) body.now }
    ensures parameters { parameters_tree «module».now result.now ≡ constructor_of (block_tree (shown_stmt «module».now) body.now) }
    ensures there { AreParametersThere «module».now result.now }
{
    for s in body {
        if let StmtNode::Def {
            name,
            parameters,
            ..
        } = module.stmt(*s)
        {
            if module.name_text(*name) == "__init__" {
                return behind_self(module, parameters);
            }
        }
    }
    &[]
}
