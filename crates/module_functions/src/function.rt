ghost use Rattle.std.specs.Prelude.{◌≡◌, length};
ghost use Rattle.spec_names.specs.Headers.{is_self_first};
ghost use Rattle.spec_uses.specs.Functions.{is_constructor};
ghost use Rattle.py_tree.specs.Arena.{shown_stmt};
ghost use Rattle.py_tree.specs.Stmts.{AreParametersThere, AreStmtsBelow, block_tree, parameters_tree};
ghost use Rattle.module_functions.specs.Listed.{IsThere, function_in};

use py_tree::{Module, ParameterNode, StmtId, StmtNode};

/// A function of a module, perhaps of a class.
#[derive(Clone, Copy, Debug, PartialEq, Eq)]
pub struct Function {
    /// Its `def`.
    pub statement: StmtId,
    /// The number of its class, from 0 in the order of lines.
    pub class: Option<usize>,
}

impl Function {
    /// The line of its `def`, from 1.
    pub fn line(&self, module: &Module) -> u32
        requires { IsThere «module».now self.now }
        ensures { result ≡ (function_in «module».now self.now).line }
    {
        match module.stmt(self.statement) {
            StmtNode::Def { line, .. } => *line,
            _ => 0,
        }
    }

    /// Its name.
    pub fn name<'a>(&self, module: &'a Module) -> &'a str
        requires { IsThere «module».now self.now }
        ensures { result.now ≡ (function_in «module».now self.now).name }
    {
        match module.stmt(self.statement) {
            StmtNode::Def { name, .. } => module.name_text(*name),
            _ => "",
        }
    }

    /// Its parameters, in their order.
    pub fn parameters<'a>(&self, module: &'a Module) -> &'a [ParameterNode]
        requires { IsThere «module».now self.now }
        ensures parameters { parameters_tree «module».now result.now ≡ (function_in «module».now self.now).parameters }
        ensures there { AreParametersThere «module».now result.now }
    {
        match module.stmt(self.statement) {
            StmtNode::Def { parameters, .. } => parameters,
            _ => &[],
        }
    }

    /// The statements of its body.
    pub fn body<'a>(&self, module: &'a Module) -> &'a [StmtId]
        requires { IsThere «module».now self.now }
        ensures body { block_tree (shown_stmt «module».now) result.now ≡ (function_in «module».now self.now).body }
        ensures there { AreStmtsBelow (length «module».now.stmts) result.now }
    {
        match module.stmt(self.statement) {
            StmtNode::Def { body, .. } => body,
            _ => &[],
        }
    }

    /// Whether it makes the objects of its class.
    pub fn is_constructor(&self, module: &Module) -> bool
        requires { IsThere «module».now self.now }
        ensures { result ≡ is_constructor (function_in «module».now self.now) }
    {
        self.class.is_some() && self.name(module) == "__init__"
    }
}

/// Whether the first of these parameters is `self`.
pub fn is_self_first(module: &Module, parameters: &[ParameterNode]) -> bool
    requires { AreParametersThere «module».now parameters.now }
    ensures { result ≡ is_self_first (parameters_tree «module».now parameters.now) }
{
    match parameters {
        [first, ..] => module.name_text(first.name) == "self",
        [] => false,
    }
}
