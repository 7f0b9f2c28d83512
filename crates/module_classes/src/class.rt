ghost use Rattle.std.specs.Prelude.{◌≡◌, ◌<◌, length};
ghost use Rattle.spec_types.specs.Classes.{constructor_of};
ghost use Rattle.py_tree.specs.Names.{text_of};
ghost use Rattle.py_tree.specs.Stmts.{AreParametersThere, parameters_tree};
ghost use Rattle.module_classes.specs.Sorted.{IsThere, class_in};

use crate::parameters::constructor_of;
use py_tree::{Module, NameId, ParameterNode, StmtId, StmtNode};

/// A class of a module.
#[derive(Clone, Copy, Debug, PartialEq, Eq)]
pub struct Class {
    /// Its statement.
    pub statement: StmtId,
}

impl Class {
    /// Its name.
    pub fn name(&self, module: &Module) -> NameId
        requires { IsThere «module».now self.now }
        ensures below { result.index < length «module».now.names }
        ensures text { text_of «module».now.names result ≡ (class_in «module».now self.now).name }
    {
        match module.stmt(self.statement) {
            StmtNode::Class { name, .. } => *name,
            // what is there is a class
            _ => unreachable!(),
        }
    }

    /// The parameters of its constructor, without the object that is made. Without a constructor there are none.
    pub fn constructor<'a>(&self, module: &'a Module) -> &'a [ParameterNode]
        requires { IsThere «module».now self.now }
        ensures parameters { parameters_tree «module».now result.now ≡ constructor_of (class_in «module».now self.now).body }
        ensures there { AreParametersThere «module».now result.now }
    {
        match module.stmt(self.statement) {
            StmtNode::Class { body, .. } => constructor_of(module, body),
            _ => &[],
        }
    }
}
