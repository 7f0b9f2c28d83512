ghost use Rattle.std.specs.Prelude.{◌≡◌, ◌<◌, [], ◌∷◌, ◌++◌, length, slice_get, Some, IfOk, OnErr};
ghost use Rattle.first_tree.specs.Arena.{ArePartsBelow, IsFunctionBelow, node_tree, shown};

use crate::{ExprId, ExprNode, FnNode};
use std::alloc::Global;
use std::marker::Model;
use xh_outside::NoMemory;

/// The functions of a file, and the nodes of their expressions.
#[derive(Drop)]
pub struct Module {
    nodes: Vec<ExprNode>,
    functions: Vec<FnNode>,
}

impl Model for Module {
    ghost use Rattle.std.specs.Prelude.{length};
    ghost use Rattle.first_tree.specs.Arena.{ModuleState, IsArena, AreFunctionsBelow};

    ghost Value = { ModuleState };

    ghost view = { λ m. record { nodes = m.nodes.items; functions = m.functions.items } };

    ghost invariant = { λ m. IsArena m.nodes.items × AreFunctionsBelow (length m.nodes.items) m.functions.items };
}

impl Module {
    /// A module with no expression and no function.
    pub fn new(alloc: Global) -> Module
        ensures nodes { result.nodes ≡ [] }
        ensures functions { result.functions ≡ [] }
    {
        Module {
            nodes: Vec::new(alloc),
            functions: Vec::new(alloc),
        }
    }

    /// The number of nodes.
    pub fn len(&self) -> usize
        ensures { result ≡ length self.now.nodes }
    {
        self.nodes.len()
    }

    /// Adds a node whose parts are there already. A refusal leaves the module as it was.
    pub fn add_expr(&mut self, node: ExprNode) -> Result<ExprId, NoMemory>
        requires { ArePartsBelow (length self.old.nodes) node }
        ensures added { IfOk result (λ e. (e.index ≡ length self.old.nodes) × (self.new ≡ record self.old { nodes = self.old.nodes ++ node ∷ [] })) }
        ensures refused { OnErr result (self.new ≡ self.old) }
    {
        let index = self.nodes.len();
        self.nodes.push(node)?;
        Ok(ExprId { index })
    }

    /// The node of an expression, whose parts are earlier ones.
    pub fn expr(&self, e: ExprId) -> &ExprNode
        requires { e.index < length self.now.nodes }
        ensures node { slice_get self.now.nodes e.index ≡ Some result.now }
        ensures parts { ArePartsBelow e.index result.now }
        ensures tree { shown self.now.nodes e.index ≡ node_tree (shown self.now.nodes) result.now }
    {
        &self.nodes[e.index]
    }

    /// Adds a function whose expressions are there already. A refusal leaves the module as it was.
    pub fn add_function(&mut self, function: FnNode) -> Result<(), NoMemory>
        requires { IsFunctionBelow (length self.old.nodes) function }
        ensures added { IfOk result (λ _. self.new ≡ record self.old { functions = self.old.functions ++ function ∷ [] }) }
        ensures refused { OnErr result (self.new ≡ self.old) }
    {
        self.functions.push(function)?;
        Ok(())
    }

    /// The number of functions.
    pub fn functions(&self) -> usize
        ensures { result ≡ length self.now.functions }
    {
        self.functions.len()
    }

    /// The function of this place, from 0, in the order in which they were added.
    pub fn function(&self, i: usize) -> &FnNode
        requires { i < length self.now.functions }
        ensures function { slice_get self.now.functions i ≡ Some result.now }
        ensures below { IsFunctionBelow (length self.now.nodes) result.now }
    {
        &self.functions[i]
    }
}
