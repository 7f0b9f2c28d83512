ghost use Rattle.std.specs.Prelude.{◌≡◌, ◌<◌, [], ◌∷◌, ◌++◌, length, slice_get, slice_index_or, Some, IfOk, OnErr};
ghost use Rattle.py_tree.specs.Arena.{ArePartsThere, AreTypePartsThere, Extends, IsModule, shown, shown_stmt, shown_type};
ghost use Rattle.py_tree.specs.Exprs.{ArePartsBelow, node_tree};
ghost use Rattle.py_tree.specs.Names.{AreNamesBelow, name_place, with_name};
ghost use Rattle.py_tree.specs.Stmts.{AreStmtPartsBelow, AreStmtPartsThere, stmt_tree};
ghost use Rattle.py_tree.specs.Types.{AreTypePartsBelow, type_tree};

use crate::{ExprId, ExprNode, NameId, NamesId, StmtId, StmtNode, TypeId, TypeNode};
use indexmap::IndexSet;
use std::alloc::Global;
use std::marker::Model;
use xh_outside::NoMemory;

/// The names of a Python module, and the nodes of its trees.
#[derive(Drop)]
pub struct Module {
    alloc: Global,
    names: IndexSet<String>,
    lists: Vec<Vec<NameId>>,
    exprs: Vec<ExprNode>,
    types: Vec<TypeNode>,
    stmts: Vec<StmtNode>,
    tops: Vec<StmtId>,
}

impl Model for Module {
    ghost use Rattle.py_tree.specs.State.{State};

    ghost Value = { State };

    ghost use Rattle.py_tree.specs.Inside.{state_of, IsValid};

    ghost view = { state_of };

    ghost invariant = { IsValid };
}

impl Module {
    /// A module with no name and no node.
    pub fn new(alloc: Global) -> Module
        ensures names { result.names ≡ [] }
        ensures lists { result.lists ≡ [] }
        ensures exprs { result.exprs ≡ [] }
        ensures types { result.types ≡ [] }
        ensures stmts { result.stmts ≡ [] }
        ensures tops { result.tops ≡ [] }
        ensures module { IsModule result }
    {
        Module {
            alloc,
            names: IndexSet::new(alloc),
            lists: Vec::new(alloc),
            exprs: Vec::new(alloc),
            types: Vec::new(alloc),
            stmts: Vec::new(alloc),
            tops: Vec::new(alloc),
        }
    }

    /// The id of a name, which is added where it is not there yet. A refusal leaves the module as it was.
    pub fn add_name(&mut self, text: &str) -> Result<NameId, NoMemory>
        ensures place { IfOk result (λ n. n.index ≡ name_place self.old.names text.now) }
        ensures added { IfOk result (λ n. self.new ≡ record self.old { names = with_name self.old.names text.now }) }
        ensures text { IfOk result (λ n. slice_get self.new.names n.index ≡ Some text.now) }
        ensures below { IfOk result (λ n. n.index < length self.new.names) }
        ensures refused { OnErr result (self.new ≡ self.old) }
        ensures grown { Extends self.old self.new }
        ensures module { IsModule self.new }
    {
        match self.names.get_index_of(text) {
            Some(index) => Ok(NameId { index }),
            None => {
                let name = String::from_str(self.alloc, text)?;
                let index = self.names.len();
                self.names.insert(name)?;
                Ok(NameId { index })
            }
        }
    }

    /// The number of names.
    pub fn names_count(&self) -> usize
        ensures count { result ≡ length self.now.names }
        ensures module { IsModule self.now }
    {
        self.names.len()
    }

    /// The text of a name.
    pub fn name_text(&self, n: NameId) -> &str
        requires { n.index < length self.now.names }
        ensures text { slice_get self.now.names n.index ≡ Some result.now }
        ensures module { IsModule self.now }
    {
        self.names.as_slice()[n.index].as_str()
    }

    /// Adds a node whose parts are there already. A refusal leaves the module as it was.
    pub fn add_expr(&mut self, node: ExprNode) -> Result<ExprId, NoMemory>
        requires { ArePartsThere self.old node }
        ensures added { IfOk result (λ e. (e.index ≡ length self.old.exprs) × (self.new ≡ record self.old { exprs = self.old.exprs ++ node ∷ [] })) }
        ensures tree { IfOk result (λ e. shown self.new e.index ≡ node_tree self.old.names (shown self.old) node) }
        ensures refused { OnErr result (self.new ≡ self.old) }
        ensures grown { Extends self.old self.new }
        ensures module { IsModule self.new }
    {
        let index = self.exprs.len();
        self.exprs.push(node)?;
        Ok(ExprId { index })
    }

    /// The number of nodes of expressions.
    pub fn exprs_count(&self) -> usize
        ensures count { result ≡ length self.now.exprs }
        ensures module { IsModule self.now }
    {
        self.exprs.len()
    }

    /// The node of an expression, whose parts are earlier ones.
    pub fn expr(&self, e: ExprId) -> &ExprNode
        requires { e.index < length self.now.exprs }
        ensures node { slice_get self.now.exprs e.index ≡ Some result.now }
        ensures parts { ArePartsBelow (length self.now.names) e.index result.now }
        ensures tree { shown self.now e.index ≡ node_tree self.now.names (shown self.now) result.now }
        ensures module { IsModule self.now }
    {
        &self.exprs[e.index]
    }

    /// Adds a list of names that are there already. A refusal leaves the module as it was.
    pub fn add_names(&mut self, names: &[NameId]) -> Result<NamesId, NoMemory>
        requires { AreNamesBelow (length self.old.names) names.now }
        ensures added { IfOk result (λ l. (l.index ≡ length self.old.lists) × (self.new ≡ record self.old { lists = self.old.lists ++ names.now ∷ [] })) }
        ensures refused { OnErr result (self.new ≡ self.old) }
        ensures grown { Extends self.old self.new }
        ensures module { IsModule self.new }
    {
        let list = Vec::from_slice(self.alloc, names)?;
        let index = self.lists.len();
        self.lists.push(list)?;
        Ok(NamesId { index })
    }

    /// The number of lists of names.
    pub fn lists_count(&self) -> usize
        ensures count { result ≡ length self.now.lists }
        ensures module { IsModule self.now }
    {
        self.lists.len()
    }

    /// The number of names in a list.
    pub fn names_len(&self, l: NamesId) -> usize
        requires { l.index < length self.now.lists }
        ensures { result ≡ length (slice_index_or self.now.lists l.index []) }
    {
        self.lists[l.index].len()
    }

    /// The name of this place, from 0, in a list.
    pub fn names_get(&self, l: NamesId, i: usize) -> NameId
        requires list { l.index < length self.now.lists }
        requires place { i < length (slice_index_or self.now.lists l.index []) }
        ensures name { slice_get (slice_index_or self.now.lists l.index []) i ≡ Some result }
        ensures below { result.index < length self.now.names }
    {
        self.lists[l.index][i]
    }

    /// Adds a type whose parts are there already. A refusal leaves the module as it was.
    pub fn add_type(&mut self, node: TypeNode) -> Result<TypeId, NoMemory>
        requires { AreTypePartsThere self.old node }
        ensures added { IfOk result (λ t. (t.index ≡ length self.old.types) × (self.new ≡ record self.old { types = self.old.types ++ node ∷ [] })) }
        ensures tree { IfOk result (λ t. shown_type self.new t.index ≡ type_tree self.old.names (shown_type self.old) node) }
        ensures refused { OnErr result (self.new ≡ self.old) }
        ensures grown { Extends self.old self.new }
        ensures module { IsModule self.new }
    {
        let index = self.types.len();
        self.types.push(node)?;
        Ok(TypeId { index })
    }

    /// The number of nodes of types.
    pub fn types_count(&self) -> usize
        ensures count { result ≡ length self.now.types }
        ensures module { IsModule self.now }
    {
        self.types.len()
    }

    /// The node of a type, whose parts are earlier ones.
    pub fn type_node(&self, t: TypeId) -> &TypeNode
        requires { t.index < length self.now.types }
        ensures node { slice_get self.now.types t.index ≡ Some result.now }
        ensures parts { AreTypePartsBelow (length self.now.names) t.index result.now }
        ensures tree { shown_type self.now t.index ≡ type_tree self.now.names (shown_type self.now) result.now }
        ensures module { IsModule self.now }
    {
        &self.types[t.index]
    }

    /// Adds a statement whose parts are there already. A refusal leaves the module as it was.
    pub fn add_stmt(&mut self, node: StmtNode) -> Result<StmtId, NoMemory>
        requires { AreStmtPartsThere self.old node }
        ensures added { IfOk result (λ s. (s.index ≡ length self.old.stmts) × (self.new ≡ record self.old { stmts = self.old.stmts ++ node ∷ [] })) }
        ensures tree { IfOk result (λ s. shown_stmt self.new s.index ≡ stmt_tree self.old (shown_stmt self.old) node) }
        ensures refused { OnErr result (self.new ≡ self.old) }
        ensures grown { Extends self.old self.new }
        ensures module { IsModule self.new }
    {
        let index = self.stmts.len();
        self.stmts.push(node)?;
        Ok(StmtId { index })
    }

    /// The number of nodes of statements.
    pub fn stmts_count(&self) -> usize
        ensures count { result ≡ length self.now.stmts }
        ensures module { IsModule self.now }
    {
        self.stmts.len()
    }

    /// The node of a statement, whose parts are earlier ones.
    pub fn stmt(&self, s: StmtId) -> &StmtNode
        requires { s.index < length self.now.stmts }
        ensures node { slice_get self.now.stmts s.index ≡ Some result.now }
        ensures parts { AreStmtPartsBelow self.now s.index result.now }
        ensures tree { shown_stmt self.now s.index ≡ stmt_tree self.now (shown_stmt self.now) result.now }
        ensures module { IsModule self.now }
    {
        &self.stmts[s.index]
    }

    /// Appends a statement, which is there already, to those of the module itself. A refusal leaves the module as it was.
    pub fn push_top(&mut self, s: StmtId) -> Result<(), NoMemory>
        requires { s.index < length self.old.stmts }
        ensures added { IfOk result (λ _. self.new ≡ record self.old { tops = self.old.tops ++ s ∷ [] }) }
        ensures refused { OnErr result (self.new ≡ self.old) }
        ensures grown { Extends self.old self.new }
        ensures module { IsModule self.new }
    {
        self.tops.push(s)?;
        Ok(())
    }

    /// The number of statements of the module itself.
    pub fn top(&self) -> usize
        ensures count { result ≡ length self.now.tops }
        ensures module { IsModule self.now }
    {
        self.tops.len()
    }

    /// The statement of this place, from 0, among those of the module itself.
    pub fn top_stmt(&self, i: usize) -> StmtId
        requires { i < length self.now.tops }
        ensures statement { slice_get self.now.tops i ≡ Some result }
        ensures below { result.index < length self.now.stmts }
        ensures module { IsModule self.now }
    {
        self.tops[i]
    }
}
