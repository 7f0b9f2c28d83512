ghost use Rattle.std.specs.Prelude.{◌≡◌, ◌<◌, [], length, slice_get, slice_index_or, Some};
ghost use Rattle.std.specs.Option.{option_map};
ghost use Rattle.spec_programs.specs.Definitions.{class_named, constant_named, function_named};
ghost use Rattle.py_tree.specs.Arena.{module_tree, shown, shown_stmt, shown_type};
ghost use Rattle.py_tree.specs.Exprs.{ArePartsBelow, IsBoundBelow, node_tree};
ghost use Rattle.py_tree.specs.Names.{text_of};
ghost use Rattle.py_tree.specs.Stmts.{AreStmtPartsBelow, optional_expr, stmt_tree};
ghost use Rattle.py_tree.specs.Types.{AreTypePartsBelow, type_tree};
ghost use Rattle.py_program.specs.Programs.{IsProgram};

use crate::{ClassId, FnId, Program};
use py_tree::{ExprId, ExprNode, NameId, NamesId, StmtId, StmtNode, TypeId, TypeNode};

impl Program {
    /// The text of a name.
    pub fn name_text(&self, n: NameId) -> &str
        requires { n.index < length self.now.source.names }
        ensures text { slice_get self.now.source.names n.index ≡ Some result.now }
        ensures program { IsProgram self.now }
    {
        self.module().name_text(n)
    }

    /// The number of names in a list.
    pub fn names_len(&self, l: NamesId) -> usize
        requires { l.index < length self.now.source.lists }
        ensures count { result ≡ length (slice_index_or self.now.source.lists l.index []) }
        ensures program { IsProgram self.now }
    {
        self.module().names_len(l)
    }

    /// The name of this place, from 0, in a list.
    pub fn names_get(&self, l: NamesId, i: usize) -> NameId
        requires list { l.index < length self.now.source.lists }
        requires place { i < length (slice_index_or self.now.source.lists l.index []) }
        ensures name { slice_get (slice_index_or self.now.source.lists l.index []) i ≡ Some result }
        ensures below { result.index < length self.now.source.names }
        ensures program { IsProgram self.now }
    {
        self.module().names_get(l, i)
    }

    /// The node of an expression, whose parts are earlier ones.
    pub fn expr(&self, e: ExprId) -> &ExprNode
        requires { e.index < length self.now.source.exprs }
        ensures node { slice_get self.now.source.exprs e.index ≡ Some result.now }
        ensures parts { ArePartsBelow (length self.now.source.names) e.index result.now }
        ensures tree { shown self.now.source e.index ≡ node_tree self.now.source.names (shown self.now.source) result.now }
        ensures program { IsProgram self.now }
    {
        self.module().expr(e)
    }

    /// The node of a statement, whose parts are earlier ones.
    pub fn stmt(&self, s: StmtId) -> &StmtNode
        requires { s.index < length self.now.source.stmts }
        ensures node { slice_get self.now.source.stmts s.index ≡ Some result.now }
        ensures parts { AreStmtPartsBelow self.now.source s.index result.now }
        ensures tree { shown_stmt self.now.source s.index ≡ stmt_tree self.now.source (shown_stmt self.now.source) result.now }
        ensures program { IsProgram self.now }
    {
        self.module().stmt(s)
    }

    /// The node of a type, whose parts are earlier ones.
    pub fn type_node(&self, t: TypeId) -> &TypeNode
        requires { t.index < length self.now.source.types }
        ensures node { slice_get self.now.source.types t.index ≡ Some result.now }
        ensures parts { AreTypePartsBelow (length self.now.source.names) t.index result.now }
        ensures tree { shown_type self.now.source t.index ≡ type_tree self.now.source.names (shown_type self.now.source) result.now }
        ensures program { IsProgram self.now }
    {
        self.module().type_node(t)
    }

    /// The value of the constant of a name, if the module defines one. It takes constant time, as the next two do.
    pub fn constant(&self, n: NameId) -> Option<ExprId>
        requires { n.index < length self.now.source.names }
        ensures constant { optional_expr self.now.source result ≡ constant_named (module_tree self.now.source).body (text_of self.now.source.names n) }
        ensures there { IsBoundBelow (length self.now.source.exprs) result }
        ensures program { IsProgram self.now }
    {
        self.definitions().constants[n.index]
    }

    /// The function of the module itself that has a name. It may be still to come as an entry.
    pub fn function_named(&self, n: NameId) -> Option<FnId>
        requires { n.index < length self.now.source.names }
        ensures function { option_map (λ f. f.index) result ≡ function_named (module_tree self.now.source).body (text_of self.now.source.names n) }
        ensures program { IsProgram self.now }
    {
        match self.definitions().functions[n.index] {
            Some(index) => Some(FnId { index }),
            None => None,
        }
    }

    /// The class that has a name. It may be still to come as an entry.
    pub fn class_named(&self, n: NameId) -> Option<ClassId>
        requires { n.index < length self.now.source.names }
        ensures class { option_map (λ c. c.index) result ≡ class_named (module_tree self.now.source).body (text_of self.now.source.names n) }
        ensures program { IsProgram self.now }
    {
        match self.definitions().classes[n.index] {
            Some(index) => Some(ClassId { index }),
            None => None,
        }
    }
}
