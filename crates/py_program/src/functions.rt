ghost use Rattle.std.specs.Prelude.{◌≡◌, ◌<◌, length, slice_get, Some};
ghost use Rattle.spec_first_trees.specs.Classes.{is_permitted};
ghost use Rattle.py_tree.specs.Names.{text_of};
ghost use Rattle.py_program.specs.Entries.{IsConditionThere, IsParameterThere};
ghost use Rattle.py_program.specs.Programs.{IsProgram, OfFunction};

use crate::permits::is_permitted;
use crate::{ClassId, Condition, ExcClass, FnId, Program};
use py_tree::{ExprId, ParameterNode, StmtId};

impl Program {
    /// The name of a function.
    pub fn fn_name(&self, f: FnId) -> &str
        requires { f.index < length self.now.functions }
        ensures name { OfFunction self.now f (λ e. result.now ≡ text_of self.now.source.names e.name) }
        ensures program { IsProgram self.now }
    {
        self.module().name_text(self.function(f).name)
    }

    /// The class of a function, which a function of the module itself does not have.
    pub fn class_of(&self, f: FnId) -> Option<ClassId>
        requires { f.index < length self.now.functions }
        ensures class { OfFunction self.now f (λ e. result ≡ e.class) }
        ensures program { IsProgram self.now }
    {
        self.function(f).class
    }

    /// The line of the `def` of a function, from 1.
    pub fn def_line(&self, f: FnId) -> u32
        requires { f.index < length self.now.functions }
        ensures line { OfFunction self.now f (λ e. result ≡ e.def_line) }
        ensures program { IsProgram self.now }
    {
        self.function(f).def_line
    }

    /// The line, from 1, on which a function ends.
    pub fn last_line(&self, f: FnId) -> u32
        requires { f.index < length self.now.functions }
        ensures line { OfFunction self.now f (λ e. result ≡ e.last_line) }
        ensures program { IsProgram self.now }
    {
        self.function(f).last_line
    }

    /// Whether a function is checked.
    pub fn is_checked(&self, f: FnId) -> bool
        requires { f.index < length self.now.functions }
        ensures checked { OfFunction self.now f (λ e. result ≡ e.checked) }
        ensures program { IsProgram self.now }
    {
        self.function(f).checked
    }

    /// The number of parameters of a function.
    pub fn parameters(&self, f: FnId) -> usize
        requires { f.index < length self.now.functions }
        ensures count { OfFunction self.now f (λ e. result ≡ length e.parameters.items) }
        ensures program { IsProgram self.now }
    {
        self.function(f).parameters.len()
    }

    /// The parameter of this place, from 0, of a function.
    pub fn parameter(&self, f: FnId, i: usize) -> ParameterNode
        requires function { f.index < length self.now.functions }
        requires place { OfFunction self.now f (λ e. i < length e.parameters.items) }
        ensures parameter { OfFunction self.now f (λ e. slice_get e.parameters.items i ≡ Some result) }
        ensures there { IsParameterThere self.now.source result }
        ensures program { IsProgram self.now }
    {
        self.function(f).parameters[i]
    }

    /// The number of preconditions of a function.
    pub fn preconditions(&self, f: FnId) -> usize
        requires { f.index < length self.now.functions }
        ensures count { OfFunction self.now f (λ e. result ≡ length e.preconditions.items) }
        ensures program { IsProgram self.now }
    {
        self.function(f).preconditions.len()
    }

    /// The precondition of this place, from 0, of a function.
    pub fn precondition(&self, f: FnId, i: usize) -> ExprId
        requires function { f.index < length self.now.functions }
        requires place { OfFunction self.now f (λ e. i < length e.preconditions.items) }
        ensures precondition { OfFunction self.now f (λ e. slice_get e.preconditions.items i ≡ Some result) }
        ensures there { result.index < length self.now.source.exprs }
        ensures program { IsProgram self.now }
    {
        self.function(f).preconditions[i]
    }

    /// Whether a function may raise an exception class: one that is named for it, or one below such a class. It takes time
    /// linear in the number of those that are named.
    pub fn permits(&self, f: FnId, class: ExcClass) -> bool
        requires { f.index < length self.now.functions }
        ensures permitted { OfFunction self.now f (λ e. result ≡ is_permitted e.raises.items class) }
        ensures program { IsProgram self.now }
    {
        is_permitted(&self.function(f).raises, class)
    }

    /// The number of conditions of a function.
    pub fn conditions(&self, f: FnId) -> usize
        requires { f.index < length self.now.functions }
        ensures count { OfFunction self.now f (λ e. result ≡ length e.conditions.items) }
        ensures program { IsProgram self.now }
    {
        self.function(f).conditions.len()
    }

    /// The condition of this place, from 0, of a function.
    pub fn condition(&self, f: FnId, k: usize) -> Condition
        requires function { f.index < length self.now.functions }
        requires place { OfFunction self.now f (λ e. k < length e.conditions.items) }
        ensures condition { OfFunction self.now f (λ e. slice_get e.conditions.items k ≡ Some result) }
        ensures there { IsConditionThere self.now.source result }
        ensures program { IsProgram self.now }
    {
        self.function(f).conditions[k]
    }

    /// The number of statements of the body of a function.
    pub fn body_len(&self, f: FnId) -> usize
        requires { f.index < length self.now.functions }
        ensures count { OfFunction self.now f (λ e. result ≡ length e.body.items) }
        ensures program { IsProgram self.now }
    {
        self.function(f).body.len()
    }

    /// The statement of this place, from 0, of the body of a function.
    pub fn body_stmt(&self, f: FnId, i: usize) -> StmtId
        requires function { f.index < length self.now.functions }
        requires place { OfFunction self.now f (λ e. i < length e.body.items) }
        ensures statement { OfFunction self.now f (λ e. slice_get e.body.items i ≡ Some result) }
        ensures there { result.index < length self.now.source.stmts }
        ensures program { IsProgram self.now }
    {
        self.function(f).body[i]
    }
}
