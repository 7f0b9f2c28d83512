ghost use Rattle.std.specs.Prelude.{◌≡◌, ◌<◌, length, slice_get, Some};
ghost use Rattle.py_tree.specs.Names.{text_of};
ghost use Rattle.py_program.specs.Programs.{IsProgram, OfClass};

use crate::{ClassId, FnId, Program};
use py_tree::ExprId;

impl Program {
    /// The name of a class.
    pub fn class_name(&self, c: ClassId) -> &str
        requires { c.index < length self.now.classes }
        ensures name { OfClass self.now c (λ e. result.now ≡ text_of self.now.source.names e.name) }
        ensures program { IsProgram self.now }
    {
        self.module().name_text(self.class(c).name)
    }

    /// The first line of a class, from 1.
    pub fn class_first(&self, c: ClassId) -> u32
        requires { c.index < length self.now.classes }
        ensures line { OfClass self.now c (λ e. result ≡ e.first) }
        ensures program { IsProgram self.now }
    {
        self.class(c).first
    }

    /// The line, from 1, on which a class ends.
    pub fn class_last(&self, c: ClassId) -> u32
        requires { c.index < length self.now.classes }
        ensures line { OfClass self.now c (λ e. result ≡ e.last) }
        ensures program { IsProgram self.now }
    {
        self.class(c).last
    }

    /// The function that makes the objects of a class, where there is one.
    pub fn constructor(&self, c: ClassId) -> Option<FnId>
        requires { c.index < length self.now.classes }
        ensures constructor { OfClass self.now c (λ e. result ≡ e.constructor) }
        ensures program { IsProgram self.now }
    {
        self.class(c).constructor
    }

    /// The number of invariants of a class.
    pub fn invariants(&self, c: ClassId) -> usize
        requires { c.index < length self.now.classes }
        ensures count { OfClass self.now c (λ e. result ≡ length e.invariants.items) }
        ensures program { IsProgram self.now }
    {
        self.class(c).invariants.len()
    }

    /// The invariant of this place, from 0, of a class.
    pub fn invariant(&self, c: ClassId, i: usize) -> ExprId
        requires class { c.index < length self.now.classes }
        requires place { OfClass self.now c (λ e. i < length e.invariants.items) }
        ensures invariant { OfClass self.now c (λ e. slice_get e.invariants.items i ≡ Some result) }
        ensures there { result.index < length self.now.source.exprs }
        ensures program { IsProgram self.now }
    {
        self.class(c).invariants[i]
    }
}
