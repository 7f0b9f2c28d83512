ghost use Rattle.std.specs.Prelude.{◌≡◌, ◌<◌, [], ◌∷◌, ◌++◌, length, slice_get, Some, IfOk, OnErr};
ghost use Rattle.py_program.specs.Entries.{IsClassThere, IsFunctionThere};
ghost use Rattle.py_program.specs.Named.{IsTable};
ghost use Rattle.py_program.specs.Programs.{IsProgram};

use crate::definitions::{Definitions, definitions_of};
use crate::{ClassEntry, ClassId, FnEntry, FnId};
use py_tree::Module;
use std::alloc::Global;
use std::marker::Model;
use xh_outside::NoMemory;

/// A module with its functions and classes.
#[derive(Drop)]
pub struct Program {
    module: Module,
    definitions: Definitions,
    functions: Vec<FnEntry>,
    classes: Vec<ClassEntry>,
}

impl Model for Program {
    ghost use Rattle.py_program.specs.Programs.{ProgramState};

    ghost Value = { ProgramState };

    ghost use Rattle.py_program.specs.Inside.{state_of, IsValid};

    ghost view = { state_of };

    ghost invariant = { IsValid };
}

impl Program {
    /// A module as a program that has no function and no class yet. It takes time linear in the number of names, and of
    /// statements of the module and its classes.
    ///
    /// # Errors
    ///
    /// There is no memory for it.
    pub fn new(alloc: Global, module: Module) -> Result<Program, NoMemory>
        ensures state { IfOk result (λ p. p ≡ record { source = «module»; functions = []; classes = [] }) }
        ensures program { IfOk result (λ p. IsProgram p) }
    {
        let definitions = definitions_of(alloc, &module)?;
        Ok(Program {
            module,
            definitions,
            functions: Vec::new(alloc),
            classes: Vec::new(alloc),
        })
    }

    /// Appends a function, whose names, nodes and lists are there, and tells its number. A refusal leaves the program as it
    /// was.
    ///
    /// # Errors
    ///
    /// There is no memory for it.
    pub fn add_function(&mut self, entry: FnEntry) -> Result<FnId, NoMemory>
        requires { IsFunctionThere self.old.source entry }
        ensures added { IfOk result (λ f. (f.index ≡ length self.old.functions) × (self.new ≡ record self.old { functions = self.old.functions ++ entry ∷ [] })) }
        ensures refused { OnErr result (self.new ≡ self.old) }
        ensures program { IsProgram self.new }
    {
        let index = self.functions.len();
        self.functions.push(entry)?;
        Ok(FnId { index })
    }

    /// Appends a class, whose name and invariants are there, and tells its number. A refusal leaves the program as it was.
    ///
    /// # Errors
    ///
    /// There is no memory for it.
    pub fn add_class(&mut self, entry: ClassEntry) -> Result<ClassId, NoMemory>
        requires { IsClassThere self.old.source entry }
        ensures added { IfOk result (λ c. (c.index ≡ length self.old.classes) × (self.new ≡ record self.old { classes = self.old.classes ++ entry ∷ [] })) }
        ensures refused { OnErr result (self.new ≡ self.old) }
        ensures program { IsProgram self.new }
    {
        let index = self.classes.len();
        self.classes.push(entry)?;
        Ok(ClassId { index })
    }

    /// The module.
    pub fn module(&self) -> &Module
        ensures source { result.now ≡ self.now.source }
        ensures program { IsProgram self.now }
    {
        &self.module
    }

    /// The number of functions.
    pub fn functions(&self) -> usize
        ensures count { result ≡ length self.now.functions }
        ensures program { IsProgram self.now }
    {
        self.functions.len()
    }

    /// The number of classes.
    pub fn classes(&self) -> usize
        ensures count { result ≡ length self.now.classes }
        ensures program { IsProgram self.now }
    {
        self.classes.len()
    }

    /// The entry of a function.
    pub(crate) fn function(&self, f: FnId) -> &FnEntry
        requires { f.index < length self.now.functions }
        ensures entry { slice_get self.now.functions f.index ≡ Some result.now }
        ensures there { IsFunctionThere self.now.source result.now }
        ensures program { IsProgram self.now }
    {
        &self.functions[f.index]
    }

    /// The entry of a class.
    pub(crate) fn class(&self, c: ClassId) -> &ClassEntry
        requires { c.index < length self.now.classes }
        ensures entry { slice_get self.now.classes c.index ≡ Some result.now }
        ensures there { IsClassThere self.now.source result.now }
        ensures program { IsProgram self.now }
    {
        &self.classes[c.index]
    }

    /// What the names of the module define.
    pub(crate) fn definitions(&self) -> &Definitions
        ensures table { IsTable self.now.source result.now }
        ensures program { IsProgram self.now }
    {
        &self.definitions
    }
}
