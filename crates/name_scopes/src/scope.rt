ghost use Rattle.std.specs.Prelude.{◌≡◌, ◌<◌, ◌++◌, ◌&&◌, ◌||◌, [], length, get_or, slice_set, false, IfOk, OnOk, None, Some};
ghost use Rattle.spec_names.specs.Names.{names_of};
ghost use Rattle.spec_names.specs.Defined.{are_repeated};
ghost use Rattle.spec_uses.specs.Expressions.{keywords};
ghost use Rattle.spec_uses.specs.Meanings.{module_scope, with_locals};
ghost use Rattle.spec_uses.specs.Statements.{assigned};
ghost use Rattle.py_tree.specs.Arena.{module_tree, shown, shown_stmt};
ghost use Rattle.py_tree.specs.Exprs.{AreArgumentsBelow, argument_list_tree};
ghost use Rattle.py_tree.specs.Names.{text_of};
ghost use Rattle.py_tree.specs.Stmts.{AreParametersThere, AreStmtsBelow, block_tree, parameters_tree};
ghost use Rattle.name_scopes.specs.Showing.{HasParameters, IsScopeOf, IsSized, Shows, is_seen_in, meaning_held, old_held, with_variable};

use crate::keywords::{add_keywords, leave_keywords};
use crate::lines::{around, has_before, is_post, is_seen_in};
use crate::parameters::add_parameters;
use local_names::add_assigned;
use name_meanings::Meanings;
use name_sets::NameSet;
use py_tree::{Argument, Module, NameId, ParameterNode, StmtId};
use spec_contracts::LineKind;
use spec_uses::Meaning;
use std::alloc::Global;
use std::marker::Model;
use xh_outside::NoMemory;

/// What the names of a module stand for at some place of it.
#[derive(Drop)]
pub struct Scope {
    // what they stand for where none is local
    meanings: Meanings,
    // the parameters of a function, and in its body what it assigns
    own: NameSet,
    // the variables of the comprehensions around
    inner: NameSet,
    // the keywords of one call, while they are compared
    seen: NameSet,
    // the kind of the contract line, or None in a body
    kind: Option<LineKind>,
    // whether the function makes the objects of a class
    is_constructor: bool,
}

impl Model for Scope {
    ghost use Rattle.name_scopes.specs.Showing.{Held};

    ghost Value = { Held };

    ghost view = { λ s. record { meanings = s.meanings; own = s.own; inner = s.inner; seen = s.seen; kind = s.kind; is_constructor = s.is_constructor } };
}

impl Scope {
    /// The scope of a module with no name local. It takes time linear in the number of names and definitions. The only error
    /// is that there is no memory for it.
    pub fn new(alloc: Global, module: &Module) -> Result<Scope, NoMemory>
        ensures scope { IfOk result (IsScopeOf «module».now) }
        ensures shows { IfOk result (λ h. Shows «module».now.names h (module_scope (module_tree «module».now).body)) }
    {
        let names = module.names_count();
        Ok(Scope {
            meanings: Meanings::new(alloc, module)?,
            own: NameSet::new(alloc, names)?,
            inner: NameSet::new(alloc, names)?,
            seen: NameSet::new(alloc, names)?,
            kind: None,
            is_constructor: false,
        })
    }

    /// Makes the scope that of the body of a function. It takes time linear in the number of parameters and statements. The
    /// only error is that there is no memory for it.
    pub fn enter_body(
        &mut self,
        module: &Module,
        parameters: &[ParameterNode],
        body: &[StmtId],
    ) -> Result<(), NoMemory>
        requires parameters { AreParametersThere «module».now parameters.now }
        requires body { AreStmtsBelow (length «module».now.stmts) body.now }
        requires scope { IsScopeOf «module».now self.old }
        ensures scope { OnOk result (IsScopeOf «module».now self.new) }
        ensures shows { OnOk result (Shows «module».now.names self.new (with_locals (names_of (parameters_tree «module».now parameters.now) ++ assigned (block_tree (shown_stmt «module».now) body.now)) (module_scope (module_tree «module».now).body))) }
    {
        self.own.clear()?;
        self.kind = None;
        self.is_constructor = false;
        add_parameters(module, parameters, &mut self.own);
        add_assigned(module, body, &mut self.own);
        Ok(())
    }

    /// Makes the names of a function those of the scope, for its contract lines. What owns the contract lines of a class has
    /// no parameters. It takes time linear in the number of parameters. The only error is that there is no memory for it.
    pub fn enter_function(
        &mut self,
        module: &Module,
        is_constructor: bool,
        parameters: &[ParameterNode],
    ) -> Result<(), NoMemory>
        requires parameters { AreParametersThere «module».now parameters.now }
        requires scope { IsScopeOf «module».now self.old }
        ensures scope { OnOk result (IsScopeOf «module».now self.new) }
        ensures has { OnOk result (HasParameters «module».now.names self.new is_constructor (names_of (parameters_tree «module».now parameters.now))) }
    {
        self.own.clear()?;
        self.is_constructor = is_constructor;
        add_parameters(module, parameters, &mut self.own);
        Ok(())
    }

    /// Makes the scope that of a contract line of the function that was entered last. It takes constant time.
    pub fn enter_line(&mut self, kind: LineKind)
        ensures { self.new ≡ record self.old { kind = Some kind } }
    {
        self.kind = Some(kind);
    }

    // Whether a name is local, if it has this text.
    fn is_local(&self, name: NameId, text: &str) -> bool
        requires own { name.index < length self.now.own }
        requires inner { name.index < length self.now.inner }
        ensures { result ≡ get_or self.now.inner name.index false || (get_or self.now.own name.index false && is_seen_in self.now.kind self.now.is_constructor text.now) }
    {
        let is_variable = self.inner.contains(name);
        let is_own = self.own.contains(name);
        is_variable || (is_own && is_seen_in(self.kind, self.is_constructor, text))
    }

    /// What a name of the module stands for.
    pub fn meaning(&self, module: &Module, name: NameId) -> Meaning
        requires name { name.index < length «module».now.names }
        requires sized { IsSized «module».now.names self.now }
        ensures { result ≡ meaning_held «module».now.names self.now name }
    {
        let text = module.name_text(name);
        if self.is_local(name, text) {
            Meaning::Local
        } else {
            around(self.kind, self.meanings.get(name), text)
        }
    }

    /// Whether `__old__` has a name.
    pub fn is_old(&self, module: &Module, name: NameId) -> bool
        requires name { name.index < length «module».now.names }
        requires sized { IsSized «module».now.names self.now }
        ensures { result ≡ old_held «module».now.names self.now name }
    {
        let is_own = self.own.contains(name);
        let is_before = has_before(self.is_constructor, module.name_text(name));
        is_post(self.kind) && is_own && is_before
    }

    /// Whether a name is the variable of a comprehension around.
    pub fn is_variable(&self, name: NameId) -> bool
        requires { name.index < length self.now.inner }
        ensures { result ≡ get_or self.now.inner name.index false }
    {
        self.inner.contains(name)
    }

    /// Makes a name the variable of a comprehension around, or no longer.
    pub fn set_variable(&mut self, name: NameId, is_variable: bool)
        requires { name.index < length self.old.inner }
        ensures { self.new ≡ with_variable self.old name is_variable }
    {
        self.inner.set(name, is_variable);
    }

    /// Whether two of these arguments have one keyword. It takes time linear in the number of arguments.
    pub fn are_repeated(&mut self, module: &Module, arguments: &[Argument]) -> bool
        requires arguments { AreArgumentsBelow (length «module».now.names) (length «module».now.exprs) arguments.now }
        requires sized { IsSized «module».now.names self.old }
        ensures same { self.new ≡ self.old }
        ensures repeated { result ≡ are_repeated [] (keywords (argument_list_tree «module».now.names (shown «module».now) arguments.now)) }
    {
        let is_repeated = add_keywords(module, arguments, &mut self.seen);
        leave_keywords(module, arguments, &mut self.seen);
        is_repeated
    }
}
