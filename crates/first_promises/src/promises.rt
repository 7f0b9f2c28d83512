ghost use Rattle.std.specs.Prelude.{◌≡◌, ◌<◌, [], length, map, IfOk};
ghost use Rattle.spec_forms.specs.Forms.{promise_of, promises_of};
ghost use Rattle.py_tree.specs.Exprs.{IsBoundBelow};
ghost use Rattle.py_tree.specs.Stmts.{AreParametersThere};
ghost use Rattle.contract_lines.specs.Given.{AreLinesThere, IsLineThere, line_in};
ghost use Rattle.first_tree.specs.Arena.{Extends};
ghost use Rattle.first_promises.specs.Gives.{Gives};
ghost use Rattle.first_promises.specs.Lines.{Adds, AreNamesThere, GivesPromise, condition_in};
ghost use Rattle.first_promises.specs.Scopes.{parameter_names};
ghost use Rattle.first_promises.specs.Promised.{GivesPromises};

use crate::classes::add_classes;
use crate::errors::{FormError, Unformed, error_of};
use crate::expressions::{Scope, copy_expression};
use contract_lines::{ContractLine, LineKind};
use first_tree as first;
use first_tree::{ExcClass, Post};
use py_tree::{ExprId, Module, NamesId, ParameterNode};
use std::alloc::Global;
use xh_outside::NoMemory;

/// What the contract lines of a function promise, each kind in the order of lines.
#[derive(Drop)]
pub struct Promises {
    pub preconditions: Vec<first::ExprId>,
    /// The exception classes that may be raised, with those below them.
    pub permitted: Vec<ExcClass>,
    pub posts: Vec<Post>,
}

/// What one contract line promises.
#[derive(Clone, Copy)]
pub(crate) enum Promise {
    Precondition(first::ExprId),
    Postcondition(Post),
    /// The names of the exception classes that may be raised.
    Permission(Option<NamesId>),
}

// Copies the expression of a contract line.
fn condition(
    alloc: Global,
    module: &Module,
    e: Option<ExprId>,
    scope: Scope,
    into: &mut first::Module,
) -> Result<first::ExprId, Unformed>
    requires expression { IsBoundBelow (length «module».now.exprs) e }
    requires parameters { AreParametersThere «module».now scope.parameters.now }
    ensures grown { Extends into.old.nodes into.new.nodes }
    ensures functions { into.new.functions ≡ into.old.functions }
    ensures copied { Gives into.new.nodes result (condition_in «module».now scope.entry e) }
{
    match e {
        Some(e) => copy_expression(alloc, module, e, scope, into),
        None => Err(Unformed::OtherForm),
    }
}

// What a contract line promises of a function with these parameters.
fn promise_of(
    alloc: Global,
    module: &Module,
    parameters: &[ParameterNode],
    line: ContractLine,
    into: &mut first::Module,
) -> Result<Promise, Unformed>
    requires parameters { AreParametersThere «module».now parameters.now }
    requires line { IsLineThere «module».now line }
    ensures grown { Extends into.old.nodes into.new.nodes }
    ensures functions { into.new.functions ≡ into.old.functions }
    ensures promise { GivesPromise «module».now into.new.nodes result (promise_of (parameter_names «module».now parameters.now) (line_in «module».now line)) }
{
    match line.kind {
        LineKind::Pre => {
            let scope = Scope {
                parameters,
                is_post: false,
            };
            let expr = condition(alloc, module, line.expr, scope, into)?;
            Ok(Promise::Precondition(expr))
        }
        LineKind::Post => {
            let scope = Scope {
                parameters,
                is_post: true,
            };
            let expr = condition(alloc, module, line.expr, scope, into)?;
            Ok(Promise::Postcondition(Post {
                line: line.line,
                expr,
            }))
        }
        LineKind::Raises => Ok(Promise::Permission(line.names)),
        LineKind::Invariant => Err(Unformed::OtherForm),
    }
}

// Adds a promise to those of its kind.
fn add_promise(module: &Module, promise: Promise, promises: &mut Promises) -> Result<(), NoMemory>
    requires { AreNamesThere «module».now promise }
    ensures { IfOk result (λ _. Adds «module».now promise promises.old promises.new) }
{
    match promise {
        Promise::Precondition(expr) => promises.preconditions.push(expr)?,
        Promise::Postcondition(post) => promises.posts.push(post)?,
        Promise::Permission(names) => add_classes(module, names, &mut promises.permitted)?,
    }
    Ok(())
}

/// What contract lines promise of a function with these parameters. After an error nodes may have been added.
///
/// It takes time linear in the number of classes, and in the product of the numbers of lines and of parameters.
///
/// # Errors
///
/// `NotBuilt` at the first line that is not run, with that line. `NoMemory` where there is no memory for the promises.
pub fn read_promises(
    alloc: Global,
    module: &Module,
    parameters: &[ParameterNode],
    lines: &[ContractLine],
    into: &mut first::Module,
) -> Result<Promises, FormError>
    requires parameters { AreParametersThere «module».now parameters.now }
    requires lines { AreLinesThere «module».now lines.now }
    ensures grown { Extends into.old.nodes into.new.nodes }
    ensures functions { into.new.functions ≡ into.old.functions }
    ensures promises { GivesPromises into.new.nodes result (promises_of (parameter_names «module».now parameters.now) (map (line_in «module».now) lines.now)) }
{
    let mut promises = Promises {
        preconditions: Vec::new(alloc),
        permitted: Vec::new(alloc),
        posts: Vec::new(alloc),
    };
    for line in lines {
        let promise = match promise_of(alloc, module, parameters, *line, into) {
            Ok(promise) => promise,
            Err(unformed) => return Err(error_of(unformed, line.line)),
        };
        add_promise(module, promise, &mut promises)?;
    }
    Ok(promises)
}
