ghost use Rattle.std.specs.Prelude.{◌≡◌, ◌<◌, length, map, slice_get, Some, true, IfOk, OnOk};
ghost use Rattle.std.specs.List.{flat_map};
ghost use Rattle.std.specs.Option.{option_map};
ghost use Rattle.spec_uses.specs.Functions.{all_functions};
ghost use Rattle.spec_uses.specs.Meanings.{module_scope};
ghost use Rattle.spec_uses.specs.ModuleUses.{use_refusals, uses_in_body, uses_in_line};
ghost use Rattle.spec_uses.specs.ContractScopes.{function_at, scope_at};
ghost use Rattle.py_tree.specs.Arena.{module_tree};
ghost use Rattle.contract_owners.specs.Members.{owner_in};
ghost use Rattle.contract_lines.specs.Given.{AreLinesThere, IsLineThere, line_in};
ghost use Rattle.contract_lines.specs.declared.contracts.ContractLine as written;
ghost use Rattle.module_functions.specs.Listed.{AreThere, IsThere, function_in};
ghost use Rattle.name_scopes.specs.Showing.{IsScopeOf, Shows};
ghost use Rattle.py_profile.specs.Owning.{HasFunction, IsEntered, IsEnteredIf, IsThereIf};
ghost use Rattle.told_refusals.specs.Telling.{Tells};

use contract_lines::{ContractLine, Contracts, LineKind, Owner};
use expression_uses::told_of_expression;
use module_functions::{Function, functions};
use name_scopes::Scope;
use py_tree::Module;
use spec_names::Refusal;
use spec_uses::Place;
use statement_uses::told_of_block;
use std::alloc::Global;
use xh_outside::NoMemory;

// What is told behind the body of a function.
fn told_of_body(
    module: &Module,
    scope: &mut Scope,
    function: &Function,
    told: Option<Refusal>,
) -> Result<Option<Refusal>, NoMemory>
    requires function { IsThere «module».now function.now }
    requires scope { IsScopeOf «module».now scope.old }
    ensures scope { OnOk result (IsScopeOf «module».now scope.new) }
    ensures told { IfOk result (λ new. Tells told new (uses_in_body (module_scope (module_tree «module».now).body) (function_in «module».now function.now))) }
{
    let body = function.body(module);
    scope.enter_body(module, function.parameters(module), body)?;
    Ok(told_of_block(module, scope, body, told))
}

// What is told behind the bodies of functions.
fn told_of_bodies(
    module: &Module,
    scope: &mut Scope,
    functions: &[Function],
    told: Option<Refusal>,
) -> Result<Option<Refusal>, NoMemory>
    requires functions { AreThere «module».now functions.now }
    requires scope { IsScopeOf «module».now scope.old }
    ensures scope { OnOk result (IsScopeOf «module».now scope.new) }
    ensures told { IfOk result (λ new. Tells told new (flat_map (uses_in_body (module_scope (module_tree «module».now).body)) (map (function_in «module».now) functions.now))) }
{
    let mut told = told;
    for function in functions {
        told = told_of_body(module, scope, function, told)?;
    }
    Ok(told)
}

// The function of a number, if there is one.
fn numbered(functions: &[Function], number: usize) -> Option<Function>
    ensures { result ≡ slice_get functions.now number }
{
    functions.get(number).copied()
}

// The function that has a contract line, where it is none of a class.
fn function_at(module: &Module, functions: &[Function], owner: Owner) -> Option<Function>
    requires functions { map (function_in «module».now) functions.now ≡ all_functions (module_tree «module».now).body }
    requires there { AreThere «module».now functions.now }
    ensures function { option_map (function_in «module».now) result ≡ function_at (module_tree «module».now).body (owner_in owner) }
    ensures there { IsThereIf «module».now result }
{
    match owner {
        Owner::Function(function) => numbered(functions, function.index),
        Owner::Class(_) => None,
    }
}

// Makes the names of a function those of the scope, for its contract lines, or no names for those of a class.
fn enter_function(
    module: &Module,
    scope: &mut Scope,
    function: Option<Function>,
) -> Result<(), NoMemory>
    requires function { IsThereIf «module».now function }
    requires scope { IsScopeOf «module».now scope.old }
    ensures scope { OnOk result (IsScopeOf «module».now scope.new) }
    ensures has { OnOk result (HasFunction «module».now scope.new (option_map (function_in «module».now) function)) }
{
    match function {
        Some(function) => {
            let is_constructor = function.is_constructor(module);
            scope.enter_function(module, is_constructor, function.parameters(module))
        }
        None => scope.enter_function(module, false, &[]),
    }
}

// Whether the owner that was entered last, if one was, is this one.
fn is_entered(entered: Option<Owner>, owner: Owner) -> bool
    ensures { result ≡ true → entered ≡ Some owner }
{
    entered == Some(owner)
}

// Makes the names of the owner of a contract line those of the scope, where they are not yet.
fn enter_owner(
    module: &Module,
    scope: &mut Scope,
    functions: &[Function],
    entered: &mut Option<Owner>,
    owner: Owner,
) -> Result<(), NoMemory>
    requires functions { map (function_in «module».now) functions.now ≡ all_functions (module_tree «module».now).body }
    requires there { AreThere «module».now functions.now }
    requires scope { IsScopeOf «module».now scope.old }
    requires entered { IsEnteredIf «module».now scope.old entered.old }
    ensures scope { OnOk result (IsScopeOf «module».now scope.new) }
    ensures entered { OnOk result (entered.new ≡ Some owner) }
    ensures has { OnOk result (IsEntered «module».now scope.new owner) }
{
    if !is_entered(*entered, owner) {
        enter_function(module, scope, function_at(module, functions, owner))?;
        *entered = Some(owner);
    }
    Ok(())
}

// Makes the scope that of a contract line of this owner.
fn enter_line(
    module: &Module,
    scope: &mut Scope,
    functions: &[Function],
    entered: &mut Option<Owner>,
    owner: Owner,
    kind: LineKind,
) -> Result<(), NoMemory>
    requires functions { map (function_in «module».now) functions.now ≡ all_functions (module_tree «module».now).body }
    requires there { AreThere «module».now functions.now }
    requires scope { IsScopeOf «module».now scope.old }
    requires entered { IsEnteredIf «module».now scope.old entered.old }
    ensures scope { OnOk result (IsScopeOf «module».now scope.new) }
    ensures entered { OnOk result (IsEnteredIf «module».now scope.new entered.new) }
    ensures shows { OnOk result (Shows «module».now.names scope.new (scope_at kind (function_at (module_tree «module».now).body (owner_in owner)) (module_scope (module_tree «module».now).body))) }
{
    enter_owner(module, scope, functions, entered, owner)?;
    scope.enter_line(kind);
    Ok(())
}

// What is told behind a contract line.
fn told_of_line(
    module: &Module,
    scope: &mut Scope,
    functions: &[Function],
    entered: &mut Option<Owner>,
    line: ContractLine,
    told: Option<Refusal>,
) -> Result<Option<Refusal>, NoMemory>
    requires functions { map (function_in «module».now) functions.now ≡ all_functions (module_tree «module».now).body }
    requires there { AreThere «module».now functions.now }
    requires line { IsLineThere «module».now line }
    requires scope { IsScopeOf «module».now scope.old }
    requires entered { IsEnteredIf «module».now scope.old entered.old }
    ensures scope { OnOk result (IsScopeOf «module».now scope.new) }
    ensures entered { OnOk result (IsEnteredIf «module».now scope.new entered.new) }
    ensures told { IfOk result (λ new. Tells told new (uses_in_line (module_tree «module».now).body (line_in «module».now line))) }
{
    let Some(e) = line.expr else {
        return Ok(told);
    };
    enter_line(module, scope, functions, entered, line.owner, line.kind)?;
    Ok(told_of_expression(module, scope, Place::Read, e, told))
}

// What is told behind the contract line of a place.
fn told_of_line_at(
    module: &Module,
    scope: &mut Scope,
    functions: &[Function],
    entered: &mut Option<Owner>,
    contracts: &Contracts,
    i: usize,
    told: Option<Refusal>,
) -> Result<Option<Refusal>, NoMemory>
    requires functions { map (function_in «module».now) functions.now ≡ all_functions (module_tree «module».now).body }
    requires there { AreThere «module».now functions.now }
    requires contracts { AreLinesThere «module».now contracts.now }
    requires scope { IsScopeOf «module».now scope.old }
    requires entered { IsEnteredIf «module».now scope.old entered.old }
    ensures scope { OnOk result (IsScopeOf «module».now scope.new) }
    ensures entered { OnOk result (IsEnteredIf «module».now scope.new entered.new) }
    ensures told { IfOk result (λ new. (l : written.ContractLine) → slice_get contracts.now i ≡ Some l → Tells told new (uses_in_line (module_tree «module».now).body (line_in «module».now l))) }
{
    match contracts.get(i) {
        Some(line) => told_of_line(module, scope, functions, entered, line, told),
        None => Ok(told),
    }
}

// What is told behind contract lines.
fn told_of_lines(
    module: &Module,
    scope: &mut Scope,
    functions: &[Function],
    contracts: &Contracts,
    told: Option<Refusal>,
) -> Result<Option<Refusal>, NoMemory>
    requires functions { map (function_in «module».now) functions.now ≡ all_functions (module_tree «module».now).body }
    requires there { AreThere «module».now functions.now }
    requires contracts { AreLinesThere «module».now contracts.now }
    requires scope { IsScopeOf «module».now scope.old }
    ensures { IfOk result (λ new. Tells told new (flat_map (uses_in_line (module_tree «module».now).body) (map (line_in «module».now) contracts.now))) }
{
    let mut told = told;
    let mut entered = None;
    for i in 0..contracts.lines() {
        told = told_of_line_at(module, scope, functions, &mut entered, contracts, i, told)?;
    }
    Ok(told)
}

/// What is told behind the uses of names in the bodies and contract lines of a module.
pub(crate) fn told_of_uses(
    alloc: Global,
    module: &Module,
    contracts: &Contracts,
    told: Option<Refusal>,
) -> Result<Option<Refusal>, NoMemory>
    requires { AreLinesThere «module».now contracts.now }
    ensures { IfOk result (λ new. Tells told new (use_refusals (module_tree «module».now).body (map (line_in «module».now) contracts.now))) }
{
    let mut scope = Scope::new(alloc, module)?;
    let functions = functions(alloc, module)?;
    let told = told_of_bodies(module, &mut scope, &functions, told)?;
    let told = told_of_lines(module, &mut scope, &functions, contracts, told)?;
    Ok(told)
}
