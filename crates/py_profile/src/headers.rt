ghost use Rattle.std.specs.Prelude.{◌≡◌, ◌<◌, length, map, IfOk};
ghost use Rattle.std.specs.List.{list_any};
ghost use Rattle.spec_names.specs.Headers.{header_forms, is_private_method, lacks_self, member_forms, method_forms};
ghost use Rattle.spec_names.specs.Members.{each};
ghost use Rattle.spec_names.specs.Names.{is_private};
ghost use Rattle.py_tree.specs.Arena.{module_tree, shown_stmt};
ghost use Rattle.py_tree.specs.Names.{AreNamesBelow, text_of};
ghost use Rattle.py_tree.specs.Stmts.{AreStmtsBelow, block_tree};
ghost use Rattle.told_refusals.specs.Telling.{Tells};

use crate::names::{are_private, defined};
use module_functions::is_self_first;
use module_members::{is_private, line_of, member_of, method_of, methods};
use py_tree::{Module, NameId, StmtId, StmtNode};
use spec_names::{ProfileFault, Refusal};
use std::alloc::Global;
use told_refusals::told_if;
use xh_outside::NoMemory;

// Whether the name of a method is left out.
fn is_private_method(name: &str) -> bool
    ensures { result ≡ is_private_method name.now }
{
    is_private(name) && name != "__init__"
}

// Whether one of these names is left out as that of a method.
fn are_private_methods(module: &Module, names: &[NameId]) -> bool
    requires { AreNamesBelow (length «module».now.names) names.now }
    ensures { result ≡ list_any is_private_method (map (text_of «module».now.names) names.now) }
{
    for name in names {
        if is_private_method(module.name_text(*name)) {
            return true;
        }
    }
    false
}

// Whether a statement is a function whose first parameter is not `self`.
fn lacks_self(module: &Module, s: StmtId) -> bool
    requires { s.index < length «module».now.stmts }
    ensures { result ≡ lacks_self (shown_stmt «module».now s.index) }
{
    match module.stmt(s) {
        StmtNode::Def { parameters, .. } => !is_self_first(module, parameters),
        _ => false,
    }
}

// What is told behind the header of a statement of a class.
fn told_of_method(
    alloc: Global,
    module: &Module,
    s: StmtId,
    told: Option<Refusal>,
) -> Result<Option<Refusal>, NoMemory>
    requires { s.index < length «module».now.stmts }
    ensures { IfOk result (λ new. Tells told new (method_forms (shown_stmt «module».now s.index))) }
{
    let names = defined(alloc, module, method_of(module, s))?;
    let is_private = are_private_methods(module, &names);
    let line = line_of(module, s);
    let told = told_if(told, is_private, line, ProfileFault::Form);
    let is_alone = lacks_self(module, s);
    Ok(told_if(told, is_alone, line, ProfileFault::Form))
}

// What is told behind the headers of a class.
fn told_of_methods(
    alloc: Global,
    module: &Module,
    body: &[StmtId],
    told: Option<Refusal>,
) -> Result<Option<Refusal>, NoMemory>
    requires { AreStmtsBelow (length «module».now.stmts) body.now }
    ensures { IfOk result (λ new. Tells told new (each method_forms (block_tree (shown_stmt «module».now) body.now))) }
{
    let mut told = told;
    for s in body {
        told = told_of_method(alloc, module, *s, told)?;
    }
    Ok(told)
}

// What is told behind the header of a statement of a module, and those of a class.
fn told_of_member(
    alloc: Global,
    module: &Module,
    s: StmtId,
    told: Option<Refusal>,
) -> Result<Option<Refusal>, NoMemory>
    requires { s.index < length «module».now.stmts }
    ensures { IfOk result (λ new. Tells told new (member_forms (shown_stmt «module».now s.index))) }
{
    let names = defined(alloc, module, member_of(module, s))?;
    let is_private = are_private(module, &names);
    let line = line_of(module, s);
    let told = told_if(told, is_private, line, ProfileFault::Form);
    told_of_methods(alloc, module, methods(module, s), told)
}

/// What is told behind the definitions of a module and of its classes whose names or headers are left out.
pub(crate) fn told_of_headers(
    alloc: Global,
    module: &Module,
    told: Option<Refusal>,
) -> Result<Option<Refusal>, NoMemory>
    ensures { IfOk result (λ new. Tells told new (header_forms (module_tree «module».now).body)) }
{
    let mut told = told;
    for i in 0..module.top() {
        told = told_of_member(alloc, module, module.top_stmt(i), told)?;
    }
    Ok(told)
}
