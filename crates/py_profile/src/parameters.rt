ghost use Rattle.std.specs.Prelude.{◌≡◌, ◌<◌, ◌++◌, length, IfOk, OnOk};
ghost use Rattle.std.specs.List.{list_any};
ghost use Rattle.spec_names.specs.Members.{each};
ghost use Rattle.spec_names.specs.Names.{is_private};
ghost use Rattle.spec_names.specs.Parameters.{all_default_refusals, are_misordered, default_refusals, parameter_refusals, refusals_of_parameters, with_methods};
ghost use Rattle.py_tree.specs.Arena.{module_tree, shown, shown_stmt};
ghost use Rattle.py_tree.specs.Exprs.{IsBoundBelow};
ghost use Rattle.py_tree.specs.Stmts.{AreParametersThere, AreStmtsBelow, block_tree, optional_expr, parameters_tree};
ghost use Rattle.told_refusals.specs.Telling.{Tells};

use crate::doubles::are_repeated;
use crate::names::{are_private, parameter_names};
use module_members::{is_constant, line_of_expression, methods};
use name_sets::NameSet;
use py_tree::{ExprId, Module, ParameterNode, StmtId, StmtNode};
use spec_names::{ProfileFault, Refusal};
use std::alloc::Global;
use told_refusals::told_if;
use xh_outside::NoMemory;

// What is told behind a default.
fn told_of_default(
    module: &Module,
    default: Option<ExprId>,
    told: Option<Refusal>,
) -> Option<Refusal>
    requires { IsBoundBelow (length «module».now.exprs) default }
    ensures { Tells told result (default_refusals (optional_expr «module».now default)) }
{
    match default {
        Some(e) => {
            let is_refused = !is_constant(module, e);
            told_if(
                told,
                is_refused,
                line_of_expression(module, e),
                ProfileFault::Form,
            )
        }
        None => told,
    }
}

// What is told behind the defaults of parameters.
fn told_of_defaults(
    module: &Module,
    parameters: &[ParameterNode],
    told: Option<Refusal>,
) -> Option<Refusal>
    requires { AreParametersThere «module».now parameters.now }
    ensures { Tells told result (all_default_refusals (parameters_tree «module».now parameters.now)) }
{
    let mut told = told;
    for parameter in parameters {
        told = told_of_default(module, parameter.default, told);
    }
    told
}

// Whether a parameter without default stands behind one with a default.
fn are_misordered(module: &Module, parameters: &[ParameterNode]) -> bool
    ensures { result ≡ are_misordered (parameters_tree «module».now parameters.now) }
{
    let mut has_default = false;
    for parameter in parameters {
        if has_default && parameter.default.is_none() {
            return true;
        }
        has_default = parameter.default.is_some();
    }
    false
}

// What is told behind the parameters of a statement, where it is a function. The set is used for it alone.
fn told_of_function(
    alloc: Global,
    module: &Module,
    s: StmtId,
    earlier: &mut NameSet,
    told: Option<Refusal>,
) -> Result<Option<Refusal>, NoMemory>
    requires statement { s.index < length «module».now.stmts }
    requires size { length earlier.old ≡ length «module».now.names }
    ensures size { OnOk result (length earlier.new ≡ length «module».now.names) }
    ensures told { IfOk result (λ new. Tells told new (refusals_of_parameters (shown_stmt «module».now s.index))) }
{
    let StmtNode::Def {
        line,
        parameters,
        ..
    } = module.stmt(s)
    else {
        return Ok(told);
    };
    earlier.clear()?;
    let names = parameter_names(alloc, module, parameters)?;
    let is_repeated = are_repeated(module, &names, earlier);
    let told = told_if(told, is_repeated, *line, ProfileFault::Duplicate);
    let is_private = are_private(module, &names);
    let told = told_if(told, is_private, *line, ProfileFault::Form);
    let is_misordered = are_misordered(module, parameters);
    let told = told_if(told, is_misordered, *line, ProfileFault::Form);
    Ok(told_of_defaults(module, parameters, told))
}

// What is told behind the parameters of the methods of a class.
fn told_of_methods(
    alloc: Global,
    module: &Module,
    body: &[StmtId],
    earlier: &mut NameSet,
    told: Option<Refusal>,
) -> Result<Option<Refusal>, NoMemory>
    requires body { AreStmtsBelow (length «module».now.stmts) body.now }
    requires size { length earlier.old ≡ length «module».now.names }
    ensures size { OnOk result (length earlier.new ≡ length «module».now.names) }
    ensures told { IfOk result (λ new. Tells told new (each refusals_of_parameters (block_tree (shown_stmt «module».now) body.now))) }
{
    let mut told = told;
    for s in body {
        told = told_of_function(alloc, module, *s, earlier, told)?;
    }
    Ok(told)
}

// What is told behind the parameters of a statement of a module, and those of a class.
fn told_of_member(
    alloc: Global,
    module: &Module,
    s: StmtId,
    earlier: &mut NameSet,
    told: Option<Refusal>,
) -> Result<Option<Refusal>, NoMemory>
    requires statement { s.index < length «module».now.stmts }
    requires size { length earlier.old ≡ length «module».now.names }
    ensures size { OnOk result (length earlier.new ≡ length «module».now.names) }
    ensures told { IfOk result (λ new. Tells told new (with_methods (shown_stmt «module».now s.index))) }
{
    let told = told_of_function(alloc, module, s, earlier, told)?;
    told_of_methods(alloc, module, methods(module, s), earlier, told)
}

/// What is told behind the parameters of the functions of a module and of its classes.
pub(crate) fn told_of_parameters(
    alloc: Global,
    module: &Module,
    told: Option<Refusal>,
) -> Result<Option<Refusal>, NoMemory>
    ensures { IfOk result (λ new. Tells told new (parameter_refusals (module_tree «module».now).body)) }
{
    let mut earlier = NameSet::new(alloc, module.names_count())?;
    let mut told = told;
    for i in 0..module.top() {
        told = told_of_member(alloc, module, module.top_stmt(i), &mut earlier, told)?;
    }
    Ok(told)
}
