ghost use Rattle.std.specs.Prelude.{◌≡◌, ◌<◌, length, IfOk, IsTrue, None};
ghost use Rattle.py_tree.specs.Exprs.{IsBoundBelow};
ghost use Rattle.contract_lines.specs.Given.{AreLinesThere, IsListThere};

use crate::{
    FormError, Promises, Scope, Unformed, copy_expression, error_of, integer_parameters,
    read_promises,
};
use contract_lines::{ContractLine, FnId, LineKind, Owner};
use first_tree as first;
use first_tree::{BinaryOp, ExcClass};
use py_tree::{
    ExprId, ExprNode, Module, NameId, NamesId, Operator, ParameterNode, TypeId, TypeNode,
};
use std::alloc::Global;
use std::test::Fail;
use xh_outside::NoMemory;

/// A module with these names.
fn named(alloc: Global, texts: &[&str]) -> Result<Module, NoMemory> {
    let mut module = Module::new(alloc);
    for text in texts {
        module.add_name(text)?;
    }
    Ok(module)
}

/// A parameter by the number of its name.
fn parameter(index: usize) -> ParameterNode
    ensures { result ≡ record { name = record { index = index }; annotation = None; default = None } }
{
    ParameterNode {
        name: NameId { index },
        annotation: None,
        default: None,
    }
}

/// Adds a name by its number.
fn add_name(module: &mut Module, line: u32, index: usize) -> Result<ExprId, NoMemory> {
    if index >= module.names_count() {
        return Err(NoMemory);
    }
    module.add_expr(ExprNode::Name {
        line,
        name: NameId { index },
    })
}

/// Adds a difference.
fn add_difference(
    module: &mut Module,
    line: u32,
    left: ExprId,
    right: ExprId,
) -> Result<ExprId, NoMemory> {
    if left.index >= module.exprs_count() || right.index >= module.exprs_count() {
        return Err(NoMemory);
    }
    module.add_expr(ExprNode::Binary {
        line,
        operator: Operator::Subtract,
        left,
        right,
    })
}

/// Copies an expression whose names are the first one and that of the returned value.
fn copy(
    alloc: Global,
    module: &Module,
    e: ExprId,
    into: &mut first::Module,
) -> Result<first::ExprId, Unformed>
    ensures { IfOk result (λ copied. copied.index < length into.new.nodes) }
{
    if e.index >= module.exprs_count() || module.names_count() == 0 {
        return Err(Unformed::NoMemory);
    }
    let scope = Scope {
        parameters: &[parameter(0)],
        is_post: true,
    };
    copy_expression(alloc, module, e, scope, into)
}

/// Whether a node is the name x on the line 3.
fn is_x(node: &first::ExprNode) -> bool {
    match node {
        first::ExprNode::Name { name, line } => name.as_slice() == b"x".as_slice() && *line == 3,
        _ => false,
    }
}

/// Whether a node is the number 7 on the line 3.
fn is_seven(node: &first::ExprNode) -> bool {
    match node {
        first::ExprNode::Int { value, line } => *value == 7 && *line == 3,
        _ => false,
    }
}

/// Whether an expression is `x - 7` on the line 3.
fn is_difference(module: &first::Module, e: first::ExprId) -> bool
    requires { e.index < length «module».now.nodes }
{
    match module.expr(e) {
        first::ExprNode::Binary {
            op,
            left,
            right,
            line,
        } => {
            *op == BinaryOp::Subtract
                && *line == 3
                && is_x(module.expr(*left))
                && is_seven(module.expr(*right))
        }
        _ => false,
    }
}

#[test]
fn expressions_are_copied_whose_names_are_known(rt: HostRuntime) -> Result<(), Fail> {
    let alloc = rt.alloc();
    let mut module = named(alloc, &["x", "y"])?;
    let left = add_name(&mut module, 3, 0)?;
    let right = module.add_expr(ExprNode::Integer { line: 3, value: 7 })?;
    let difference = add_difference(&mut module, 3, left, right)?;
    let unknown = add_name(&mut module, 4, 1)?;
    let mut into = first::Module::new(alloc);
    match copy(alloc, &module, difference, &mut into) {
        Ok(copied) => assert!(rt; is_difference(&into, copied)),
        Err(unformed) => return Err(error_of(unformed, 3).into()),
    }
    let refused = copy(alloc, &module, unknown, &mut into);
    assert!(rt; refused == Err(Unformed::OtherForm));
    Ok(())
}

/// Adds a type that is a name, by its number.
fn add_type(alloc: Global, module: &mut Module, index: usize) -> Result<TypeId, NoMemory> {
    if index >= module.names_count() {
        return Err(NoMemory);
    }
    module.add_type(TypeNode::Name {
        line: 1,
        name: NameId { index },
        arguments: Vec::new(alloc),
    })
}

/// How many parameters there are, all of them integers, where one has no type or this one.
fn integers(
    alloc: Global,
    module: &Module,
    annotation: Option<TypeId>,
) -> Result<Option<usize>, NoMemory> {
    let is_there = match annotation {
        Some(t) => t.index < module.types_count(),
        None => true,
    };
    if !is_there || module.names_count() == 0 {
        return Err(NoMemory);
    }
    let parameter = ParameterNode {
        annotation,
        ..parameter(0)
    };
    match integer_parameters(alloc, module, &[parameter])? {
        Some(names) => Ok(Some(names.len())),
        None => Ok(None),
    }
}

#[test]
fn parameters_are_integers_by_their_annotations(rt: HostRuntime) -> Result<(), Fail> {
    let alloc = rt.alloc();
    let mut module = named(alloc, &["x", "int", "str"])?;
    let whole = add_type(alloc, &mut module, 1)?;
    let text = add_type(alloc, &mut module, 2)?;
    assert!(rt; integers(alloc, &module, Some(whole))? == Some(1));
    assert!(rt; integers(alloc, &module, Some(text))?.is_none());
    assert!(rt; integers(alloc, &module, None)?.is_none());
    Ok(())
}

fn is_expr_there(module: &Module, e: Option<ExprId>) -> bool
    ensures { IsTrue result → IsBoundBelow (length «module».now.exprs) e }
{
    match e {
        Some(e) => e.index < module.exprs_count(),
        None => true,
    }
}

fn is_list_there(module: &Module, names: Option<NamesId>) -> bool
    ensures { IsTrue result → IsListThere «module».now names }
{
    match names {
        Some(names) => names.index < module.lists_count(),
        None => true,
    }
}

fn are_there(module: &Module, lines: &[ContractLine]) -> bool
    ensures { IsTrue result → AreLinesThere «module».now lines.now }
{
    match lines {
        [] => true,
        [line, rest @ ..] => {
            is_expr_there(module, line.expr)
                && is_list_there(module, line.names)
                && are_there(module, rest)
        }
    }
}

/// What lines promise of a function whose parameter has the first name.
fn read(alloc: Global, module: &Module, lines: &[ContractLine]) -> Result<Promises, FormError> {
    if module.names_count() == 0 || !are_there(module, lines) {
        return Err(FormError::NoMemory);
    }
    let mut into = first::Module::new(alloc);
    read_promises(alloc, module, &[parameter(0)], lines, &mut into)
}

/// The line at which lines are not run, where there is one.
fn refused_at(
    alloc: Global,
    module: &Module,
    lines: &[ContractLine],
) -> Result<Option<u32>, FormError> {
    match read(alloc, module, lines) {
        Ok(_) => Ok(None),
        Err(FormError::NotBuilt(line)) => Ok(Some(line)),
        Err(error) => Err(error),
    }
}

/// A contract line.
fn line_of(
    kind: LineKind,
    line: u32,
    expr: Option<ExprId>,
    names: Option<NamesId>,
) -> ContractLine {
    ContractLine {
        owner: Owner::Function(FnId { index: 0 }),
        kind,
        line,
        expr,
        names,
    }
}

/// Adds a list of two names by their numbers.
fn add_names(module: &mut Module, first: usize, second: usize) -> Result<NamesId, NoMemory> {
    if first >= module.names_count() || second >= module.names_count() {
        return Err(NoMemory);
    }
    module.add_names(&[NameId { index: first }, NameId { index: second }])
}

#[test]
fn lines_promise_each_kind(rt: HostRuntime) -> Result<(), Fail> {
    let alloc = rt.alloc();
    let mut module = named(alloc, &["x", "__return__", "Unknown", "ValueError"])?;
    let given = add_name(&mut module, 2, 0)?;
    let returned = add_name(&mut module, 4, 1)?;
    let classes = add_names(&mut module, 2, 3)?;
    let pre = line_of(LineKind::Pre, 2, Some(given), None);
    let raises = line_of(LineKind::Raises, 3, None, Some(classes));
    let post = line_of(LineKind::Post, 4, Some(returned), None);
    let promises = read(alloc, &module, &[pre, raises, post])?;
    assert!(rt; promises.preconditions.len() == 1);
    assert!(rt; promises.permitted.as_slice() == [ExcClass::ValueError].as_slice());
    assert!(rt; promises.posts.len() == 1 && promises.posts[0].line == 4);
    Ok(())
}

#[test]
fn the_first_line_is_told_that_is_not_run(rt: HostRuntime) -> Result<(), Fail> {
    let alloc = rt.alloc();
    let mut module = named(alloc, &["x", "__return__"])?;
    let given = add_name(&mut module, 2, 0)?;
    let returned = add_name(&mut module, 4, 1)?;
    let pre = line_of(LineKind::Pre, 2, Some(given), None);
    // the returned value has no name before the call
    let early = line_of(LineKind::Pre, 4, Some(returned), None);
    let invariant = line_of(LineKind::Invariant, 5, Some(given), None);
    assert!(rt; refused_at(alloc, &module, &[pre, early, invariant])? == Some(4));
    assert!(rt; refused_at(alloc, &module, &[invariant, early])? == Some(5));
    assert!(rt; refused_at(alloc, &module, &[pre, pre])?.is_none());
    Ok(())
}
