ghost use Rattle.std.specs.Prelude.{◌<◌, length, IfOk};
ghost use Rattle.py_tree.specs.Arena.{State};
ghost use Rattle.contract_lines.specs.Given.{AreLinesThere};

use crate::{FormError, functions};
use contract_lines::{ContractLine, Contracts, FnId, LineKind, Owner};
use py_tree::{ExprId, ExprNode, Module, ParameterNode, StmtNode, TypeNode};
use std::alloc::Global;
use std::test::Fail;
use xh_outside::NoMemory;

/// A module of `def f(x: ANNOTATION):` on line 1, whose body on line 3 returns `x`, the first of the expressions.
fn sample(alloc: Global, annotation: &str) -> Result<Module, NoMemory>
    ensures { IfOk result (λ m. 0 < length m.exprs) }
{
    let mut module = Module::new(alloc);
    let x = module.add_name("x")?;
    let value = module.add_expr(ExprNode::Name { line: 3, name: x })?;
    let returned = module.add_stmt(StmtNode::Return {
        line: 3,
        value: Some(value),
    })?;
    let kind = module.add_name(annotation)?;
    let annotation = module.add_type(TypeNode::Name {
        line: 1,
        name: kind,
        arguments: Vec::new(alloc),
    })?;
    let name = module.add_name("f")?;
    let parameter = ParameterNode {
        name: x,
        annotation: Some(annotation),
        default: None,
    };
    let function = module.add_stmt(StmtNode::Def {
        line: 1,
        last: 3,
        name,
        parameters: vec![in alloc; parameter]?,
        result: None,
        body: vec![in alloc; returned]?,
    })?;
    module.push_top(function)?;
    Ok(module)
}

/// The line `post: x` of the function of a number, on line 2.
fn post(alloc: Global, index: usize) -> Result<Contracts, NoMemory>
    ensures { (m : State) → 0 < length m.exprs → IfOk result (λ lines. AreLinesThere m lines) }
{
    let mut contracts = Contracts::new(alloc);
    contracts.push(ContractLine {
        owner: Owner::Function(FnId { index }),
        kind: LineKind::Post,
        line: 2,
        expr: Some(ExprId { index: 0 }),
        names: None,
    })?;
    Ok(contracts)
}

#[test]
fn functions_with_contract_lines_are_run(rt: HostRuntime) -> Result<(), Fail> {
    let alloc = rt.alloc();
    let module = sample(alloc, "int")?;
    let contracts = post(alloc, 0)?;
    let functions = functions(alloc, &module, &contracts)?;
    assert_eq!(&rt; functions.functions(), 1);
    let function = functions.function(0);
    assert_eq!(&rt; function.name.as_slice(), b"f".as_slice());
    assert_eq!(&rt; function.line, 1);
    assert_eq!(&rt; function.parameters.len(), 1);
    assert_eq!(&rt; function.parameters[0].as_slice(), b"x".as_slice());
    assert_eq!(&rt;
        (function.preconditions.len(), function.permitted.len()),
        (0, 0)
    );
    assert_eq!(&rt; (function.posts.len(), function.values.len()), (1, 1));
    assert_eq!(&rt;
        (function.posts[0].line, function.posts[0].expr.index),
        (2, 0)
    );
    assert_eq!(&rt; function.values[0].index, 1);
    assert_eq!(&rt; functions.len(), 2);
    Ok(())
}

#[test]
fn functions_without_contract_lines_are_let_go(rt: HostRuntime) -> Result<(), Fail> {
    let alloc = rt.alloc();
    let module = sample(alloc, "str")?;
    let contracts = post(alloc, 1)?;
    let functions = functions(alloc, &module, &contracts)?;
    assert_eq!(&rt; (functions.functions(), functions.len()), (0, 0));
    Ok(())
}

#[test]
fn other_types_are_refused_at_the_header(rt: HostRuntime) -> Result<(), Fail> {
    let alloc = rt.alloc();
    let module = sample(alloc, "str")?;
    let contracts = post(alloc, 0)?;
    match functions(alloc, &module, &contracts) {
        Ok(_) => assert!(&rt; false),
        Err(error) => assert_eq!(&rt; error, FormError::NotBuilt(1)),
    }
    Ok(())
}

#[test]
fn other_statements_are_refused_at_their_lines(rt: HostRuntime) -> Result<(), Fail> {
    let alloc = rt.alloc();
    let mut module = Module::new(alloc);
    let pass = module.add_stmt(StmtNode::Pass { line: 1 })?;
    module.push_top(pass)?;
    let last = module.add_stmt(StmtNode::Break { line: 2 })?;
    module.push_top(last)?;
    let contracts = Contracts::new(alloc);
    match functions(alloc, &module, &contracts) {
        Ok(_) => assert!(&rt; false),
        Err(error) => assert_eq!(&rt; error, FormError::NotBuilt(2)),
    }
    Ok(())
}
