ghost use Rattle.std.specs.Prelude.{◌≡◌, ◌<◌, length, IfOk};
ghost use Rattle.contract_lines.specs.Given.{AreLinesThere};
ghost use Rattle.py_types.specs.Given.{Grows};

use crate::{ProfileError, check_profile};
use contract_lines::{ContractLine, Contracts, FnId, LineKind, Owner};
use py_tree::{ExprNode, Module, ParameterNode, StmtId, StmtNode};
use spec_names::ProfileFault;
use std::alloc::Global;
use std::test::Fail;
use xh_outside::NoMemory;

/// Checks a module under the bounds 3 and 2.
fn check(alloc: Global, module: &mut Module, contracts: &Contracts) -> Result<(), ProfileError>
    requires { AreLinesThere «module».old contracts.now }
    ensures { Grows «module».old «module».new }
{
    check_profile(alloc, module, contracts, 3, 2)
}

/// Adds a statement that gives the name `X` the value 5.
fn add_constant(into: &mut Module, line: u32) -> Result<StmtId, NoMemory>
    ensures { IfOk result (λ s. s.index < length into.new.stmts) }
{
    let name = into.add_name("X")?;
    let target = into.add_expr(ExprNode::Name { line, name })?;
    let value = into.add_expr(ExprNode::Integer { line, value: 5 })?;
    let statement = into.add_stmt(StmtNode::Assign {
        line,
        target,
        value,
    })?;
    Ok(statement)
}

#[test]
fn the_second_constant_of_a_name_is_refused(rt: HostRuntime) -> Result<(), Fail> {
    let alloc = rt.alloc();
    let mut module = Module::new(alloc);
    let first = add_constant(&mut module, 1)?;
    module.push_top(first)?;
    let contracts = Contracts::new(alloc);
    assert!(rt; check(alloc, &mut module, &contracts) == Ok(()));
    let second = add_constant(&mut module, 2)?;
    module.push_top(second)?;
    let want = ProfileError::Refused {
        line: 2,
        fault: ProfileFault::Duplicate,
    };
    assert!(rt; check(alloc, &mut module, &contracts) == Err(want));
    Ok(())
}

#[test]
fn names_that_nothing_defines_are_refused(rt: HostRuntime) -> Result<(), Fail> {
    let alloc = rt.alloc();
    let mut module = Module::new(alloc);
    let name = module.add_name("f")?;
    let unknown = module.add_name("x")?;
    let value = module.add_expr(ExprNode::Name {
        line: 2,
        name: unknown,
    })?;
    let returned = module.add_stmt(StmtNode::Return {
        line: 2,
        value: Some(value),
    })?;
    let function = module.add_stmt(StmtNode::Def {
        line: 1,
        last: 2,
        name,
        parameters: Vec::new(alloc),
        result: None,
        body: vec![in alloc; returned]?,
    })?;
    module.push_top(function)?;
    let mut contracts = Contracts::new(alloc);
    let want = ProfileError::Refused {
        line: 2,
        fault: ProfileFault::UnknownName,
    };
    assert!(rt; check(alloc, &mut module, &contracts) == Err(want));
    contracts.push(ContractLine {
        owner: Owner::Function(FnId { index: 0 }),
        kind: LineKind::Post,
        line: 1,
        expr: Some(value),
        names: None,
    })?;
    assert!(rt; check(alloc, &mut module, &contracts) == Err(want));
    Ok(())
}

#[test]
fn parameters_of_checked_functions_need_types(rt: HostRuntime) -> Result<(), Fail> {
    let alloc = rt.alloc();
    let mut module = Module::new(alloc);
    let name = module.add_name("f")?;
    let pass = module.add_stmt(StmtNode::Pass { line: 4 })?;
    let parameter = ParameterNode {
        name,
        annotation: None,
        default: None,
    };
    let function = module.add_stmt(StmtNode::Def {
        line: 3,
        last: 4,
        name,
        parameters: vec![in alloc; parameter]?,
        result: None,
        body: vec![in alloc; pass]?,
    })?;
    module.push_top(function)?;
    let mut contracts = Contracts::new(alloc);
    assert!(rt; check(alloc, &mut module, &contracts) == Ok(()));
    contracts.push(ContractLine {
        owner: Owner::Function(FnId { index: 0 }),
        kind: LineKind::Raises,
        line: 4,
        expr: None,
        names: None,
    })?;
    let want = ProfileError::Refused {
        line: 3,
        fault: ProfileFault::MissingType,
    };
    assert!(rt; check(alloc, &mut module, &contracts) == Err(want));
    Ok(())
}
