ghost use Rattle.std.specs.Prelude.{◌≡◌};

use crate::checked;
use contract_lines::{ClassId, ContractLine, Contracts, FnId, LineKind, Owner};
use module_functions::Function;
use py_tree::StmtId;
use std::alloc::Global;
use std::test::Fail;
use xh_outside::NoMemory;

/// A contract line of this owner.
fn line_of(owner: Owner) -> ContractLine {
    ContractLine {
        owner,
        kind: LineKind::Raises,
        line: 2,
        expr: None,
        names: None,
    }
}

/// A function of this class, of which a check sees no more than that.
fn function_of(class: Option<usize>) -> Function
    ensures { result.class ≡ class }
{
    Function {
        statement: StmtId { index: 0 },
        class,
    }
}

/// Which of three functions are checked, of no class and of the first and of the second of two, by the contract line of an
/// owner.
fn checked_by(alloc: Global, owner: Owner) -> Result<Vec<bool>, NoMemory> {
    let functions = [
        function_of(None),
        function_of(Some(0)),
        function_of(Some(1)),
    ];
    let mut contracts = Contracts::new(alloc);
    contracts.push(line_of(owner))?;
    checked(alloc, &contracts, &functions, 2)
}

#[test]
fn functions_are_checked_by_their_own_lines(rt: HostRuntime) -> Result<(), Fail> {
    let first = checked_by(rt.alloc(), Owner::Function(FnId { index: 0 }))?;
    assert!(rt; first.as_slice() == [true, false, false].as_slice());
    let none = checked_by(rt.alloc(), Owner::Function(FnId { index: 3 }))?;
    assert!(rt; none.as_slice() == [false, false, false].as_slice());
    Ok(())
}

#[test]
fn functions_are_checked_by_the_invariants_of_their_class(rt: HostRuntime) -> Result<(), Fail> {
    let second = checked_by(rt.alloc(), Owner::Class(ClassId { index: 1 }))?;
    assert!(rt; second.as_slice() == [false, false, true].as_slice());
    Ok(())
}
