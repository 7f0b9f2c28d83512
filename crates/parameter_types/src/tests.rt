ghost use Rattle.std.specs.Prelude.{◌≡◌, ◌<◌, length, IfOk};
ghost use Rattle.contract_lines.specs.Given.{AreLinesThere};
ghost use Rattle.py_tree.specs.Arena.{State};
ghost use Rattle.py_tree.specs.Types.{IsTypeBelow};

use crate::told_of_types;
use contract_lines::{ContractLine, Contracts, FnId, LineKind, Owner};
use py_tree::{Module, NameId, ParameterNode, StmtNode, TypeId, TypeNode};
use spec_names::{ProfileFault, Refusal};
use std::alloc::Global;
use std::test::Fail;
use xh_outside::NoMemory;

/// Adds the type `list[list[None]]`, where the name is `list`.
fn add_lists(alloc: Global, module: &mut Module, name: NameId) -> Result<TypeId, NoMemory>
    requires { name.index < length «module».old.names }
    ensures names { IfOk result (λ _. «module».new.names ≡ «module».old.names) }
    ensures there { IfOk result (λ t. t.index < length «module».new.types) }
{
    let none = module.add_type(TypeNode::None { line: 1 })?;
    let inner = module.add_type(TypeNode::Name {
        line: 1,
        name,
        arguments: vec![in alloc; none]?,
    })?;
    let outer = module.add_type(TypeNode::Name {
        line: 1,
        name,
        arguments: vec![in alloc; inner]?,
    })?;
    Ok(outer)
}

/// Adds a function on the line 3, which has one parameter with this annotation.
fn add_function(
    alloc: Global,
    module: &mut Module,
    name: NameId,
    annotation: Option<TypeId>,
) -> Result<(), NoMemory>
    requires name { name.index < length «module».old.names }
    requires annotation { IsTypeBelow (length «module».old.types) annotation }
{
    let parameter = ParameterNode {
        name,
        annotation,
        default: None,
    };
    let statement = module.add_stmt(StmtNode::Def {
        line: 3,
        last: 3,
        name,
        parameters: vec![in alloc; parameter]?,
        result: None,
        body: Vec::new(alloc),
    })?;
    module.push_top(statement)?;
    Ok(())
}

/// A contract line of the first function.
fn contracts(alloc: Global) -> Result<Contracts, NoMemory>
    ensures { (m : State) → IfOk result (λ v. AreLinesThere m v) }
{
    let mut contracts = Contracts::new(alloc);
    contracts.push(ContractLine {
        owner: Owner::Function(FnId { index: 0 }),
        kind: LineKind::Raises,
        line: 4,
        expr: None,
        names: None,
    })?;
    Ok(contracts)
}

#[test]
fn parameters_of_checked_functions_need_types(rt: HostRuntime) -> Result<(), Fail> {
    let alloc = rt.alloc();
    let mut module = Module::new(alloc);
    let name = module.add_name("x")?;
    add_function(alloc, &mut module, name, None)?;
    let none = Contracts::new(alloc);
    assert!(rt; told_of_types(alloc, &mut module, &none, 3, 2, None)? == None);
    let contracts = contracts(alloc)?;
    let want = Refusal {
        line: 3,
        fault: ProfileFault::MissingType,
    };
    assert!(rt; told_of_types(alloc, &mut module, &contracts, 3, 2, None)? == Some(want));
    Ok(())
}

#[test]
fn widths_grow_with_the_length_of_lists(rt: HostRuntime) -> Result<(), Fail> {
    let alloc = rt.alloc();
    let mut module = Module::new(alloc);
    let name = module.add_name("list")?;
    let lists = add_lists(alloc, &mut module, name)?;
    add_function(alloc, &mut module, name, Some(lists))?;
    let contracts = contracts(alloc)?;
    assert!(rt; told_of_types(alloc, &mut module, &contracts, 8, 2, None)? == None);
    let want = Refusal {
        line: 3,
        fault: ProfileFault::TooWide,
    };
    assert!(rt; told_of_types(alloc, &mut module, &contracts, 64, 2, None)? == Some(want));
    Ok(())
}
