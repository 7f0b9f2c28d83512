ghost use Rattle.std.specs.Prelude.{◌≡◌, ◌<◌, ◌≤◌, length, IfOk};

use crate::{Class, classes};
use py_tree::{Module, NameId, ParameterNode, StmtId, StmtNode};
use std::alloc::Global;
use std::test::Fail;
use xh_outside::NoMemory;

/// Adds a function of two parameters, whose body is one statement.
fn add_function(
    alloc: Global,
    into: &mut Module,
    name: NameId,
    first: NameId,
    second: NameId,
    statement: StmtId,
) -> Result<StmtId, NoMemory>
    requires name { name.index < length into.old.names }
    requires first { first.index < length into.old.names }
    requires second { second.index < length into.old.names }
    requires statement { statement.index < length into.old.stmts }
    ensures names { IfOk result (λ _. into.new.names ≡ into.old.names) }
    ensures grown { IfOk result (λ _. length into.old.stmts ≤ length into.new.stmts) }
    ensures below { IfOk result (λ s. s.index < length into.new.stmts) }
{
    let first = ParameterNode {
        name: first,
        annotation: None,
        default: None,
    };
    let second = ParameterNode {
        name: second,
        annotation: None,
        default: None,
    };
    let function = into.add_stmt(StmtNode::Def {
        line: 1,
        last: 2,
        name,
        parameters: vec![in alloc; first, second]?,
        result: None,
        body: vec![in alloc; statement]?,
    })?;
    Ok(function)
}

/// A module of one class, which has a method of one name whose first parameter has another.
fn module_of(alloc: Global, method: &str, first: &str) -> Result<Module, NoMemory> {
    let mut module = Module::new(alloc);
    let method = module.add_name(method)?;
    let first = module.add_name(first)?;
    let second = module.add_name("x")?;
    let pass = module.add_stmt(StmtNode::Pass { line: 2 })?;
    let function = add_function(alloc, &mut module, method, first, second, pass)?;
    let class = module.add_stmt(StmtNode::Class {
        line: 1,
        last: 6,
        name: second,
        body: vec![in alloc; pass, function]?,
    })?;
    module.push_top(pass)?;
    module.push_top(class)?;
    Ok(module)
}

/// The names of the parameters that the constructor of its class takes.
fn taken(alloc: Global, module: &Module) -> Result<Vec<NameId>, NoMemory> {
    let found = classes(alloc, module)?;
    let mut names = Vec::new(alloc);
    if let [class] = found.as_slice() {
        names.push(class.name(module))?;
        for parameter in class.constructor(module) {
            names.push(parameter.name)?;
        }
    }
    Ok(names)
}

#[test]
fn constructors_take_what_stands_behind_self(rt: HostRuntime) -> Result<(), Fail> {
    let alloc = rt.alloc();
    let first = NameId { index: 1 };
    let second = NameId { index: 2 };
    let bound = taken(alloc, &module_of(alloc, "__init__", "self")?)?;
    assert!(rt; bound.as_slice() == [second, second].as_slice());
    let unbound = taken(alloc, &module_of(alloc, "__init__", "y")?)?;
    assert!(rt; unbound.as_slice() == [second, first, second].as_slice());
    let none = taken(alloc, &module_of(alloc, "__str__", "self")?)?;
    assert!(rt; none.as_slice() == [second].as_slice());
    Ok(())
}

#[test]
fn classes_stand_in_the_order_of_lines(rt: HostRuntime) -> Result<(), Fail> {
    let alloc = rt.alloc();
    let mut module = Module::new(alloc);
    let name = module.add_name("A")?;
    let first = module.add_stmt(StmtNode::Class {
        line: 1,
        last: 1,
        name,
        body: Vec::new(alloc),
    })?;
    let second = module.add_stmt(StmtNode::Class {
        line: 2,
        last: 2,
        name,
        body: Vec::new(alloc),
    })?;
    module.push_top(second)?;
    module.push_top(first)?;
    let found = classes(alloc, &module)?;
    let want = [Class { statement: second }, Class { statement: first }];
    assert!(rt; found.as_slice() == want.as_slice());
    Ok(())
}
