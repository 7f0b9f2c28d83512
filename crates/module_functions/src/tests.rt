ghost use Rattle.std.specs.Prelude.{◌≡◌, ◌<◌, ◌≤◌, length, IfOk};

use crate::{Function, functions};
use py_tree::{Module, NameId, StmtId, StmtNode};
use std::alloc::Global;
use std::test::Fail;
use xh_outside::NoMemory;

/// Adds a function without parameters, whose body is one statement.
fn add_function(
    alloc: Global,
    into: &mut Module,
    name: NameId,
    statement: StmtId,
) -> Result<StmtId, NoMemory>
    requires name { name.index < length into.old.names }
    requires statement { statement.index < length into.old.stmts }
    ensures names { IfOk result (λ _. into.new.names ≡ into.old.names) }
    ensures grown { IfOk result (λ _. length into.old.stmts ≤ length into.new.stmts) }
    ensures below { IfOk result (λ s. s.index < length into.new.stmts) }
{
    let function = into.add_stmt(StmtNode::Def {
        line: 1,
        last: 2,
        name,
        parameters: Vec::new(alloc),
        result: None,
        body: vec![in alloc; statement]?,
    })?;
    Ok(function)
}

/// Adds a class whose body is two statements.
fn add_class(
    alloc: Global,
    into: &mut Module,
    name: NameId,
    first: StmtId,
    second: StmtId,
) -> Result<StmtId, NoMemory>
    requires name { name.index < length into.old.names }
    requires first { first.index < length into.old.stmts }
    requires second { second.index < length into.old.stmts }
    ensures names { IfOk result (λ _. into.new.names ≡ into.old.names) }
    ensures grown { IfOk result (λ _. length into.old.stmts ≤ length into.new.stmts) }
    ensures below { IfOk result (λ s. s.index < length into.new.stmts) }
{
    let class = into.add_stmt(StmtNode::Class {
        line: 1,
        last: 6,
        name,
        body: vec![in alloc; first, second]?,
    })?;
    Ok(class)
}

#[test]
fn functions_stand_in_the_order_of_lines(rt: HostRuntime) -> Result<(), Fail> {
    let alloc = rt.alloc();
    let mut module = Module::new(alloc);
    let name = module.add_name("f")?;
    let init = module.add_name("__init__")?;
    let pass = module.add_stmt(StmtNode::Pass { line: 2 })?;
    let function = add_function(alloc, &mut module, init, pass)?;
    let method = add_function(alloc, &mut module, init, pass)?;
    let first = add_class(alloc, &mut module, name, pass, pass)?;
    let second = add_class(alloc, &mut module, name, pass, method)?;
    let last = add_function(alloc, &mut module, name, pass)?;
    module.push_top(function)?;
    module.push_top(first)?;
    module.push_top(second)?;
    module.push_top(last)?;
    let want = [
        Function {
            statement: function,
            class: None,
        },
        Function {
            statement: method,
            class: Some(1),
        },
        Function {
            statement: last,
            class: None,
        },
    ];
    let found = functions(alloc, &module)?;
    assert!(rt; found.as_slice() == want.as_slice());
    assert!(rt; !want[0].is_constructor(&module));
    assert!(rt; want[1].is_constructor(&module));
    assert!(rt; want[2].name(&module) == "f");
    assert!(rt; want[1].body(&module) == [pass].as_slice());
    assert!(rt; want[1].parameters(&module).is_empty());
    Ok(())
}
