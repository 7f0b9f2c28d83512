ghost use Rattle.std.specs.Prelude.{◌≡◌, ◌<◌, length, IfOk};

use crate::{FnId, Program};
use py_tree::{Module, NameId, StmtId, StmtNode};
use std::alloc::Global;
use std::test::Fail;
use xh_outside::NoMemory;

/// Adds a function of no parameter, whose body is one statement.
fn add_def(
    alloc: Global,
    into: &mut Module,
    name: NameId,
    statement: StmtId,
) -> Result<StmtId, NoMemory>
    requires name { name.index < length into.old.names }
    requires statement { statement.index < length into.old.stmts }
    ensures names { IfOk result (λ _. into.new.names ≡ into.old.names) }
    ensures exprs { IfOk result (λ _. into.new.exprs ≡ into.old.exprs) }
    ensures there { IfOk result (λ s. s.index < length into.new.stmts) }
    ensures still { IfOk result (λ _. statement.index < length into.new.stmts) }
{
    let function = into.add_stmt(StmtNode::Def {
        line: 1,
        last: 2,
        name,
        parameters: Vec::new(alloc),
        result: None,
        body: vec![in alloc; statement]?,
    })?;
    Ok(function)
}

#[test]
fn names_tell_what_the_module_defines(rt: HostRuntime) -> Result<(), Fail> {
    let alloc = rt.alloc();
    let mut module = Module::new(alloc);
    let name = module.add_name("twice")?;
    let statement = module.add_stmt(StmtNode::Pass { line: 2 })?;
    let function = add_def(alloc, &mut module, name, statement)?;
    module.push_top(function)?;
    let program = Program::new(alloc, module)?;
    assert!(rt; program.function_named(name) == Some(FnId { index: 0 }));
    assert!(rt; program.constant(name).is_none());
    assert!(rt; program.class_named(name).is_none());
    assert!(rt; (program.functions(), program.classes()) == (0, 0));
    Ok(())
}
