use crate::Meanings;
use py_tree::{ExprNode, Module, StmtNode};
use spec_names::Builtin;
use spec_uses::Meaning;
use std::test::Fail;

#[test]
fn the_first_definition_of_a_name_counts(rt: HostRuntime) -> Result<(), Fail> {
    let alloc = rt.alloc();
    let mut module = Module::new(alloc);
    let name = module.add_name("X")?;
    let len = module.add_name("len")?;
    let error = module.add_name("KeyError")?;
    let other = module.add_name("y")?;
    let target = module.add_expr(ExprNode::Name { line: 1, name })?;
    let value = module.add_expr(ExprNode::Integer { line: 1, value: 5 })?;
    let constant = module.add_stmt(StmtNode::Assign {
        line: 1,
        target,
        value,
    })?;
    let class = module.add_stmt(StmtNode::Class {
        line: 2,
        last: 2,
        name,
        body: Vec::new(alloc),
    })?;
    module.push_top(constant)?;
    module.push_top(class)?;
    let meanings = Meanings::new(alloc, &module)?;
    assert!(rt; meanings.get(name) == Meaning::Constant);
    assert!(rt; meanings.get(len) == Meaning::BuiltIn(Builtin::Len));
    assert!(rt; meanings.get(error) == Meaning::Exception);
    assert!(rt; meanings.get(other) == Meaning::Unknown);
    Ok(())
}
