use crate::add_assigned;
use name_sets::NameSet;
use py_tree::{ExprNode, Module, StmtNode};
use std::test::Fail;

#[test]
fn targets_and_variables_are_assigned(rt: HostRuntime) -> Result<(), Fail> {
    let alloc = rt.alloc();
    let mut module = Module::new(alloc);
    let variable = module.add_name("i")?;
    let name = module.add_name("x")?;
    let read = module.add_name("y")?;
    let target = module.add_expr(ExprNode::Name { line: 2, name })?;
    let value = module.add_expr(ExprNode::Name {
        line: 2,
        name: read,
    })?;
    let assignment = module.add_stmt(StmtNode::Assign {
        line: 2,
        target,
        value,
    })?;
    let walk = module.add_stmt(StmtNode::For {
        line: 1,
        variable,
        iterable: value,
        body: vec![in alloc; assignment]?,
        otherwise: Vec::new(alloc),
    })?;
    let mut names = NameSet::new(alloc, module.names_count())?;
    add_assigned(&module, &[walk], &mut names);
    assert!(rt; names.contains(variable));
    assert!(rt; names.contains(name));
    assert!(rt; !names.contains(read));
    Ok(())
}
