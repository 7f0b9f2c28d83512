use crate::told_of_block;
use name_scopes::Scope;
use py_tree::{ArgumentsNode, ExprNode, HandlerNode, Module, StmtNode};
use spec_names::{ProfileFault, Refusal};
use std::test::Fail;

#[test]
fn a_body_reads_no_unknown_name(rt: HostRuntime) -> Result<(), Fail> {
    let alloc = rt.alloc();
    let mut module = Module::new(alloc);
    let name = module.add_name("x")?;
    let unknown = module.add_name("y")?;
    let target = module.add_expr(ExprNode::Name { line: 2, name })?;
    let value = module.add_expr(ExprNode::Name {
        line: 2,
        name: unknown,
    })?;
    let assignment = module.add_stmt(StmtNode::Assign {
        line: 2,
        target,
        value,
    })?;
    let reading = module.add_stmt(StmtNode::Evaluate {
        line: 3,
        value: target,
    })?;
    let mut scope = Scope::new(alloc, &module)?;
    scope.enter_body(&module, &[], &[assignment])?;
    assert!(rt; told_of_block(&module, &mut scope, &[reading], None) == None);
    let refusal = Refusal {
        line: 2,
        fault: ProfileFault::UnknownName,
    };
    assert!(rt; told_of_block(&module, &mut scope, &[assignment], None) == Some(refusal));
    Ok(())
}

#[test]
fn only_exception_classes_are_raised(rt: HostRuntime) -> Result<(), Fail> {
    let alloc = rt.alloc();
    let mut module = Module::new(alloc);
    let class = module.add_name("Car")?;
    let exception = module.add_name("ValueError")?;
    let definition = module.add_stmt(StmtNode::Class {
        line: 1,
        last: 2,
        name: class,
        body: Vec::new(alloc),
    })?;
    module.push_top(definition)?;
    let wrong = module.add_stmt(StmtNode::Raise {
        line: 4,
        class,
        arguments: Some(ArgumentsNode::Listed(Vec::new(alloc))),
    })?;
    let right = module.add_stmt(StmtNode::Raise {
        line: 5,
        class: exception,
        arguments: None,
    })?;
    let mut scope = Scope::new(alloc, &module)?;
    scope.enter_body(&module, &[], &[wrong, right])?;
    assert!(rt; told_of_block(&module, &mut scope, &[right], None) == None);
    let refusal = Refusal {
        line: 4,
        fault: ProfileFault::Form,
    };
    assert!(rt; told_of_block(&module, &mut scope, &[right, wrong], None) == Some(refusal));
    Ok(())
}

#[test]
fn no_unknown_class_is_caught(rt: HostRuntime) -> Result<(), Fail> {
    let alloc = rt.alloc();
    let mut module = Module::new(alloc);
    let exception = module.add_name("KeyError")?;
    let unknown = module.add_name("Unknown")?;
    let classes = module.add_names(&[exception, unknown])?;
    let pass = module.add_stmt(StmtNode::Pass { line: 3 })?;
    let handler = HandlerNode {
        line: 4,
        classes,
        body: vec![in alloc; pass]?,
    };
    let attempt = module.add_stmt(StmtNode::Try {
        line: 2,
        body: vec![in alloc; pass]?,
        handlers: vec![in alloc; handler]?,
        otherwise: Vec::new(alloc),
    })?;
    let mut scope = Scope::new(alloc, &module)?;
    scope.enter_body(&module, &[], &[attempt])?;
    let refusal = Refusal {
        line: 4,
        fault: ProfileFault::UnknownName,
    };
    assert!(rt; told_of_block(&module, &mut scope, &[attempt], None) == Some(refusal));
    Ok(())
}
