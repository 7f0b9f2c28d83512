use crate::told_of_expression;
use name_scopes::Scope;
use py_tree::{ExprNode, GeneratorNode, Module};
use spec_names::{ProfileFault, Refusal};
use spec_uses::Place;
use std::test::Fail;

#[test]
fn variables_are_seen_in_their_comprehensions_alone(rt: HostRuntime) -> Result<(), Fail> {
    let alloc = rt.alloc();
    let mut module = Module::new(alloc);
    let variable = module.add_name("i")?;
    let iterable = module.add_expr(ExprNode::List {
        line: 1,
        items: Vec::new(alloc),
    })?;
    let element = module.add_expr(ExprNode::Name {
        line: 1,
        name: variable,
    })?;
    let comprehension = module.add_expr(ExprNode::Comprehension {
        line: 1,
        generator: GeneratorNode {
            element,
            variable,
            iterable,
            conditions: Vec::new(alloc),
        },
    })?;
    let mut scope = Scope::new(alloc, &module)?;
    let told = told_of_expression(&module, &mut scope, Place::Read, comprehension, None);
    assert!(rt; told.is_none());
    let unknown = Refusal {
        line: 1,
        fault: ProfileFault::UnknownName,
    };
    let told = told_of_expression(&module, &mut scope, Place::Read, element, told);
    assert!(rt; told == Some(unknown));
    Ok(())
}

#[test]
fn built_in_functions_are_called_and_not_read(rt: HostRuntime) -> Result<(), Fail> {
    let alloc = rt.alloc();
    let mut module = Module::new(alloc);
    let name = module.add_name("len")?;
    let function = module.add_expr(ExprNode::Name { line: 2, name })?;
    let mut scope = Scope::new(alloc, &module)?;
    let told = told_of_expression(&module, &mut scope, Place::Called(1), function, None);
    assert!(rt; told.is_none());
    let form = Refusal {
        line: 2,
        fault: ProfileFault::Form,
    };
    let told = told_of_expression(&module, &mut scope, Place::Read, function, told);
    assert!(rt; told == Some(form));
    Ok(())
}
