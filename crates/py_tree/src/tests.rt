use crate::{
    Argument, ArgumentsNode, ExcClass, ExprNode, Module, NameId, ParameterNode, StmtNode, TypeNode,
};
use std::test::Fail;

#[test]
fn equal_texts_have_one_id(rt: HostRuntime) -> Result<(), Fail> {
    let mut module = Module::new(rt.alloc());
    let table = [
        ("x", 0),
        ("range", 1),
        ("x", 0),
        ("é", 2),
        ("range", 1),
        ("", 3),
    ];
    for (text, index) in table {
        let name = module.add_name(text)?;
        assert_eq!(rt; name, NameId { index });
        assert_eq!(rt; name.index < module.names_count(), true);
        assert_eq!(rt; module.name_text(name), text);
    }
    assert_eq!(rt; module.names_count(), 4);
    Ok(())
}

#[test]
fn a_call_is_read_back(rt: HostRuntime) -> Result<(), Fail> {
    let alloc = rt.alloc();
    let mut module = Module::new(alloc);
    let name = module.add_name("f")?;
    let function = module.add_expr(ExprNode::Name { line: 3, name })?;
    let value = module.add_expr(ExprNode::Integer { line: 3, value: 7 })?;
    let mut arguments = Vec::new(alloc);
    arguments.push(Argument {
        name: Some(name),
        value,
    })?;
    let call = module.add_expr(ExprNode::Call {
        line: 3,
        function,
        arguments: ArgumentsNode::Listed(arguments),
    })?;
    assert_eq!(rt; (function.index, value.index, call.index), (0, 1, 2));
    assert_eq!(rt; module.exprs_count(), 3);
    let is_call = match module.expr(call) {
        ExprNode::Call {
            line,
            function: called,
            arguments: ArgumentsNode::Listed(listed),
        } => {
            *line == 3
                && *called == function
                && listed.as_slice()
                    == [Argument {
                        name: Some(name),
                        value,
                    }]
                    .as_slice()
        }
        _ => false,
    };
    assert!(rt; is_call);
    Ok(())
}

#[test]
fn a_function_is_read_back(rt: HostRuntime) -> Result<(), Fail> {
    let alloc = rt.alloc();
    let mut module = Module::new(alloc);
    let name = module.add_name("f")?;
    let parameter = module.add_name("x")?;
    let class = module.add_name("int")?;
    let annotation = module.add_type(TypeNode::Name {
        line: 1,
        name: class,
        arguments: Vec::new(alloc),
    })?;
    let value = module.add_expr(ExprNode::Name {
        line: 2,
        name: parameter,
    })?;
    let statement = module.add_stmt(StmtNode::Return {
        line: 2,
        value: Some(value),
    })?;
    let mut parameters = Vec::new(alloc);
    parameters.push(ParameterNode {
        name: parameter,
        annotation: Some(annotation),
        default: None,
    })?;
    let mut body = Vec::new(alloc);
    body.push(statement)?;
    let function = module.add_stmt(StmtNode::Def {
        line: 1,
        last: 2,
        name,
        parameters,
        result: Some(annotation),
        body,
    })?;
    module.push_top(function)?;
    assert_eq!(rt;
        (module.types_count(), module.stmts_count(), module.top()),
        (1, 2, 1)
    );
    assert_eq!(rt; module.top_stmt(0), function);
    let is_function = match module.stmt(function) {
        StmtNode::Def {
            line,
            last,
            body,
            ..
        } => { (*line, *last) == (1, 2) && body.as_slice() == [statement].as_slice() }
        _ => false,
    };
    assert!(rt; is_function);
    let is_int = match module.type_node(annotation) {
        TypeNode::Name { name, .. } => *name == class,
        _ => false,
    };
    assert!(rt; is_int);

    let list = module.add_names([class, name].as_slice())?;
    assert_eq!(rt; (module.lists_count(), module.names_len(list)), (1, 2));
    assert_eq!(rt; module.names_get(list, 1), name);
    Ok(())
}

#[test]
fn classes_stand_below_others(rt: HostRuntime) {
    let table = [
        (ExcClass::IndexError, ExcClass::IndexError, true),
        (ExcClass::IndexError, ExcClass::LookupError, true),
        (ExcClass::IndexError, ExcClass::Exception, true),
        (ExcClass::LookupError, ExcClass::IndexError, false),
        (ExcClass::UnboundLocalError, ExcClass::NameError, true),
        (ExcClass::KeyError, ExcClass::ValueError, false),
    ];
    for (class, wider, is_within) in table {
        assert_eq!(rt; class.within(wider), is_within);
    }
}
