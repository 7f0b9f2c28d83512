ghost use Rattle.std.specs.Prelude.{◌≡◌, ◌<◌, length, IfOk};

use crate::{
    Member, bare, is_builtin, is_constant, is_exception, is_given, line_of, line_of_expression,
    member_of, method_of, methods,
};
use py_tree::{ExprNode, Module, NameId, Prefix, StmtId, StmtNode};
use std::test::Fail;
use xh_outside::NoMemory;

/// Adds a statement that gives a name the value 5.
fn add_constant(into: &mut Module, name: NameId) -> Result<StmtId, NoMemory>
    requires { name.index < length into.old.names }
    ensures { IfOk result (λ s. s.index < length into.new.stmts) }
{
    let target = into.add_expr(ExprNode::Name { line: 4, name })?;
    let value = into.add_expr(ExprNode::Integer { line: 4, value: 5 })?;
    let statement = into.add_stmt(StmtNode::Assign {
        line: 4,
        target,
        value,
    })?;
    Ok(statement)
}

#[test]
fn constants_are_literals_in_any_brackets(rt: HostRuntime) -> Result<(), Fail> {
    let mut module = Module::new(rt.alloc());
    let five = module.add_expr(ExprNode::Integer { line: 3, value: 5 })?;
    let negative = module.add_expr(ExprNode::Prefixed {
        line: 3,
        operator: Prefix::Minus,
        operand: five,
    })?;
    let grouped = module.add_expr(ExprNode::Group {
        line: 2,
        inner: negative,
    })?;
    let twice = module.add_expr(ExprNode::Prefixed {
        line: 1,
        operator: Prefix::Minus,
        operand: grouped,
    })?;
    assert!(rt; bare(&module, grouped) == negative);
    assert!(rt; is_constant(&module, grouped));
    assert!(rt; !is_constant(&module, twice));
    assert_eq!(rt; line_of_expression(&module, grouped), 2);
    Ok(())
}

#[test]
fn a_constant_is_a_member_of_a_module_and_of_no_class(rt: HostRuntime) -> Result<(), Fail> {
    let mut module = Module::new(rt.alloc());
    let name = module.add_name("X")?;
    let statement = add_constant(&mut module, name)?;
    assert!(rt; member_of(&module, statement) == Some(Member::Constant(name)));
    assert!(rt; method_of(&module, statement) == None);
    assert!(rt; methods(&module, statement).is_empty());
    assert_eq!(rt; line_of(&module, statement), 4);
    Ok(())
}

#[test]
fn names_of_built_in_functions_and_exception_classes_are_given(
    rt: HostRuntime,
) -> Result<(), Fail> {
    assert!(rt; is_builtin("len"));
    assert!(rt; !is_builtin("KeyError"));
    assert!(rt; is_exception("KeyError"));
    assert!(rt; is_given("len"));
    assert!(rt; !is_given("lens"));
    Ok(())
}
