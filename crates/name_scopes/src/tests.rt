ghost use Rattle.std.specs.Prelude.{◌≡◌, ◌<◌, length, IfOk, None};
ghost use Rattle.name_scopes.specs.Showing.{IsSized};

use crate::Scope;
use py_tree::{Argument, ExprId, ExprNode, Module, NameId, ParameterNode, StmtId, StmtNode};
use spec_contracts::LineKind;
use spec_names::Builtin;
use spec_uses::Meaning;
use std::alloc::Global;
use std::test::Fail;
use xh_outside::NoMemory;

/// A module with these names, of which no two are one.
fn named(alloc: Global, texts: &[&str]) -> Result<Module, NoMemory> {
    let mut module = Module::new(alloc);
    for text in texts {
        module.add_name(text)?;
    }
    Ok(module)
}

fn parameter(index: usize) -> ParameterNode
    ensures { result ≡ record { name = record { index = index }; annotation = None; default = None } }
{
    ParameterNode {
        name: NameId { index },
        annotation: None,
        default: None,
    }
}

/// What a name stands for.
fn meaning(scope: &Scope, module: &Module, index: usize) -> Meaning
    requires name { index < length «module».now.names }
    requires sized { IsSized «module».now.names scope.now }
{
    scope.meaning(module, NameId { index })
}

/// Whether `__old__` has a name.
fn is_old(scope: &Scope, module: &Module, index: usize) -> bool
    requires name { index < length «module».now.names }
    requires sized { IsSized «module».now.names scope.now }
{
    scope.is_old(module, NameId { index })
}

/// Adds a statement that assigns a name.
fn add_assignment(module: &mut Module, name: NameId) -> Result<StmtId, NoMemory>
    requires { name.index < length «module».old.names }
    ensures names { IfOk result (λ _. «module».new.names ≡ «module».old.names) }
    ensures below { IfOk result (λ s. s.index < length «module».new.stmts) }
{
    let target = module.add_expr(ExprNode::Name { line: 2, name })?;
    let value = module.add_expr(ExprNode::Integer { line: 2, value: 5 })?;
    let statement = module.add_stmt(StmtNode::Assign {
        line: 2,
        target,
        value,
    })?;
    Ok(statement)
}

#[test]
fn a_keyword_is_repeated_within_one_call(rt: HostRuntime) -> Result<(), Fail> {
    let mut module = named(rt.alloc(), &["x", "y"])?;
    let value = module.add_expr(ExprNode::Integer { line: 1, value: 5 })?;
    assert!(rt; module.names_count() == 2);
    let name = Some(NameId { index: 0 });
    let first = Argument { name, value };
    let name = Some(NameId { index: 1 });
    let second = Argument { name, value };
    let plain = Argument { name: None, value };
    let mut scope = Scope::new(rt.alloc(), &module)?;
    assert!(rt; scope.are_repeated(&module, &[first, plain, second, first]));
    assert!(rt; !scope.are_repeated(&module, &[plain, plain, first, second]));
    Ok(())
}

#[test]
fn parameters_and_targets_are_local_in_a_body(rt: HostRuntime) -> Result<(), Fail> {
    let mut module = named(rt.alloc(), &["x", "y", "z", "len"])?;
    assert!(rt; module.names_count() == 4);
    let assignment = add_assignment(&mut module, NameId { index: 1 })?;
    let mut scope = Scope::new(rt.alloc(), &module)?;
    scope.enter_body(&module, &[parameter(0)], &[assignment])?;
    assert!(rt; meaning(&scope, &module, 0) == Meaning::Local);
    assert!(rt; meaning(&scope, &module, 1) == Meaning::Local);
    assert!(rt; meaning(&scope, &module, 2) == Meaning::Unknown);
    assert!(rt; meaning(&scope, &module, 3) == Meaning::BuiltIn(Builtin::Len));
    Ok(())
}

#[test]
fn a_post_line_has_the_result_and_the_arguments(rt: HostRuntime) -> Result<(), Fail> {
    let module = named(rt.alloc(), &["x", "_", "__old__"])?;
    assert!(rt; module.names_count() == 3);
    let mut scope = Scope::new(rt.alloc(), &module)?;
    scope.enter_function(&module, false, &[parameter(0)])?;
    scope.enter_line(LineKind::Post);
    assert!(rt; meaning(&scope, &module, 0) == Meaning::Local);
    assert!(rt; meaning(&scope, &module, 1) == Meaning::Result);
    assert!(rt; meaning(&scope, &module, 2) == Meaning::Old);
    assert!(rt; is_old(&scope, &module, 0));
    scope.enter_function(&module, false, &[parameter(1)])?;
    assert!(rt; meaning(&scope, &module, 1) == Meaning::Local);
    assert!(rt; !is_old(&scope, &module, 0));
    Ok(())
}

#[test]
fn the_lines_of_one_function_each_see_what_their_kind_does(rt: HostRuntime) -> Result<(), Fail> {
    let module = named(rt.alloc(), &["self", "x", "__return__"])?;
    assert!(rt; module.names_count() == 3);
    let mut scope = Scope::new(rt.alloc(), &module)?;
    scope.enter_function(&module, true, &[parameter(0), parameter(1)])?;
    scope.enter_line(LineKind::Pre);
    assert!(rt; meaning(&scope, &module, 0) == Meaning::Unknown);
    assert!(rt; meaning(&scope, &module, 1) == Meaning::Local);
    assert!(rt; meaning(&scope, &module, 2) == Meaning::Unknown);
    assert!(rt; !is_old(&scope, &module, 1));
    scope.enter_line(LineKind::Post);
    assert!(rt; meaning(&scope, &module, 0) == Meaning::Local);
    assert!(rt; meaning(&scope, &module, 2) == Meaning::Result);
    assert!(rt; !is_old(&scope, &module, 0));
    assert!(rt; is_old(&scope, &module, 1));
    scope.enter_line(LineKind::Raises);
    assert!(rt; meaning(&scope, &module, 1) == Meaning::Unknown);
    scope.enter_line(LineKind::Invariant);
    assert!(rt; meaning(&scope, &module, 0) == Meaning::Local);
    assert!(rt; meaning(&scope, &module, 1) == Meaning::Unknown);
    Ok(())
}

#[test]
fn a_variable_is_local_where_a_parameter_is_not(rt: HostRuntime) -> Result<(), Fail> {
    let module = named(rt.alloc(), &["self"])?;
    assert!(rt; module.names_count() == 1);
    let name = NameId { index: 0 };
    let mut scope = Scope::new(rt.alloc(), &module)?;
    scope.enter_function(&module, true, &[parameter(0)])?;
    scope.enter_line(LineKind::Pre);
    assert!(rt; !scope.is_variable(name));
    scope.set_variable(name, true);
    assert!(rt; scope.is_variable(name));
    assert!(rt; meaning(&scope, &module, 0) == Meaning::Local);
    scope.set_variable(name, false);
    assert!(rt; meaning(&scope, &module, 0) == Meaning::Unknown);
    Ok(())
}
