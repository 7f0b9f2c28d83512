ghost use Rattle.std.specs.Prelude.{◌≡◌, ◌<◌, ◌≤◌, length, IfOk};

use crate::{ClassId, FnId, Owned, Owner, docstring, owners, parameters};
use py_text::Text;
use py_tree::{ExprNode, Module, NameId, ParameterNode, StmtId, StmtNode, StrPart};
use std::alloc::Global;
use std::test::Fail;
use xh_outside::{Name, NoMemory};

/// Adds a statement that is one string literal. Its value is left empty, since only its source is read here.
fn add_text(alloc: Global, into: &mut Module, source: &str) -> Result<StmtId, NoMemory>
    ensures names { IfOk result (λ _. into.new.names ≡ into.old.names) }
    ensures grown { IfOk result (λ _. length into.old.stmts ≤ length into.new.stmts) }
    ensures below { IfOk result (λ s. s.index < length into.new.stmts) }
{
    let first = StrPart {
        value: Text::new(alloc),
        source: Name::from_str(alloc, source)?,
        raw: false,
        indent: 4,
        line: 2,
    };
    let value = into.add_expr(ExprNode::Text {
        line: 2,
        first,
        rest: Vec::new(alloc),
    })?;
    let statement = into.add_stmt(StmtNode::Evaluate { line: 2, value })?;
    Ok(statement)
}

/// Adds a function of one parameter, whose body is one statement.
fn add_function(
    alloc: Global,
    into: &mut Module,
    name: NameId,
    parameter: NameId,
    statement: StmtId,
) -> Result<StmtId, NoMemory>
    requires name { name.index < length into.old.names }
    requires parameter { parameter.index < length into.old.names }
    requires statement { statement.index < length into.old.stmts }
    ensures names { IfOk result (λ _. into.new.names ≡ into.old.names) }
    ensures grown { IfOk result (λ _. length into.old.stmts ≤ length into.new.stmts) }
    ensures below { IfOk result (λ s. s.index < length into.new.stmts) }
{
    let parameter = ParameterNode {
        name: parameter,
        annotation: None,
        default: None,
    };
    let function = into.add_stmt(StmtNode::Def {
        line: 1,
        last: 2,
        name,
        parameters: vec![in alloc; parameter]?,
        result: None,
        body: vec![in alloc; statement]?,
    })?;
    Ok(function)
}

/// Adds a class whose body is three statements.
fn add_class(
    alloc: Global,
    into: &mut Module,
    name: NameId,
    first: StmtId,
    second: StmtId,
    third: StmtId,
) -> Result<StmtId, NoMemory>
    requires name { name.index < length into.old.names }
    requires first { first.index < length into.old.stmts }
    requires second { second.index < length into.old.stmts }
    requires third { third.index < length into.old.stmts }
    ensures names { IfOk result (λ _. into.new.names ≡ into.old.names) }
    ensures grown { IfOk result (λ _. length into.old.stmts ≤ length into.new.stmts) }
    ensures below { IfOk result (λ s. s.index < length into.new.stmts) }
{
    let class = into.add_stmt(StmtNode::Class {
        line: 1,
        last: 6,
        name,
        body: vec![in alloc; first, second, third]?,
    })?;
    Ok(class)
}

fn function_owned(index: usize, statement: StmtId) -> Owned {
    Owned {
        owner: Owner::Function(FnId { index }),
        statement,
    }
}

fn class_owned(index: usize, statement: StmtId) -> Owned {
    Owned {
        owner: Owner::Class(ClassId { index }),
        statement,
    }
}

#[test]
fn owners_are_numbered_in_the_order_of_lines(rt: HostRuntime) -> Result<(), Fail> {
    let alloc = rt.alloc();
    let mut module = Module::new(alloc);
    let name = module.add_name("f")?;
    let pass = module.add_stmt(StmtNode::Pass { line: 2 })?;
    let function = add_function(alloc, &mut module, name, name, pass)?;
    let method = add_function(alloc, &mut module, name, name, pass)?;
    let other_method = add_function(alloc, &mut module, name, name, pass)?;
    let class = add_class(alloc, &mut module, name, method, pass, other_method)?;
    let other_function = add_function(alloc, &mut module, name, name, pass)?;
    module.push_top(function)?;
    module.push_top(pass)?;
    module.push_top(class)?;
    module.push_top(other_function)?;
    let want = [
        function_owned(0, function),
        class_owned(0, class),
        function_owned(1, method),
        function_owned(2, other_method),
        function_owned(3, other_function),
    ];
    let found = owners(alloc, &module)?;
    assert!(rt; found.as_slice() == want.as_slice());
    Ok(())
}

#[test]
fn a_docstring_is_a_string_literal_alone(rt: HostRuntime) -> Result<(), Fail> {
    let alloc = rt.alloc();
    let mut module = Module::new(alloc);
    let name = module.add_name("f")?;
    let pass = module.add_stmt(StmtNode::Pass { line: 2 })?;
    let text = add_text(alloc, &mut module, "post: x")?;
    let function = add_function(alloc, &mut module, name, name, text)?;
    let bare_function = add_function(alloc, &mut module, name, name, pass)?;
    let class = add_class(alloc, &mut module, name, text, function, pass)?;
    let bare_class = add_class(alloc, &mut module, name, function, text, pass)?;
    for (statement, want) in [
        (function, Some("post: x")),
        (bare_function, None),
        (class, Some("post: x")),
        (bare_class, None),
        (text, None),
    ] {
        let source = docstring(&module, statement).map(|part| part.source.as_str());
        assert!(rt; source == want);
    }
    Ok(())
}

#[test]
fn functions_have_parameters(rt: HostRuntime) -> Result<(), Fail> {
    let alloc = rt.alloc();
    let mut module = Module::new(alloc);
    let name = module.add_name("f")?;
    let parameter = module.add_name("x")?;
    let pass = module.add_stmt(StmtNode::Pass { line: 2 })?;
    let function = add_function(alloc, &mut module, name, parameter, pass)?;
    let class = add_class(alloc, &mut module, name, function, pass, pass)?;
    let want = [ParameterNode {
        name: parameter,
        annotation: None,
        default: None,
    }];
    assert!(rt; parameters(&module, function) == want.as_slice());
    assert!(rt; parameters(&module, class).is_empty());
    Ok(())
}
