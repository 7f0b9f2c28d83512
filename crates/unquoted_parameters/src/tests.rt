use crate::parameters;
use module_functions::functions;
use py_parser::{SyntaxError, module};
use py_tokens::scan;
use py_tree::{ExprId, ExprNode, Module, NameId, ParameterNode, TypeId, TypeNode};
use std::test::Fail;

/// The text of a name.
fn name_at(module: &Module, n: NameId) -> &str {
    if n.index < module.names_count() {
        return module.name_text(n);
    }
    "nothing"
}

/// Writes a type without its parts.
fn write_head(shown: &mut String, module: &Module, t: TypeId) -> Result<(), Fail> {
    if t.index >= module.types_count() {
        return Ok(());
    }
    match module.type_node(t) {
        TypeNode::Name { name, .. } => write!(shown, "{}", name_at(module, *name))?,
        TypeNode::Union { .. } => write!(shown, "|")?,
        TypeNode::None { .. } => write!(shown, "None")?,
        TypeNode::Text { part, .. } => write!(shown, "'{}'", part.source.as_str())?,
    }
    Ok(())
}

/// Writes a type with the heads of its arguments.
fn write_type(shown: &mut String, module: &Module, t: TypeId) -> Result<(), Fail> {
    write_head(shown, module, t)?;
    if t.index >= module.types_count() {
        return Ok(());
    }
    if let TypeNode::Name { arguments, .. } = module.type_node(t) {
        for argument in arguments {
            write!(shown, "[")?;
            write_head(shown, module, *argument)?;
            write!(shown, "]")?;
        }
    }
    Ok(())
}

/// Writes an integer.
fn write_integer(shown: &mut String, module: &Module, e: ExprId) -> Result<(), Fail> {
    if e.index >= module.exprs_count() {
        return Ok(());
    }
    if let ExprNode::Integer { value, .. } = module.expr(e) {
        write!(shown, "{value}")?;
    }
    Ok(())
}

fn write_parameter(
    shown: &mut String,
    module: &Module,
    parameter: &ParameterNode,
) -> Result<(), Fail> {
    write!(shown, " {}", name_at(module, parameter.name))?;
    if let Some(t) = parameter.annotation {
        write!(shown, ":")?;
        write_type(shown, module, t)?;
    }
    if let Some(e) = parameter.default {
        write!(shown, "=")?;
        write_integer(shown, module, e)?;
    }
    Ok(())
}

/// The parameters of the functions of a text, those of each behind a `def`. A long text is not read.
fn exchanged(rt: &HostRuntime, text: &str) -> Result<String, Fail> {
    if text.len() > 4096 {
        return Err(SyntaxError::NoMemory.into());
    }
    let tokens = scan(rt.alloc(), text)?;
    let mut read = module(rt.alloc(), &tokens)?;
    let found = functions(rt.alloc(), &read)?;
    let lists = parameters(rt.alloc(), &mut read, &found)?;
    let mut shown = String::new(rt.alloc());
    for list in &lists {
        write!(shown, " def")?;
        for parameter in list {
            write_parameter(&mut shown, &read, parameter)?;
        }
    }
    Ok(shown)
}

#[test]
fn annotations_have_the_types_that_strings_hold(rt: HostRuntime) -> Result<(), Fail> {
    for (text, shown) in [
        ("x: int = 1\n", ""),
        ("def f():\n    pass\n", " def"),
        (
            "def f(a, b: int = 7, c: 'C' = 8):\n    pass\n",
            " def a b:int=7 c:C=8",
        ),
        (
            "def f(a: List['C'], b: '\"C\"'):\n    pass\n",
            " def a:List[C] b:C",
        ),
        (
            "def f(a: dict['A', 'x y'], b: 'x y', c: 'D'):\n    pass\n",
            " def a:dict['A']['x y'] b:'x y' c:D",
        ),
        (
            "def f(a: 'A'):\n    pass\nclass C:\n    def g(self, a: 'A | B'):\n        pass\ndef h(a: 'None'):\n    pass\n",
            " def a:A def self a:| def a:None",
        ),
    ] {
        assert_eq!(rt; exchanged(&rt, text)?.as_str(), shown, "of {text}");
    }
    Ok(())
}
