use crate::{SyntaxError, expression, module, type_text};
use py_tokens::{TokenError, scan};
use py_tree::{ExprId, ExprNode, Module, NameId, StmtId, StmtNode, TypeId, TypeNode};
use std::test::Fail;

/// The line of all texts.
const LINE: u32 = 7;

/// So many copies of a text, another one, and as many copies of a third.
fn repeated(
    rt: &HostRuntime,
    count: u32,
    before: &str,
    inside: &str,
    after: &str,
) -> Result<String, Fail> {
    let mut text = String::new(rt.alloc());
    for _ in 0..count {
        text.push_str(before)?;
    }
    text.push_str(inside)?;
    for _ in 0..count {
        text.push_str(after)?;
    }
    Ok(text)
}

fn name_at(module: &Module, n: NameId) -> &str {
    if n.index < module.names_count() {
        return module.name_text(n);
    }
    "nothing"
}

/// Writes a node behind its line, without its parts.
fn write_expr(shown: &mut String, module: &Module, node: &ExprNode) -> Result<(), Fail> {
    match node {
        ExprNode::Name { line, name } => write!(shown, " {line}:{}", name_at(module, *name))?,
        ExprNode::Integer { line, value } => write!(shown, " {line}:{value}")?,
        ExprNode::Text { line, first, .. } => {
            write!(shown, " {line}:{}:'{}'", first.line, first.source.as_str())?
        }
        ExprNode::Group { line, .. } => write!(shown, " {line}:()")?,
        ExprNode::Binary { line, operator, .. } => write!(shown, " {line}:{operator:?}")?,
        _ => write!(shown, " other")?,
    }
    Ok(())
}

fn write_exprs(shown: &mut String, module: &Module) -> Result<(), Fail> {
    for index in 0..module.exprs_count() {
        write_expr(shown, module, module.expr(ExprId { index }))?;
    }
    Ok(())
}

/// Writes a node behind its line, with the number of its arguments or further types.
fn write_type(shown: &mut String, module: &Module, node: &TypeNode) -> Result<(), Fail> {
    match node {
        TypeNode::Name {
            line,
            name,
            arguments,
        } => write!(
            shown,
            " {line}:{}{}",
            name_at(module, *name),
            arguments.len()
        )?,
        TypeNode::Union { line, rest, .. } => write!(shown, " {line}:|{}", rest.len())?,
        TypeNode::None { line } => write!(shown, " {line}:None")?,
        TypeNode::Text { line, part } => {
            write!(shown, " {line}:{}:'{}'", part.line, part.source.as_str())?
        }
    }
    Ok(())
}

fn write_types(shown: &mut String, module: &Module) -> Result<(), Fail> {
    for index in 0..module.types_count() {
        write_type(shown, module, module.type_node(TypeId { index }))?;
    }
    Ok(())
}

/// The nodes of the expression that a text is, or the error. A long text is not read.
fn expression_of(rt: &HostRuntime, text: &str) -> Result<String, Fail> {
    if text.len() > 4096 {
        return Err(SyntaxError::NoMemory.into());
    }
    let mut module = Module::new(rt.alloc());
    let mut shown = String::new(rt.alloc());
    match expression(rt.alloc(), text, LINE, &mut module) {
        Ok(_) => write_exprs(&mut shown, &module)?,
        Err(SyntaxError::NoMemory) => return Err(SyntaxError::NoMemory.into()),
        Err(error) => write!(shown, "{error:?}")?,
    }
    Ok(shown)
}

/// The nodes of the type that a text is, or the error. A long text is not read.
fn type_of(rt: &HostRuntime, text: &str) -> Result<String, Fail> {
    if text.len() > 4096 {
        return Err(SyntaxError::NoMemory.into());
    }
    let mut module = Module::new(rt.alloc());
    let mut shown = String::new(rt.alloc());
    match type_text(rt.alloc(), text, LINE, &mut module) {
        Ok(_) => write_types(&mut shown, &module)?,
        Err(SyntaxError::NoMemory) => return Err(SyntaxError::NoMemory.into()),
        Err(error) => write!(shown, "{error:?}")?,
    }
    Ok(shown)
}

#[test]
fn expressions_stand_on_one_line(rt: HostRuntime) -> Result<(), Fail> {
    for (text, nodes) in [
        ("x + 1", " 7:x 7:1 7:Add"),
        ("  \tx", " 7:x"),
        (" é", " 7:é"),
        ("x #c", " 7:x"),
        ("x\n", " 7:x"),
        ("(x\n)", " 7:x 7:()"),
        ("'''a\nb'''", " 7:7:'a\nb'"),
        ("", "Line(7)"),
        ("#c", "Line(7)"),
        ("x y", "Line(7)"),
        ("x = 1", "Line(7)"),
        ("x\ny", "Line(7)"),
        ("\n x", "Line(7)"),
        ("1 +", "Line(7)"),
        ("'a", "Line(7)"),
        ("(x", "Line(7)"),
    ] {
        assert_eq!(rt; expression_of(&rt, text)?.as_str(), nodes, "of {text}");
    }
    Ok(())
}

#[test]
fn types_stand_on_one_line(rt: HostRuntime) -> Result<(), Fail> {
    for (text, nodes) in [
        ("int", " 7:int0"),
        (" list[int]", " 7:int0 7:list1"),
        ("dict[str,\n int]", " 7:str0 7:int0 7:dict2"),
        ("dict[str, int]", " 7:str0 7:int0 7:dict2"),
        ("'C'", " 7:7:'C'"),
        ("int | None", " 7:int0 7:None 7:|1"),
        ("", "Line(7)"),
        ("int |", "Line(7)"),
        ("int str", "Line(7)"),
        ("int\nstr", "Line(7)"),
        ("1", "Line(7)"),
    ] {
        assert_eq!(rt; type_of(&rt, text)?.as_str(), nodes, "of {text}");
    }
    Ok(())
}

#[test]
fn deep_texts_are_refused(rt: HostRuntime) -> Result<(), Fail> {
    for (before, inside, after) in [("[", "", "]"), ("not ", "x", ""), ("x + ", "x", "")] {
        let admitted = repeated(&rt, 100, before, inside, after)?;
        assert!(rt;
            expression_of(&rt, &admitted)?.as_str() != "TooDeep(7)",
            "100 {before}"
        );
        let refused = repeated(&rt, 101, before, inside, after)?;
        assert_eq!(rt;
            expression_of(&rt, &refused)?.as_str(),
            "TooDeep(7)",
            "101 {before}"
        );
    }
    let admitted = repeated(&rt, 100, "a[", "b", "]")?;
    assert!(rt; type_of(&rt, &admitted)?.as_str() != "TooDeep(7)");
    let refused = repeated(&rt, 101, "a[", "b", "]")?;
    assert_eq!(rt; type_of(&rt, &refused)?.as_str(), "TooDeep(7)");
    Ok(())
}

/// Writes the number of statements of the module itself, and the lines of each function and class.
fn write_module(shown: &mut String, module: &Module) -> Result<(), Fail> {
    write!(shown, "{}", module.top())?;
    for index in 0..module.stmts_count() {
        match module.stmt(StmtId { index }) {
            StmtNode::Def { line, last, .. } => write!(shown, " def {line}-{last}")?,
            StmtNode::Class { line, last, .. } => write!(shown, " class {line}-{last}")?,
            _ => {}
        }
    }
    Ok(())
}

/// What a whole text is. A long text is not read.
fn read(rt: &HostRuntime, text: &str) -> Result<String, Fail> {
    if text.len() > 4096 {
        return Err(TokenError::NoMemory.into());
    }
    let tokens = scan(rt.alloc(), text)?;
    let mut shown = String::new(rt.alloc());
    match module(rt.alloc(), &tokens) {
        Ok(module) => write_module(&mut shown, &module)?,
        Err(SyntaxError::Line(line)) => write!(shown, "line {line}")?,
        Err(SyntaxError::TooDeep(line)) => write!(shown, "deep {line}")?,
        Err(SyntaxError::Block(line)) => write!(shown, "block {line}")?,
        Err(SyntaxError::NoMemory) => return Err(TokenError::NoMemory.into()),
    }
    Ok(shown)
}

#[test]
fn modules_are_read(rt: HostRuntime) -> Result<(), Fail> {
    for (text, shown) in [
        ("", "0"),
        ("\n# nothing\n", "0"),
        ("x = 1\ny\n", "2"),
        (
            "def f():\n  if a:\n    return '''\n'''\n\nclass A: pass\n",
            "2 def 1-4 class 6-6",
        ),
        ("x = 1\n y = 2\n", "block 2"),
        ("return 1\n", "block 1"),
        ("if a:\nx\n", "block 1"),
        ("if x\n", "line 1"),
        ("return 1\nx y\n", "line 2"),
    ] {
        assert_eq!(rt; read(&rt, text)?.as_str(), shown, "of {text}");
    }
    Ok(())
}

/// What a text is whose last line is a name with so many attributes.
fn read_long(rt: &HostRuntime, first: &str, count: u32) -> Result<String, Fail> {
    let mut text = String::new(rt.alloc());
    text.push_str(first)?;
    let long = repeated(rt, count, "", "x", ".a")?;
    text.push_str(&long)?;
    read(rt, &text)
}

#[test]
fn phases_come_one_behind_the_other(rt: HostRuntime) -> Result<(), Fail> {
    for (first, count, shown) in [
        ("", 100, "1"),
        ("", 101, "deep 1"),
        ("return 1\n", 101, "deep 2"),
        ("x y\n", 101, "line 1"),
    ] {
        assert_eq!(rt; read_long(&rt, first, count)?.as_str(), shown, "of {first}");
    }
    let deep = repeated(&rt, 101, "not ", "x\nx y\n", "")?;
    assert_eq!(rt; read(&rt, &deep)?.as_str(), "deep 1");
    Ok(())
}
