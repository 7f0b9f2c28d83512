use crate::{HeaderNode, LineNode, Unread, read_header, read_line};
use py_tokens::{TokenError, scan};
use py_tree::{
    ExprId, ExprNode, Module, NameId, NamesId, ParameterNode, StmtId, StmtNode, TypeId, TypeNode,
};
use py_words::{LineWords, word_lines};
use std::test::Fail;
use xh_outside::NoMemory;

/// The words of the first logical line of a text. A long text is not read.
fn words_of(rt: &HostRuntime, text: &str) -> Result<LineWords, Fail> {
    if text.len() > 4096 {
        return Err(TokenError::NoMemory.into());
    }
    let tokens = scan(rt.alloc(), text)?;
    match word_lines(rt.alloc(), &tokens)?.into_iter().next() {
        Some(line) => Ok(line.words),
        None => Ok(LineWords::new(rt.alloc())),
    }
}

fn name_at(module: &Module, n: NameId) -> &str {
    if n.index < module.names_count() {
        return module.name_text(n);
    }
    "nothing"
}

/// A name or an integer. Other expressions are tested where they are read.
fn write_expr(text: &mut String, module: &Module, e: ExprId) -> Result<(), Fail> {
    if e.index < module.exprs_count() {
        match module.expr(e) {
            ExprNode::Name { name, .. } => write!(text, "{}", name_at(module, *name))?,
            ExprNode::Integer { value, .. } => write!(text, "{value}")?,
            _ => write!(text, "other")?,
        }
    }
    Ok(())
}

/// A name without arguments, or None.
fn write_type(text: &mut String, module: &Module, t: TypeId) -> Result<(), Fail> {
    if t.index < module.types_count() {
        match module.type_node(t) {
            TypeNode::Name { name, .. } => write!(text, "{}", name_at(module, *name))?,
            TypeNode::None { .. } => write!(text, "None")?,
            _ => write!(text, "other")?,
        }
    }
    Ok(())
}

fn write_parameters(
    text: &mut String,
    module: &Module,
    parameters: &[ParameterNode],
) -> Result<(), Fail> {
    for parameter in parameters {
        write!(text, "{}", name_at(module, parameter.name))?;
        if let Some(annotation) = parameter.annotation {
            write!(text, ": ")?;
            write_type(text, module, annotation)?;
        }
        if let Some(default) = parameter.default {
            write!(text, " = ")?;
            write_expr(text, module, default)?;
        }
        write!(text, ";")?;
    }
    Ok(())
}

fn write_names(text: &mut String, module: &Module, names: NamesId) -> Result<(), Fail> {
    if names.index < module.lists_count() {
        for place in 0..module.names_len(names) {
            write!(text, " {}", name_at(module, module.names_get(names, place)))?;
        }
    }
    Ok(())
}

fn write_header(text: &mut String, module: &Module, header: &HeaderNode) -> Result<(), Fail> {
    match header {
        HeaderNode::Def {
            line,
            name,
            parameters,
            result,
        } => {
            write!(text, "{line}:def {}(", name_at(module, *name))?;
            write_parameters(text, module, parameters)?;
            write!(text, ")")?;
            if let Some(result) = result {
                write!(text, " -> ")?;
                write_type(text, module, *result)?;
            }
        }
        HeaderNode::Class { line, name } => write!(
            text,
            "{line}:class {}",
            name_at(module, *name)
        )?,
        HeaderNode::If { line, condition } => {
            write!(text, "{line}:if ")?;
            write_expr(text, module, *condition)?;
        }
        HeaderNode::Elif { line, condition } => {
            write!(text, "{line}:elif ")?;
            write_expr(text, module, *condition)?;
        }
        HeaderNode::Else { line } => write!(text, "{line}:else")?,
        HeaderNode::While { line, condition } => {
            write!(text, "{line}:while ")?;
            write_expr(text, module, *condition)?;
        }
        HeaderNode::For {
            line,
            variable,
            iterable,
        } => {
            write!(text, "{line}:for {} in ", name_at(module, *variable))?;
            write_expr(text, module, *iterable)?;
        }
        HeaderNode::Try { line } => write!(text, "{line}:try")?,
        HeaderNode::Except { line, classes } => {
            write!(text, "{line}:except")?;
            write_names(text, module, *classes)?;
        }
    }
    Ok(())
}

/// Some simple statements. The others are tested where they are read.
fn write_statement(text: &mut String, module: &Module, s: StmtId) -> Result<(), Fail> {
    if s.index < module.stmts_count() {
        match module.stmt(s) {
            StmtNode::Pass { line } => write!(text, "{line}:pass")?,
            StmtNode::Evaluate { line, value } => {
                write!(text, "{line}:")?;
                write_expr(text, module, *value)?;
            }
            _ => write!(text, "other")?,
        }
    }
    Ok(())
}

/// The header that a text begins with, and the place behind it.
fn header_of(rt: &HostRuntime, text: &str) -> Result<String, Fail> {
    let words = words_of(rt, text)?;
    let mut module = Module::new(rt.alloc());
    let mut shown = String::new(rt.alloc());
    match read_header(rt.alloc(), &words, &mut module, 0) {
        Ok((header, next)) => {
            write_header(&mut shown, &module, &header)?;
            write!(shown, " to {next}")?;
        }
        Err(Unread::NoForm) => write!(shown, "no header")?,
        Err(Unread::NoMemory) => return Err(NoMemory.into()),
    }
    Ok(shown)
}

/// The line that a text spells.
fn line_of(rt: &HostRuntime, text: &str) -> Result<String, Fail> {
    let words = words_of(rt, text)?;
    let mut module = Module::new(rt.alloc());
    let mut shown = String::new(rt.alloc());
    match read_line(rt.alloc(), &words, &mut module) {
        Ok(LineNode::Simple(statement)) => write_statement(&mut shown, &module, statement)?,
        Ok(LineNode::Header(header)) => write_header(&mut shown, &module, &header)?,
        Ok(LineNode::HeaderSimple(header, statement)) => {
            write_header(&mut shown, &module, &header)?;
            write!(shown, " with ")?;
            write_statement(&mut shown, &module, statement)?;
        }
        Err(Unread::NoForm) => write!(shown, "no line")?,
        Err(Unread::NoMemory) => return Err(NoMemory.into()),
    }
    Ok(shown)
}

#[test]
fn headers_are_read(rt: HostRuntime) -> Result<(), Fail> {
    for (text, header) in [
        ("def f():", "1:def f() to 5"),
        ("def f(a):", "1:def f(a;) to 6"),
        ("def f(a, b,):", "1:def f(a;b;) to 9"),
        (
            "def f(a: int, b=2, c: str = d) -> None:",
            "1:def f(a: int;b = 2;c: str = d;) -> None to 20",
        ),
        ("def f(\n  a\n) -> int: pass", "1:def f(a;) -> int to 8"),
        ("class C:", "1:class C to 3"),
        ("class C():", "1:class C to 5"),
        ("if a:", "1:if a to 3"),
        ("elif a: b", "1:elif a to 3"),
        ("else:", "1:else to 2"),
        ("while a:", "1:while a to 3"),
        ("for x in y:", "1:for x in y to 5"),
        ("try:", "1:try to 2"),
        ("except:", "1:except to 2"),
        ("except A:", "1:except A to 3"),
        ("except (A, B):", "1:except A B to 7"),
        ("except (A,):", "1:except A to 6"),
        ("def f:", "no header"),
        ("def f(a b):", "no header"),
        ("def f(,):", "no header"),
        ("def f(*a):", "no header"),
        ("def f() int:", "no header"),
        ("def f() ->:", "no header"),
        ("class C(D):", "no header"),
        ("if:", "no header"),
        ("if a", "no header"),
        ("else", "no header"),
        ("else a:", "no header"),
        ("while x", "no header"),
        ("for x.y in z:", "no header"),
        ("for x, y in z:", "no header"),
        ("try", "no header"),
        ("except A, B:", "no header"),
        ("except ():", "no header"),
        ("except A as b:", "no header"),
        ("with a:", "no header"),
        ("a: int", "no header"),
        ("", "no header"),
    ] {
        assert_eq!(rt; header_of(&rt, text)?.as_str(), header, "of {text}");
    }
    Ok(())
}

#[test]
fn lines_are_read(rt: HostRuntime) -> Result<(), Fail> {
    for (text, line) in [
        ("pass", "1:pass"),
        ("a", "1:a"),
        ("if a:", "1:if a"),
        ("if a: pass", "1:if a with 1:pass"),
        ("else: b", "1:else with 1:b"),
        ("except (A, B): pass", "1:except A B with 1:pass"),
        ("if a: if b: c", "no line"),
        ("if a: b c", "no line"),
        ("if a", "no line"),
        ("pass pass", "no line"),
        ("", "no line"),
    ] {
        assert_eq!(rt; line_of(&rt, text)?.as_str(), line, "of {text}");
    }
    Ok(())
}
