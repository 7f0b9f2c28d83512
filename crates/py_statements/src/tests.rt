use crate::{Unread, read_bracketed, read_names, read_simple, read_value};
use py_tokens::{TokenError, scan};
use py_tree::{
    ArgumentsNode, ExprId, ExprNode, Module, NameId, NamesId, StmtId, StmtNode, TypeId, TypeNode,
};
use py_words::{LineWords, Mark, word_lines};
use std::test::Fail;
use xh_outside::NoMemory;

/// The words of the first logical line of a text. A long text is not read.
fn words_of(rt: &HostRuntime, text: &str) -> Result<LineWords, Fail> {
    if text.len() > 4096 {
        return Err(TokenError::NoMemory.into());
    }
    let tokens = scan(rt.alloc(), text)?;
    match word_lines(rt.alloc(), &tokens)?.into_iter().next() {
        Some(line) => Ok(line.words),
        None => Ok(LineWords::new(rt.alloc())),
    }
}

/// The text of an expression, among those of the expressions of a module.
fn at(texts: &[String], e: ExprId) -> &str {
    match texts.get(e.index) {
        Some(text) => text.as_str(),
        None => "nothing",
    }
}

fn name_at(module: &Module, n: NameId) -> &str {
    if n.index < module.names_count() {
        return module.name_text(n);
    }
    "nothing"
}

/// The name of a type that has no arguments.
fn type_at(module: &Module, t: TypeId) -> &str {
    if t.index < module.types_count() {
        if let TypeNode::Name { name, .. } = module.type_node(t) {
            return name_at(module, *name);
        }
    }
    "another type"
}

fn write_names(text: &mut String, module: &Module, l: NamesId, between: &str) -> Result<(), Fail> {
    if l.index >= module.lists_count() {
        return Ok(());
    }
    for place in 0..module.names_len(l) {
        let before = if place == 0 { "" } else { between };
        let name = module.names_get(l, place);
        write!(text, "{before}{}", name_at(module, name))?;
    }
    Ok(())
}

/// Writes arguments without names.
fn write_arguments(text: &mut String, node: &ArgumentsNode, texts: &[String]) -> Result<(), Fail> {
    write!(text, "<")?;
    if let ArgumentsNode::Listed(list) = node {
        for (place, argument) in list.iter().enumerate() {
            let before = if place == 0 { "" } else { ", " };
            write!(text, "{before}{}", at(texts, argument.value))?;
        }
    }
    write!(text, ">")?;
    Ok(())
}

/// The text of a node of an expression, from those of the earlier ones.
fn text_of(
    rt: &HostRuntime,
    module: &Module,
    node: &ExprNode,
    texts: &[String],
) -> Result<String, Fail> {
    let mut text = String::new(rt.alloc());
    match node {
        ExprNode::Name { name, .. } => write!(text, "{}", name_at(module, *name))?,
        ExprNode::Integer { value, .. } => write!(text, "{value}")?,
        ExprNode::Group { inner, .. } => write!(text, "({})", at(texts, *inner))?,
        ExprNode::Attribute { object, name, .. } => {
            write!(text, "{}.{}", at(texts, *object), name_at(module, *name))?;
        }
        ExprNode::Index { object, index, .. } => {
            write!(text, "{}[{}]", at(texts, *object), at(texts, *index))?;
        }
        ExprNode::Call {
            function,
            arguments,
            ..
        } => {
            write!(text, "{}", at(texts, *function))?;
            write_arguments(&mut text, arguments, texts)?;
        }
        ExprNode::Binary {
            operator,
            left,
            right,
            ..
        } => {
            let (left, right) = (at(texts, *left), at(texts, *right));
            write!(text, "({left} {operator:?} {right})")?;
        }
        _ => write!(text, "another form")?,
    }
    Ok(text)
}

/// The texts of all the expressions of a module.
fn texts_of(rt: &HostRuntime, module: &Module) -> Result<Vec<String>, Fail> {
    let mut texts = Vec::new(rt.alloc());
    for index in 0..module.exprs_count() {
        let text = text_of(rt, module, module.expr(ExprId { index }), &texts)?;
        texts.push(text)?;
    }
    Ok(texts)
}

/// Writes a statement that begins with a keyword.
fn write_marked(
    text: &mut String,
    module: &Module,
    node: &StmtNode,
    texts: &[String],
) -> Result<(), Fail> {
    match node {
        StmtNode::Return { line, value } => {
            write!(text, "{line}: return")?;
            if let Some(value) = value {
                write!(text, " {}", at(texts, *value))?;
            }
        }
        StmtNode::Pass { line } => write!(text, "{line}: pass")?,
        StmtNode::Break { line } => write!(text, "{line}: break")?,
        StmtNode::Continue { line } => write!(text, "{line}: continue")?,
        StmtNode::Assert {
            line,
            condition,
            message,
        } => {
            write!(text, "{line}: assert {}", at(texts, *condition))?;
            if let Some(message) = message {
                write!(text, ", {}", at(texts, *message))?;
            }
        }
        StmtNode::Reraise { line } => write!(text, "{line}: reraise")?,
        StmtNode::Raise {
            line,
            class,
            arguments,
        } => {
            write!(text, "{line}: raise {}", name_at(module, *class))?;
            if let Some(arguments) = arguments {
                write_arguments(text, arguments, texts)?;
            }
        }
        StmtNode::Delete { line, target } => write!(text, "{line}: del {}", at(texts, *target))?,
        StmtNode::Import { line, path } => {
            write!(text, "{line}: import ")?;
            write_names(text, module, *path, ".")?;
        }
        StmtNode::ImportFrom {
            line,
            module: from,
            names,
        } => {
            write!(text, "{line}: from {} import ", name_at(module, *from))?;
            write_names(text, module, *names, ", ")?;
        }
        _ => write!(text, "another statement")?,
    }
    Ok(())
}

/// Writes a statement.
fn write_statement(
    text: &mut String,
    module: &Module,
    node: &StmtNode,
    texts: &[String],
) -> Result<(), Fail> {
    match node {
        StmtNode::Assign {
            line,
            target,
            value,
        } => write!(
            text,
            "{line}: {} = {}",
            at(texts, *target),
            at(texts, *value)
        )?,
        StmtNode::Annotate {
            line,
            target,
            annotation,
            value,
        } => {
            let annotation = type_at(module, *annotation);
            write!(text, "{line}: {}: {annotation}", at(texts, *target))?;
            if let Some(value) = value {
                write!(text, " = {}", at(texts, *value))?;
            }
        }
        StmtNode::Augment {
            line,
            target,
            operator,
            value,
        } => {
            let (target, value) = (at(texts, *target), at(texts, *value));
            write!(text, "{line}: {target} {operator:?}= {value}")?;
        }
        StmtNode::Evaluate { line, value } => {
            write!(text, "{line}: evaluate {}", at(texts, *value))?;
        }
        other => write_marked(text, module, other, texts)?,
    }
    Ok(())
}

/// The text of the statement that the words of a text spell.
fn read(rt: &HostRuntime, text: &str) -> Result<String, Fail> {
    let words = words_of(rt, text)?;
    let mut module = Module::new(rt.alloc());
    let mut shown = String::new(rt.alloc());
    match read_simple(rt.alloc(), &words, &mut module, 0) {
        Ok(s) => {
            if s.index < module.stmts_count() {
                let texts = texts_of(rt, &module)?;
                write_statement(&mut shown, &module, module.stmt(s), &texts)?;
            }
        }
        Err(Unread::NoForm) => write!(shown, "no statement")?,
        Err(Unread::NoMemory) => return Err(NoMemory.into()),
    }
    Ok(shown)
}

#[test]
fn statements_are_read(rt: HostRuntime) -> Result<(), Fail> {
    for (text, tree) in [
        ("x = 1", "1: x = 1"),
        ("x.y = z", "1: x.y = z"),
        ("x[0] = y.z[1]", "1: x[0] = y.z[1]"),
        ("f(x).y = 2", "1: f<x>.y = 2"),
        ("x: int", "1: x: int"),
        ("x.y: str = z", "1: x.y: str = z"),
        ("x += 1", "1: x Add= 1"),
        ("x[0] <<= y", "1: x[0] ShiftLeft= y"),
        ("x", "1: evaluate x"),
        ("7", "1: evaluate 7"),
        ("(x)", "1: evaluate (x)"),
        ("x.y + 1", "1: evaluate (x.y Add 1)"),
        ("f(x, 1)", "1: evaluate f<x, 1>"),
        ("return", "1: return"),
        ("return x + 1", "1: return (x Add 1)"),
        ("pass", "1: pass"),
        ("break", "1: break"),
        ("continue", "1: continue"),
        ("assert x", "1: assert x"),
        ("assert x, y", "1: assert x, y"),
        ("raise", "1: reraise"),
        ("raise E", "1: raise E"),
        ("raise E()", "1: raise E<>"),
        ("raise E(x, 1)", "1: raise E<x, 1>"),
        ("del x[0]", "1: del x[0]"),
        ("del x.y[0][1]", "1: del x.y[0][1]"),
        ("import a", "1: import a"),
        ("import a.b.c", "1: import a.b.c"),
        ("from a import b", "1: from a import b"),
        ("from a import b, c", "1: from a import b, c"),
        ("from a import (b, c)", "1: from a import b, c"),
        ("from a import (b,)", "1: from a import b"),
        ("\n\nx = (\n1)", "3: x = (1)"),
    ] {
        assert_eq!(rt; read(&rt, text)?.as_str(), tree, "of {text}");
    }
    Ok(())
}

#[test]
fn what_is_no_statement_is_refused(rt: HostRuntime) -> Result<(), Fail> {
    for text in [
        "",
        "return return",
        "x =",
        "(x) = 1",
        "f(x) = 1",
        "x[0:1] = y",
        "1 += 1",
        "a = b = c",
        "x +",
        "x y",
        "x: int =",
        "x: 1",
        "x: int = 1 2",
        "pass x",
        "break 1",
        "continue continue",
        "assert",
        "assert x,",
        "assert x y",
        "raise 1",
        "raise E.f",
        "raise E() x",
        "del",
        "del x",
        "del x.y",
        "del (x[0])",
        "del x[0] y",
        "import",
        "import a.",
        "import a, b",
        "from a",
        "from a import",
        "from a import b,",
        "from a import ()",
        "from a.b import c",
        "if x:",
    ] {
        assert_eq!(rt; read(&rt, text)?.as_str(), "no statement", "of {text}");
    }
    Ok(())
}

/// The text of names that were read, and the place behind them.
fn names_text(
    rt: &HostRuntime,
    module: &Module,
    read: Result<(NamesId, usize), Unread>,
) -> Result<String, Fail> {
    let mut text = String::new(rt.alloc());
    match read {
        Ok((names, next)) => {
            write_names(&mut text, module, names, " ")?;
            write!(text, " to {next}")?;
        }
        Err(Unread::NoForm) => write!(text, "no names")?,
        Err(Unread::NoMemory) => return Err(NoMemory.into()),
    }
    Ok(text)
}

#[test]
fn names_are_read(rt: HostRuntime) -> Result<(), Fail> {
    for (text, bare, bracketed) in [
        ("(a, b, a) c", "a b a to 6", "a b a to 7"),
        ("(a,)", "a to 2", "a to 4"),
        ("(a.b)", "a to 2", "no names"),
        ("(, a)", "no names", "no names"),
    ] {
        let words = words_of(&rt, text)?;
        let mut module = Module::new(rt.alloc());
        let names = read_names(rt.alloc(), &words, &mut module, Mark::Comma, 1);
        assert_eq!(rt;
            names_text(&rt, &module, names)?.as_str(),
            bare,
            "of {text}"
        );
        let names = read_bracketed(rt.alloc(), &words, &mut module, 1);
        assert_eq!(rt;
            names_text(&rt, &module, names)?.as_str(),
            bracketed,
            "of {text}"
        );
    }
    Ok(())
}

#[test]
fn values_are_read(rt: HostRuntime) -> Result<(), Fail> {
    for (text, value) in [
        ("x = 1, y", "1 to 3"),
        ("x, y", "none to 1"),
        ("x =, y", "no value"),
    ] {
        let words = words_of(&rt, text)?;
        let mut module = Module::new(rt.alloc());
        let mut shown = String::new(rt.alloc());
        match read_value(rt.alloc(), &words, &mut module, 1) {
            Ok((Some(e), next)) => {
                let texts = texts_of(&rt, &module)?;
                write!(shown, "{} to {next}", at(&texts, e))?;
            }
            Ok((None, next)) => write!(shown, "none to {next}")?,
            Err(_) => write!(shown, "no value")?,
        }
        assert_eq!(rt; shown.as_str(), value, "of {text}");
    }
    Ok(())
}
