use crate::{Unread, build};
use py_placed::{Misread, read_lines};
use py_tokens::{TokenError, scan};
use py_tree::{Module, StmtId, StmtNode};
use py_words::word_lines;
use std::test::Fail;
use xh_outside::NoMemory;

/// A statement with blocks: its line, and how many statements, branches or handlers each part has.
fn write_compound(text: &mut String, node: &StmtNode) -> Result<(), Fail> {
    match node {
        StmtNode::Def {
            line,
            last,
            body,
            ..
        } => write!(text, "def {line}-{last} {};", body.len())?,
        StmtNode::Class {
            line,
            last,
            body,
            ..
        } => write!(text, "class {line}-{last} {};", body.len())?,
        StmtNode::If {
            line,
            body,
            branches,
            otherwise,
            ..
        } => write!(
            text,
            "if {line} {} {} {};",
            body.len(),
            branches.len(),
            otherwise.len()
        )?,
        _ => write_rest(text, node)?,
    }
    Ok(())
}

/// A loop or a `try`, as above, and nothing for a simple statement.
fn write_rest(text: &mut String, node: &StmtNode) -> Result<(), Fail> {
    match node {
        StmtNode::While {
            line,
            body,
            otherwise,
            ..
        } => write!(text, "while {line} {} {};", body.len(), otherwise.len())?,
        StmtNode::For {
            line,
            body,
            otherwise,
            ..
        } => write!(text, "for {line} {} {};", body.len(), otherwise.len())?,
        StmtNode::Try {
            line,
            body,
            handlers,
            otherwise,
        } => write!(
            text,
            "try {line} {} {} {};",
            body.len(),
            handlers.len(),
            otherwise.len()
        )?,
        _ => {}
    }
    Ok(())
}

/// The statements with blocks, inner ones before outer ones, and the number of statements of the module itself.
fn write_module(text: &mut String, module: &Module, body: &[StmtId]) -> Result<(), Fail> {
    for index in 0..module.stmts_count() {
        write_compound(text, module.stmt(StmtId { index }))?;
    }
    write!(text, "{}", body.len())?;
    Ok(())
}

/// What the lines of a text spell. A long text is not read.
fn built(rt: &HostRuntime, text: &str) -> Result<String, Fail> {
    if text.len() > 4096 {
        return Err(TokenError::NoMemory.into());
    }
    let tokens = scan(rt.alloc(), text)?;
    let words = word_lines(rt.alloc(), &tokens)?;
    let mut module = Module::new(rt.alloc());
    let mut shown = String::new(rt.alloc());
    let lines = match read_lines(rt.alloc(), &words, &mut module) {
        Ok(lines) => lines,
        Err(Misread::NoLine(line)) => {
            write!(shown, "no line {line}")?;
            return Ok(shown);
        }
        Err(Misread::NoMemory) => return Err(NoMemory.into()),
    };
    match build(rt.alloc(), &lines, &mut module) {
        Ok(body) => write_module(&mut shown, &module, &body)?,
        Err(Unread::NoForm) => shown.push_str("no module")?,
        Err(Unread::NoMemory) => return Err(NoMemory.into()),
    }
    Ok(shown)
}

#[test]
fn lines_are_built_into_statements(rt: HostRuntime) -> Result<(), Fail> {
    for (text, statements) in [
        ("", "0"),
        ("x = 1\ny = 2\n", "2"),
        (
            "def f(a, b=1):\n  x\n\n  return '''\n'''\ny\n",
            "def 1-5 2;2",
        ),
        (
            "class A:\n  def f(self): pass\n  def g(self):\n    x\n    y\n",
            "def 2-2 1;def 3-5 2;class 1-5 2;1",
        ),
        (
            "if a: x\nelif b: y\nelif c:\n  y\n  z\nelse: t\n",
            "if 1 1 2 1;1",
        ),
        (
            "if a:\n  if b: x\nelse:\n  y\n  z\n",
            "if 2 1 0 0;if 1 1 0 2;1",
        ),
        ("while a:\n  x\n  break\nelse:\n  y\nz\n", "while 1 2 1;2"),
        (
            "for i in a: x\nfor j in b:\n  x\n  y\n",
            "for 1 1 0;for 2 2 0;2",
        ),
        (
            "try:\n  x\nexcept A:\n  y\nexcept (A, B): z\nexcept:\n  t\nelse:\n  u\n",
            "try 1 1 3 1;1",
        ),
        (" x\n", "no module"),
        ("if a:\nx\n", "no module"),
        ("x\nelse: y\n", "no module"),
        ("try: x\ny\n", "no module"),
        ("try: x\nexcept: y\nexcept A: z\n", "no module"),
        ("for i in a:\n  x\nelif b: y\n", "no module"),
    ] {
        assert_eq!(rt; built(&rt, text)?.as_str(), statements, "of {text}");
    }
    Ok(())
}
