use crate::{ContractError, ContractLine, Contracts, Owner, conditions};
use py_parser::{SyntaxError, module};
use py_tokens::{TokenError, scan};
use py_tree::{ExprId, ExprNode, Module, NameId, NamesId};
use std::test::Fail;

fn write_owner(shown: &mut String, owner: Owner) -> Result<(), Fail> {
    match owner {
        Owner::Function(f) => write!(shown, "f{}", f.index)?,
        Owner::Class(c) => write!(shown, "c{}", c.index)?,
    }
    Ok(())
}

/// Writes a name of a module.
fn write_name(shown: &mut String, module: &Module, name: NameId) -> Result<(), Fail> {
    if name.index < module.names_count() {
        shown.push_str(module.name_text(name))?;
    }
    Ok(())
}

/// Writes an expression of a module, where it is a name or an integer.
fn write_expr(shown: &mut String, module: &Module, e: ExprId) -> Result<(), Fail> {
    if e.index >= module.exprs_count() {
        return Ok(());
    }
    match module.expr(e) {
        ExprNode::Name { line, name } => {
            write!(shown, " {line}:")?;
            write_name(shown, module, *name)
        }
        ExprNode::Integer { line, value } => {
            write!(shown, " {line}:{value}")?;
            Ok(())
        }
        _ => {
            write!(shown, " more")?;
            Ok(())
        }
    }
}

/// Writes a list of names of a module.
fn write_names(shown: &mut String, module: &Module, names: NamesId) -> Result<(), Fail> {
    if names.index >= module.lists_count() {
        return Ok(());
    }
    shown.push('[')?;
    for i in 0..module.names_len(names) {
        shown.push('<')?;
        write_name(shown, module, module.names_get(names, i))?;
        shown.push('>')?;
    }
    shown.push(']')?;
    Ok(())
}

fn write_line(shown: &mut String, module: &Module, line: ContractLine) -> Result<(), Fail> {
    write_owner(shown, line.owner)?;
    write!(shown, " {}:{:?}", line.line, line.kind)?;
    if let Some(names) = line.names {
        write_names(shown, module, names)?;
    }
    if let Some(e) = line.expr {
        write_expr(shown, module, e)?;
    }
    shown.push(';')?;
    Ok(())
}

/// Writes contract lines whose names and expressions are in a module.
fn write_contracts(shown: &mut String, module: &Module, contracts: &Contracts) -> Result<(), Fail> {
    for i in 0..contracts.lines() {
        if let Some(line) = contracts.get(i) {
            write_line(shown, module, line)?;
        }
    }
    Ok(())
}

fn write_error(shown: &mut String, error: ContractError) -> Result<(), Fail> {
    match error {
        ContractError::BadExpression(line) => write!(shown, "bad {line}")?,
        ContractError::UnknownName(line) => write!(shown, "unknown {line}")?,
        ContractError::Misplaced(line) => write!(shown, "misplaced {line}")?,
        ContractError::NoMemory => return Err(TokenError::NoMemory.into()),
    }
    Ok(())
}

/// What the contract lines of a text are. A long text is not read.
fn read(rt: &HostRuntime, text: &str) -> Result<String, Fail> {
    if text.len() > 4096 {
        return Err(TokenError::NoMemory.into());
    }
    let tokens = scan(rt.alloc(), text)?;
    let mut shown = String::new(rt.alloc());
    match module(rt.alloc(), &tokens) {
        Ok(module) => {
            let mut module = module;
            match conditions(rt.alloc(), &mut module) {
                Ok(contracts) => write_contracts(&mut shown, &module, &contracts)?,
                Err(error) => write_error(&mut shown, error)?,
            }
        }
        Err(SyntaxError::NoMemory) => return Err(TokenError::NoMemory.into()),
        Err(_) => write!(shown, "no module")?,
    }
    Ok(shown)
}

#[test]
fn lines_have_owners_in_the_order_of_lines(rt: HostRuntime) -> Result<(), Fail> {
    for (text, shown) in [
        ("", ""),
        ("'post: x'\n", ""),
        ("def f(x):\n  pass\n  'post: x'\n", ""),
        ("def f(x):\n  'post: x'\n", "f0 2:Post 2:x;"),
        ("def f(x):\n  'pre: 1' 'post: x'\n", ""),
        (
            "class C:\n  '''inv: 1\n  inv: 2'''\n  def a(self):\n    'pre: 3'\ndef b():\n  'raises: KeyError, IndexError'\n",
            "c0 2:Invariant 2:1;c0 3:Invariant 3:2;f0 5:Pre 5:3;f1 7:Raises[<KeyError><IndexError>];",
        ),
        (
            "def f(x, y):\n  '''post[y, x]:\n    1\n    x # x\n  post[]: y'''\n",
            "f0 3:Post[<y><x>] 3:1;f0 4:Post[<y><x>] 4:x;f0 5:Post[] 5:y;",
        ),
        (
            "def f(\u{C5}):\n  'post[\u{212B}]: 1'\n",
            "f0 2:Post[<\u{C5}>] 2:1;",
        ),
    ] {
        let read = read(&rt, text)?;
        assert_eq!(&rt; read.as_str(), shown);
    }
    Ok(())
}

#[test]
fn refusals_come_with_the_smallest_line(rt: HostRuntime) -> Result<(), Fail> {
    for (text, shown) in [
        ("def f(x):\n  'post: x +'\n", "bad 2"),
        ("def f(x):\n  'post: '\n", "bad 2"),
        ("def f(x):\n  'post: (x'\n", "bad 2"),
        ("def f(x):\n  'post: x\\\\'\n", "bad 2"),
        ("def f(x):\n  'post[y]: x'\n", "unknown 2"),
        ("def f(x):\n  'post[y]: x +'\n", "bad 2"),
        ("def f(x):\n  'raises: Error'\n", "unknown 2"),
        ("def f(x):\n  'inv: x'\n", "misplaced 2"),
        ("def f(x):\n  'inv: x +'\n", "bad 2"),
        ("class C:\n  'pre: 1'\n", "misplaced 2"),
        ("class C:\n  'post[x]: 1'\n", "unknown 2"),
        ("class C:\n  'raises: KeyError'\n", "misplaced 2"),
        // what a block's contract line names shows there, and its expressions at their own lines
        ("def f(x):\n  '''post[y]:\n    x +'''\n", "unknown 2"),
        ("def f(x):\n  '''post[x]:\n    x\n    x +'''\n", "bad 4"),
        // the smallest line of all functions
        (
            "def f(x):\n  '''post: x\n  post[y]: x'''\ndef g(x):\n  'post: +'\n",
            "unknown 3",
        ),
        (
            "class C:\n  '''inv: 1\n  pre: 2'''\n  def a(self):\n    'inv: 3'\n",
            "misplaced 3",
        ),
    ] {
        let read = read(&rt, text)?;
        assert_eq!(&rt; read.as_str(), shown);
    }
    Ok(())
}
