use crate::{LineNode, Misread, PlacedLine, read_lines};
use py_tokens::{TokenError, scan};
use py_tree::Module;
use py_words::word_lines;
use std::test::Fail;
use xh_outside::NoMemory;

/// What stands on a line.
fn parts_of(node: &LineNode) -> &'static str {
    match node {
        LineNode::Simple(_) => "statement",
        LineNode::Header(_) => "header",
        LineNode::HeaderSimple(_, _) => "both",
    }
}

fn write_lines(text: &mut String, lines: &[PlacedLine]) -> Result<(), Fail> {
    for line in lines {
        write!(
            text,
            "{} {}-{} {};",
            line.depth,
            line.first,
            line.last,
            parts_of(&line.node)
        )?;
    }
    Ok(())
}

/// The lines of a text. A long text is not read.
fn lines_of(rt: &HostRuntime, text: &str) -> Result<String, Fail> {
    if text.len() > 4096 {
        return Err(TokenError::NoMemory.into());
    }
    let tokens = scan(rt.alloc(), text)?;
    let words = word_lines(rt.alloc(), &tokens)?;
    let mut module = Module::new(rt.alloc());
    let mut shown = String::new(rt.alloc());
    match read_lines(rt.alloc(), &words, &mut module) {
        Ok(lines) => write_lines(&mut shown, &lines)?,
        Err(Misread::NoLine(line)) => write!(shown, "no line {line}")?,
        Err(Misread::NoMemory) => return Err(NoMemory.into()),
    }
    Ok(shown)
}

#[test]
fn lines_are_read_in_their_places(rt: HostRuntime) -> Result<(), Fail> {
    for (text, lines) in [
        ("", ""),
        ("x = 1\n\ny", "0 1-1 statement;0 3-3 statement;"),
        ("x = '''a\nb\nc'''\ny\n", "0 1-3 statement;0 4-4 statement;"),
        ("'''a\nb''' 'c'\n", "0 1-2 statement;"),
        ("f('''a\n''',\n\n)\n", "0 1-4 statement;"),
        ("if a: '''\n'''\n", "0 1-2 both;"),
        (
            "def f():\n    if a:\n        return '''\n\n'''\n    pass\nx\n",
            "0 1-1 header;1 2-2 header;2 3-5 statement;1 6-6 statement;0 7-7 statement;",
        ),
        ("x y\n", "no line 1"),
        ("x\n\ny z\nif\n", "no line 3"),
        ("x = '''\n'''\nif a:\n  b c\n", "no line 4"),
    ] {
        assert_eq!(rt; lines_of(&rt, text)?.as_str(), lines, "of {text}");
    }
    Ok(())
}
