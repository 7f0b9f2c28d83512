use crate::is_deep;
use py_lines::read_line;
use py_tokens::{TokenError, scan};
use py_tree::Module;
use py_words::{LineWords, Unread, word_lines};
use std::test::Fail;
use xh_outside::NoMemory;

/// The words of the first logical line of a text. A long text is not read.
fn words_of(rt: &HostRuntime, text: &str) -> Result<LineWords, Fail> {
    if text.len() > 4096 {
        return Err(TokenError::NoMemory.into());
    }
    let tokens = scan(rt.alloc(), text)?;
    match word_lines(rt.alloc(), &tokens)?.into_iter().next() {
        Some(line) => Ok(line.words),
        None => Ok(LineWords::new(rt.alloc())),
    }
}

/// Whether the line of a text goes too deep where it stands in so many blocks, or nothing where the text is no line.
fn is_text_deep(rt: &HostRuntime, depth: usize, text: &str) -> Result<Option<bool>, Fail> {
    let words = words_of(rt, text)?;
    let mut module = Module::new(rt.alloc());
    match read_line(rt.alloc(), &words, &mut module) {
        Ok(line) => Ok(Some(is_deep(&module, depth, &line))),
        Err(Unread::NoForm) => Ok(None),
        Err(Unread::NoMemory) => Err(NoMemory.into()),
    }
}

/// A name in so many brackets between two texts.
fn bracketed(rt: &HostRuntime, before: &str, count: u32, after: &str) -> Result<String, Fail> {
    let mut text = String::from_str(rt.alloc(), before)?;
    for _ in 0..count {
        text.push('(')?;
    }
    text.push('a')?;
    for _ in 0..count {
        text.push(')')?;
    }
    text.push_str(after)?;
    Ok(text)
}

/// Whether a line outside of all blocks goes too deep by a name in so many brackets.
fn is_height_deep(
    rt: &HostRuntime,
    before: &str,
    count: u32,
    after: &str,
) -> Result<Option<bool>, Fail> {
    let text = bracketed(rt, before, count, after)?;
    is_text_deep(rt, 0, text.as_str())
}

#[test]
fn more_than_100_blocks_are_deep(rt: HostRuntime) -> Result<(), Fail> {
    for (text, depth, deep) in [
        ("pass", 0, false),
        ("pass", 99, false),
        ("pass", 100, false),
        ("pass", 101, true),
        ("if x:", 99, false),
        ("if x:", 100, false),
        ("if x:", 101, true),
        ("if x: pass", 99, false),
        ("if x: pass", 100, true),
        ("if x: pass", 101, true),
        ("if x: pass", usize::MAX, true),
    ] {
        assert_eq!(rt;
            is_text_deep(&rt, depth, text)?,
            Some(deep),
            "{text} in {depth} blocks"
        );
    }
    Ok(())
}

#[test]
fn more_than_100_brackets_are_deep(rt: HostRuntime) -> Result<(), Fail> {
    for (before, after) in [
        ("", ""),
        ("x = ", ""),
        ("x: int = ", ""),
        ("x += ", ""),
        ("x[", "] = 0"),
        ("x[", "]: int"),
        ("x[", "] += 1"),
        ("del x[", "]"),
        ("return ", ""),
        ("assert ", ""),
        ("assert x, ", ""),
        ("raise E(", ")"),
        ("raise E(x, ", ")"),
        ("if ", ":"),
        ("elif ", ":"),
        ("while ", ":"),
        ("for x in ", ":"),
        ("def f(x=", "):"),
        ("def f(x=0, y=", ") -> int:"),
        ("if ", ": pass"),
        ("if x: y = ", ""),
    ] {
        for (count, deep) in [(99, false), (100, false), (101, true)] {
            assert_eq!(rt;
                is_height_deep(&rt, before, count, after)?,
                Some(deep),
                "{before}{count}{after}"
            );
        }
    }
    Ok(())
}

#[test]
fn lines_with_no_expression_are_not_deep(rt: HostRuntime) -> Result<(), Fail> {
    for text in [
        "pass",
        "break",
        "continue",
        "return",
        "raise",
        "raise E",
        "import a",
        "from a import b",
        "x: int",
        "class C:",
        "def f(a):",
        "else:",
        "try:",
        "except E:",
    ] {
        assert_eq!(rt; is_text_deep(&rt, 100, text)?, Some(false), "{text}");
    }
    Ok(())
}
