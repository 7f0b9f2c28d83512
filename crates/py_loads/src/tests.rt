use crate::first_overloaded;
use py_tokens::{TokenError, scan};
use py_words::word_lines;
use std::test::Fail;

/// The line of the first logical line of a text that is overloaded. A long text is not read.
fn overloaded(rt: &HostRuntime, text: &str) -> Result<Option<u32>, Fail> {
    if text.len() > 4096 {
        return Err(TokenError::NoMemory.into());
    }
    let tokens = scan(rt.alloc(), text)?;
    let lines = word_lines(rt.alloc(), &tokens)?;
    Ok(first_overloaded(rt.alloc(), &lines)?)
}

/// So many copies of a text behind another, and as many copies of one that closes it behind a third.
fn text_of(
    rt: &HostRuntime,
    before: &str,
    count: u32,
    part: &str,
    inside: &str,
    closing: &str,
) -> Result<String, Fail> {
    let mut text = String::new(rt.alloc());
    text.push_str(before)?;
    for _ in 0..count {
        text.push_str(part)?;
    }
    text.push_str(inside)?;
    for _ in 0..count {
        text.push_str(closing)?;
    }
    Ok(text)
}

#[test]
fn the_first_overloaded_line_is_told(rt: HostRuntime) -> Result<(), Fail> {
    for (before, count, part, inside, closing, line) in [
        ("", 0, "", "", "", None),
        ("x = ", 100, "[", "", "]", None),
        ("x = ", 101, "[", "", "]", Some(1)),
        ("x = ", 100, "[", "1, x", "]", None),
        ("x = ", 100, "[", "1, not x", "]", Some(1)),
        ("x = ", 100, "not ", "x", "", None),
        ("x = ", 101, "not ", "x", "", Some(1)),
        ("x = (", 99, "not ", "x, not x)", "", None),
        ("x = (", 100, "not ", "x, not x)", "", Some(1)),
        ("x = ", 101, "x - ", "x", "", None),
        ("x = ", 101, "- ", "x", "", Some(1)),
        ("x = ", 300, "(x) + ", "x", "", None),
        ("x = 1\n\n", 101, "~", "x\n", "", Some(3)),
        ("x = \\\n", 101, "{", "", "}", Some(1)),
    ] {
        let text = text_of(&rt, before, count, part, inside, closing)?;
        assert_eq!(rt; overloaded(&rt, &text)?, line, "{before}{part}{inside}");
    }
    let text = text_of(&rt, "y = 1\nx = ", 101, "- ", "x\n", "")?;
    let two = text_of(&rt, &text, 101, "~", "x\n", "")?;
    assert_eq!(rt; overloaded(&rt, &two)?, Some(2));
    Ok(())
}
