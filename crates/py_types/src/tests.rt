use crate::{Unread, read_type};
use py_tokens::{TokenError, scan};
use py_tree::{Module, TypeId, TypeNode};
use py_words::{LineWords, Mark, Word, word_lines};
use std::test::Fail;
use xh_outside::{Name, NoMemory};

/// The words of the first logical line of a text. A long text is not read.
fn words_of(rt: &HostRuntime, text: &str) -> Result<LineWords, Fail> {
    if text.len() > 4096 {
        return Err(TokenError::NoMemory.into());
    }
    let tokens = scan(rt.alloc(), text)?;
    match word_lines(rt.alloc(), &tokens)?.into_iter().next() {
        Some(line) => Ok(line.words),
        None => Ok(LineWords::new(rt.alloc())),
    }
}

/// The text of a type, among those of the types of a module.
fn text_at(texts: &[String], t: TypeId) -> &str {
    match texts.get(t.index) {
        Some(text) => text.as_str(),
        None => "nothing",
    }
}

/// The text of a node, behind its line, from those of the earlier ones.
fn text_of(
    rt: &HostRuntime,
    module: &Module,
    node: &TypeNode,
    texts: &[String],
) -> Result<String, Fail> {
    let mut text = String::new(rt.alloc());
    match node {
        TypeNode::Name {
            line,
            name,
            arguments,
        } => {
            if name.index < module.names_count() {
                write!(text, "{line}:{}", module.name_text(*name))?;
            }
            for (place, argument) in arguments.iter().enumerate() {
                let before = if place == 0 { "[" } else { ", " };
                write!(text, "{before}{}", text_at(texts, *argument))?;
            }
            if !arguments.is_empty() {
                write!(text, "]")?;
            }
        }
        TypeNode::Union { line, first, rest } => {
            write!(text, "{line}:({}", text_at(texts, *first))?;
            for member in rest {
                write!(text, " | {}", text_at(texts, *member))?;
            }
            write!(text, ")")?;
        }
        TypeNode::None { line } => write!(text, "{line}:None")?,
        TypeNode::Text { line, part } => write!(text, "{line}:'{}'", part.source.as_str())?,
    }
    Ok(text)
}

/// The texts of all the types of a module.
fn texts_of(rt: &HostRuntime, module: &Module) -> Result<Vec<String>, Fail> {
    let mut texts = Vec::new(rt.alloc());
    for index in 0..module.types_count() {
        let node = module.type_node(TypeId { index });
        let text = text_of(rt, module, node, &texts)?;
        texts.push(text)?;
    }
    Ok(texts)
}

/// The type at a place among words, and the place behind it.
fn read_at(rt: &HostRuntime, words: &LineWords, start: usize) -> Result<String, Fail> {
    let mut module = Module::new(rt.alloc());
    let mut shown = String::new(rt.alloc());
    match read_type(rt.alloc(), words, &mut module, start) {
        Ok((t, next)) => {
            let texts = texts_of(rt, &module)?;
            write!(shown, "{} to {next}", text_at(&texts, t))?;
        }
        Err(Unread::NoForm) => write!(shown, "no type")?,
        Err(Unread::NoMemory) => return Err(NoMemory.into()),
    }
    Ok(shown)
}

#[test]
fn types_are_read(rt: HostRuntime) -> Result<(), Fail> {
    for (text, start, read) in [
        ("int", 0, "1:int to 1"),
        ("None", 0, "1:None to 1"),
        ("'Tree'", 0, "1:'Tree' to 1"),
        ("list[int]", 0, "1:list[1:int] to 4"),
        (
            "dict[str, list[int]]",
            0,
            "1:dict[1:str, 1:list[1:int]] to 9",
        ),
        ("int | None", 0, "1:(1:int | 1:None) to 3"),
        ("int | str | None", 0, "1:(1:int | 1:str | 1:None) to 5"),
        (
            "a[b | None, 'C'] | d[e]",
            0,
            "1:(1:a[1:(1:b | 1:None), 1:'C'] | 1:d[1:e]) to 13",
        ),
        (
            "(list[\n  int,\n  str | None\n])",
            1,
            "1:list[2:int, 3:(3:str | 3:None)] to 9",
        ),
        ("x: int = 3", 2, "1:int to 3"),
        ("int,", 0, "1:int to 1"),
        ("int str", 0, "1:int to 1"),
        ("None[int]", 0, "1:None to 1"),
        ("'a' 'b'", 0, "1:'a' to 1"),
    ] {
        let words = words_of(&rt, text)?;
        assert_eq!(rt; read_at(&rt, &words, start)?.as_str(), read, "of {text}");
    }
    Ok(())
}

#[test]
fn other_words_are_no_type(rt: HostRuntime) -> Result<(), Fail> {
    for (text, start) in [
        ("", 0),
        ("int", 1),
        ("int", usize::MAX),
        ("int |", 0),
        ("int | 3", 0),
        ("| int", 0),
        ("list[]", 0),
        ("list[int,]", 0),
        ("list[int str]", 0),
        ("[int]", 0),
        ("(int)", 0),
        ("True", 0),
        ("3", 0),
    ] {
        let words = words_of(&rt, text)?;
        assert_eq!(rt;
            read_at(&rt, &words, start)?.as_str(),
            "no type",
            "of {text}"
        );
    }
    Ok(())
}

#[test]
fn brackets_are_closed(rt: HostRuntime) -> Result<(), Fail> {
    let mut words = LineWords::new(rt.alloc());
    for (line, text, mark, read) in [
        (1, "list", Mark::OpenBracket, "no type"),
        (2, "int", Mark::Comma, "no type"),
        (3, "str", Mark::CloseBracket, "1:list[2:int, 3:str] to 6"),
    ] {
        words.push(Word::Name {
            line,
            text: Name::from_str(rt.alloc(), text)?,
        })?;
        words.push(Word::Sign { line, mark })?;
        assert_eq!(rt; read_at(&rt, &words, 0)?.as_str(), read, "up to {text}");
    }
    Ok(())
}

#[test]
fn types_that_were_read_stay(rt: HostRuntime) -> Result<(), Fail> {
    let words = words_of(&rt, "int | None, list[int], list[3]")?;
    let mut module = Module::new(rt.alloc());
    for start in [0, 4, 9] {
        let _ = read_type(rt.alloc(), &words, &mut module, start);
    }
    let texts = texts_of(&rt, &module)?;
    let mut shown = String::new(rt.alloc());
    for text in &texts {
        writeln!(shown, "{text}")?;
    }
    assert_eq!(rt;
        shown.as_str(),
        "1:int\n1:None\n1:(1:int | 1:None)\n1:int\n1:list[1:int]\n"
    );
    assert_eq!(rt; module.names_count(), 2);
    Ok(())
}
