use crate::unquoted;
use py_parser::{SyntaxError, type_text};
use py_tree::{Module, TypeId, TypeNode};
use std::test::Fail;

/// The line of all texts.
const LINE: u32 = 7;

/// The text of a type, among those of the types of a module.
fn text_at(texts: &[String], t: TypeId) -> &str {
    match texts.get(t.index) {
        Some(text) => text.as_str(),
        None => "nothing",
    }
}

/// The text of a node, behind its line, from those of the earlier ones.
fn text_of(
    rt: &HostRuntime,
    module: &Module,
    node: &TypeNode,
    texts: &[String],
) -> Result<String, Fail> {
    let mut text = String::new(rt.alloc());
    match node {
        TypeNode::Name {
            line,
            name,
            arguments,
        } => {
            if name.index < module.names_count() {
                write!(text, "{line}:{}", module.name_text(*name))?;
            }
            for (place, argument) in arguments.iter().enumerate() {
                let before = if place == 0 { "[" } else { ", " };
                write!(text, "{before}{}", text_at(texts, *argument))?;
            }
            if !arguments.is_empty() {
                write!(text, "]")?;
            }
        }
        TypeNode::Union { line, first, rest } => {
            write!(text, "{line}:({}", text_at(texts, *first))?;
            for member in rest {
                write!(text, " | {}", text_at(texts, *member))?;
            }
            write!(text, ")")?;
        }
        TypeNode::None { line } => write!(text, "{line}:None")?,
        TypeNode::Text { line, part } => write!(text, "{line}:'{}'", part.source.as_str())?,
    }
    Ok(text)
}

/// The text of a type of a module.
fn shown(rt: &HostRuntime, module: &Module, t: TypeId) -> Result<String, Fail> {
    let mut texts = Vec::new(rt.alloc());
    for index in 0..module.types_count() {
        let node = module.type_node(TypeId { index });
        let text = text_of(rt, module, node, &texts)?;
        texts.push(text)?;
    }
    Ok(String::from_str(rt.alloc(), text_at(&texts, t))?)
}

/// The annotation that a text is, without its strings. A long text is not read.
fn unquoted_text(rt: &HostRuntime, text: &str) -> Result<String, Fail> {
    if text.len() > 4096 {
        return Err(SyntaxError::NoMemory.into());
    }
    let mut module = Module::new(rt.alloc());
    let t = type_text(rt.alloc(), text, LINE, &mut module)?;
    match unquoted(rt.alloc(), &mut module, t)? {
        Some(t) => shown(rt, &module, t),
        None => Ok(String::from_str(rt.alloc(), "no type")?),
    }
}

#[test]
fn strings_are_exchanged(rt: HostRuntime) -> Result<(), Fail> {
    for (text, read) in [
        ("int", "7:int"),
        ("None", "7:None"),
        ("dict[str, int | None]", "7:dict[7:str, 7:(7:int | 7:None)]"),
        ("'C'", "7:C"),
        ("List[\"C\"]", "7:List[7:C]"),
        ("'List[C] | None'", "7:(7:List[7:C] | 7:None)"),
        ("dict['A', 'B'] | 'C'", "7:(7:dict[7:A, 7:B] | 7:C)"),
        ("'A | B' | C", "7:(7:(7:A | 7:B) | 7:C)"),
        ("'List[\"C\"]'", "7:List[7:C]"),
        ("'\"\\'C\\'\"'", "7:C"),
        ("''", "no type"),
        ("List['1']", "no type"),
        ("A | 'x y'", "no type"),
        ("'x y' | A", "no type"),
        ("'List[\"[\"]'", "no type"),
    ] {
        assert_eq!(rt; unquoted_text(&rt, text)?.as_str(), read, "of {text}");
    }
    Ok(())
}

#[test]
fn the_annotation_stays(rt: HostRuntime) -> Result<(), Fail> {
    let mut module = Module::new(rt.alloc());
    let t = type_text(rt.alloc(), "List['C']", LINE, &mut module)?;
    let without = unquoted(rt.alloc(), &mut module, t)?;
    assert!(rt; without.is_some());
    assert_eq!(rt; shown(&rt, &module, t)?.as_str(), "7:List[7:'C']");
    Ok(())
}
