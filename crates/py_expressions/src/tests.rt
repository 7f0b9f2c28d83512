use crate::{Unread, read_call_arguments, read_expression, read_primary};
use py_tokens::{TokenError, scan};
use py_tree::{
    Argument, ArgumentsNode, ExprId, ExprNode, GeneratorNode, Link, Module, NameId, Pair, StrPart,
};
use py_words::{LineWords, word_lines};
use std::test::Fail;
use xh_outside::NoMemory;

/// The words of the first logical line of a text. A long text is not read.
fn words_of(rt: &HostRuntime, text: &str) -> Result<LineWords, Fail> {
    if text.len() > 4096 {
        return Err(TokenError::NoMemory.into());
    }
    let tokens = scan(rt.alloc(), text)?;
    match word_lines(rt.alloc(), &tokens)?.into_iter().next() {
        Some(line) => Ok(line.words),
        None => Ok(LineWords::new(rt.alloc())),
    }
}

/// The text of an expression, among those of the expressions of a module.
fn at(texts: &[String], e: ExprId) -> &str {
    match texts.get(e.index) {
        Some(text) => text.as_str(),
        None => "nothing",
    }
}

fn name_at(module: &Module, n: NameId) -> &str {
    if n.index < module.names_count() {
        return module.name_text(n);
    }
    "nothing"
}

/// The text of an end of a slice.
fn bound_at(texts: &[String], e: Option<ExprId>) -> &str {
    match e {
        Some(e) => at(texts, e),
        None => "",
    }
}

fn write_generator(
    text: &mut String,
    module: &Module,
    node: &GeneratorNode,
    texts: &[String],
) -> Result<(), Fail> {
    let variable = name_at(module, node.variable);
    let (element, iterable) = (at(texts, node.element), at(texts, node.iterable));
    write!(text, "{element} for {variable} in {iterable}")?;
    for condition in &node.conditions {
        write!(text, " if {}", at(texts, *condition))?;
    }
    Ok(())
}

fn write_argument(
    text: &mut String,
    module: &Module,
    before: &str,
    argument: &Argument,
    texts: &[String],
) -> Result<(), Fail> {
    let value = at(texts, argument.value);
    match argument.name {
        Some(name) => write!(text, "{before}{}={value}", name_at(module, name))?,
        None => write!(text, "{before}{value}")?,
    }
    Ok(())
}

fn write_arguments(
    text: &mut String,
    module: &Module,
    node: &ArgumentsNode,
    texts: &[String],
) -> Result<(), Fail> {
    match node {
        ArgumentsNode::Generated(node) => write_generator(text, module, node, texts)?,
        ArgumentsNode::Listed(list) => {
            for (place, argument) in list.iter().enumerate() {
                let before = if place == 0 { "" } else { ", " };
                write_argument(text, module, before, argument, texts)?;
            }
        }
    }
    Ok(())
}

fn write_items(text: &mut String, items: &[ExprId], texts: &[String]) -> Result<(), Fail> {
    for (place, item) in items.iter().enumerate() {
        let before = if place == 0 { "" } else { ", " };
        write!(text, "{before}{}", at(texts, *item))?;
    }
    Ok(())
}

fn write_strings(text: &mut String, first: &StrPart, rest: &[StrPart]) -> Result<(), Fail> {
    write!(text, "'{}'", first.source.as_str())?;
    for part in rest {
        write!(text, "'{}'", part.source.as_str())?;
    }
    Ok(())
}

fn write_pairs(text: &mut String, pairs: &[Pair], texts: &[String]) -> Result<(), Fail> {
    write!(text, "{{")?;
    for pair in pairs {
        write!(text, "{}: {};", at(texts, pair.key), at(texts, pair.value))?;
    }
    write!(text, "}}")?;
    Ok(())
}

fn write_chain(
    text: &mut String,
    first: ExprId,
    links: &[Link],
    texts: &[String],
) -> Result<(), Fail> {
    write!(text, "({}", at(texts, first))?;
    for link in links {
        write!(text, " {:?} {}", link.operator, at(texts, link.operand))?;
    }
    write!(text, ")")?;
    Ok(())
}

/// Writes a node that is made of operators and their operands.
fn write_operation(text: &mut String, node: &ExprNode, texts: &[String]) -> Result<(), Fail> {
    match node {
        ExprNode::Prefixed {
            operator,
            operand,
            ..
        } => {
            write!(text, "({operator:?} {})", at(texts, *operand))?;
            Ok(())
        }
        ExprNode::Binary {
            operator,
            left,
            right,
            ..
        } => {
            let (left, right) = (at(texts, *left), at(texts, *right));
            write!(text, "({left} {operator:?} {right})")?;
            Ok(())
        }
        ExprNode::Chain { first, links, .. } => write_chain(text, *first, links, texts),
        ExprNode::Choice {
            value,
            condition,
            otherwise,
            ..
        } => {
            let (value, condition) = (at(texts, *value), at(texts, *condition));
            let otherwise = at(texts, *otherwise);
            write!(text, "({value} if {condition} else {otherwise})")?;
            Ok(())
        }
        _ => Ok(()),
    }
}

fn write_call(
    text: &mut String,
    module: &Module,
    function: ExprId,
    arguments: &ArgumentsNode,
    texts: &[String],
) -> Result<(), Fail> {
    write!(text, "{}<", at(texts, function))?;
    write_arguments(text, module, arguments, texts)?;
    write!(text, ">")?;
    Ok(())
}

/// Writes a node that begins with another one, or an operation.
fn write_suffixed(
    text: &mut String,
    module: &Module,
    node: &ExprNode,
    texts: &[String],
) -> Result<(), Fail> {
    match node {
        ExprNode::Attribute { object, name, .. } => {
            write!(text, "{}.{}", at(texts, *object), name_at(module, *name))?;
            Ok(())
        }
        ExprNode::Call {
            function,
            arguments,
            ..
        } => write_call(text, module, *function, arguments, texts),
        ExprNode::Index { object, index, .. } => {
            write!(text, "{}[{}]", at(texts, *object), at(texts, *index))?;
            Ok(())
        }
        ExprNode::Slice {
            object,
            from,
            to,
            ..
        } => {
            let (from, to) = (bound_at(texts, *from), bound_at(texts, *to));
            write!(text, "{}[{from}:{to}]", at(texts, *object))?;
            Ok(())
        }
        other => write_operation(text, other, texts),
    }
}

/// Writes a node in brackets, or one of the forms below.
fn write_bracketed(
    text: &mut String,
    module: &Module,
    node: &ExprNode,
    texts: &[String],
) -> Result<(), Fail> {
    match node {
        ExprNode::Group { inner, .. } => {
            write!(text, "({})", at(texts, *inner))?;
            Ok(())
        }
        ExprNode::List { items, .. } => {
            write!(text, "[")?;
            write_items(text, items, texts)?;
            write!(text, "]")?;
            Ok(())
        }
        ExprNode::Dict { pairs, .. } => write_pairs(text, pairs, texts),
        ExprNode::Comprehension { generator, .. } => {
            write!(text, "[")?;
            write_generator(text, module, generator, texts)?;
            write!(text, "]")?;
            Ok(())
        }
        other => write_suffixed(text, module, other, texts),
    }
}

/// The text of a node, from those of the earlier ones.
fn text_of(
    rt: &HostRuntime,
    module: &Module,
    node: &ExprNode,
    texts: &[String],
) -> Result<String, Fail> {
    let mut text = String::new(rt.alloc());
    match node {
        ExprNode::Name { name, .. } => write!(text, "{}", name_at(module, *name))?,
        ExprNode::Integer { value, .. } => write!(text, "{value}")?,
        ExprNode::Text { first, rest, .. } => write_strings(&mut text, first, rest)?,
        ExprNode::Truth { value, .. } => write!(text, "{value}")?,
        ExprNode::None { .. } => write!(text, "None")?,
        other => write_bracketed(&mut text, module, other, texts)?,
    }
    Ok(text)
}

/// The texts of all the expressions of a module.
fn texts_of(rt: &HostRuntime, module: &Module) -> Result<Vec<String>, Fail> {
    let mut texts = Vec::new(rt.alloc());
    for index in 0..module.exprs_count() {
        let text = text_of(rt, module, module.expr(ExprId { index }), &texts)?;
        texts.push(text)?;
    }
    Ok(texts)
}

/// The text of what was read, and the place behind it.
fn shown(
    rt: &HostRuntime,
    module: &Module,
    read: Result<(ExprId, usize), Unread>,
) -> Result<String, Fail> {
    let mut shown = String::new(rt.alloc());
    match read {
        Ok((e, next)) => {
            let texts = texts_of(rt, module)?;
            write!(shown, "{} to {next}", at(&texts, e))?;
        }
        Err(Unread::NoForm) => write!(shown, "no form")?,
        Err(Unread::NoMemory) => return Err(NoMemory.into()),
    }
    Ok(shown)
}

/// The expression that a text begins with, and the place behind it.
fn read(rt: &HostRuntime, text: &str) -> Result<String, Fail> {
    let words = words_of(rt, text)?;
    let mut module = Module::new(rt.alloc());
    let read = read_expression(rt.alloc(), &words, &mut module, 0);
    shown(rt, &module, read)
}

#[test]
fn operators_have_their_levels(rt: HostRuntime) -> Result<(), Fail> {
    for (text, tree) in [
        ("a - b - c", "((a Subtract b) Subtract c) to 5"),
        ("a + b * c", "(a Add (b Multiply c)) to 5"),
        ("-a // b % c", "(((Minus a) FloorDivide b) Modulo c) to 6"),
        ("~ + - a", "(Invert (Plus (Minus a))) to 4"),
        (
            "a << b + c >> d",
            "((a ShiftLeft (b Add c)) ShiftRight d) to 7",
        ),
        ("a | b ^ c & d", "(a BitOr (b BitXor (c BitAnd d))) to 7"),
        ("a < b <= c == d", "(a Less b LessEqual c Equal d) to 7"),
        ("a not in b is not c", "(a NotIn b IsNot c) to 7"),
        ("a is b in c", "(a Is b In c) to 5"),
        ("not a and not b", "((Not a) And (Not b)) to 5"),
        ("not a == b", "(Not (a Equal b)) to 4"),
        ("a or b and c or d", "(a Or (b And c) Or d) to 7"),
        (
            "a if b else c if d else e",
            "(a if b else (c if d else e)) to 9",
        ),
        (
            "a or b if c or d else e or f",
            "((a Or b) if (c Or d) else (e Or f)) to 11",
        ),
        ("-x.y", "(Minus x.y) to 4"),
        ("a * -b", "(a Multiply (Minus b)) to 4"),
        (
            "a > b >= c != d",
            "(a Greater b GreaterEqual c NotEqual d) to 7",
        ),
    ] {
        assert_eq!(rt; read(&rt, text)?.as_str(), tree, "of {text}");
    }
    Ok(())
}

#[test]
fn forms_are_read(rt: HostRuntime) -> Result<(), Fail> {
    for (text, tree) in [
        ("x", "x to 1"),
        ("12", "12 to 1"),
        ("'a' \"b\"", "'a''b' to 2"),
        ("True", "true to 1"),
        ("False", "false to 1"),
        ("None", "None to 1"),
        ("(a)", "(a) to 3"),
        ("((a))", "((a)) to 5"),
        ("[]", "[] to 2"),
        ("[a, b, c]", "[a, b, c] to 7"),
        ("[a, b,]", "[a, b] to 6"),
        ("[a for x in b]", "[a for x in b] to 7"),
        (
            "[a for x in b if c if d or e]",
            "[a for x in b if c if (d Or e)] to 13",
        ),
        ("{}", "{} to 2"),
        ("{a: b, c: d,}", "{a: b;c: d;} to 10"),
        ("a.b.c", "a.b.c to 5"),
        ("f()", "f<> to 3"),
        ("f(a, b, c=d, e=g)", "f<a, b, c=d, e=g> to 14"),
        ("f(a,)", "f<a> to 5"),
        ("f(a for x in b)", "f<a for x in b> to 8"),
        ("f(a)(b)[c].d(e)", "f<a><b>[c].d<e> to 15"),
        ("a[b:c]", "a[b:c] to 6"),
        ("a[:]", "a[:] to 4"),
        ("a[b:]", "a[b:] to 5"),
        ("a[:c]", "a[:c] to 5"),
        ("a b", "a to 1"),
        ("a = b", "a to 1"),
        ("a, b", "a to 1"),
        ("a if b", "no form"),
        ("a if b else", "no form"),
        ("a +", "no form"),
        ("not", "no form"),
        ("()", "no form"),
        ("(a, b)", "no form"),
        ("[,]", "no form"),
        ("[a b]", "no form"),
        ("[a for x.y in b]", "no form"),
        ("{a}", "no form"),
        ("{a: b, c}", "no form"),
        ("f(a=1, 2)", "no form"),
        ("f(a b)", "no form"),
        ("f(a, b for x in c)", "no form"),
        ("f(k=a for x in b)", "no form"),
        ("a.1", "no form"),
        ("a.if", "no form"),
        ("a[]", "no form"),
        ("a[b:c:d]", "no form"),
        ("", "no form"),
        ("lambda x: x", "no form"),
        ("**a", "no form"),
    ] {
        assert_eq!(rt; read(&rt, text)?.as_str(), tree, "of {text}");
    }
    Ok(())
}

#[test]
fn primaries_and_arguments_are_read(rt: HostRuntime) -> Result<(), Fail> {
    for (text, start, tree) in [
        ("x = a.b + c", 2, "a.b to 5"),
        ("- a", 0, "no form"),
        ("del a[b]", 1, "a[b] to 5"),
        ("a", 1, "no form"),
        ("a", usize::MAX, "no form"),
    ] {
        let words = words_of(&rt, text)?;
        let mut module = Module::new(rt.alloc());
        let read = read_primary(rt.alloc(), &words, &mut module, start);
        assert_eq!(rt; shown(&rt, &module, read)?.as_str(), tree, "of {text}");
    }
    let words = words_of(&rt, "raise E(a, b=c) if")?;
    let mut module = Module::new(rt.alloc());
    let mut text = String::new(rt.alloc());
    match read_call_arguments(rt.alloc(), &words, &mut module, 3) {
        Ok((arguments, next)) => {
            let texts = texts_of(&rt, &module)?;
            write_arguments(&mut text, &module, &arguments, &texts)?;
            assert_eq!(rt; next, 9);
        }
        Err(_) => assert!(rt; false, "there are arguments"),
    }
    assert_eq!(rt; text.as_str(), "a, b=c");
    Ok(())
}

/// The line of a node.
fn line_of(node: &ExprNode) -> u32 {
    match node {
        ExprNode::Name { line, .. }
        | ExprNode::Integer { line, .. }
        | ExprNode::Text { line, .. }
        | ExprNode::Truth { line, .. }
        | ExprNode::None { line }
        | ExprNode::Group { line, .. }
        | ExprNode::List { line, .. }
        | ExprNode::Dict { line, .. }
        | ExprNode::Comprehension { line, .. }
        | ExprNode::Attribute { line, .. }
        | ExprNode::Call { line, .. }
        | ExprNode::Index { line, .. }
        | ExprNode::Slice { line, .. }
        | ExprNode::Prefixed { line, .. }
        | ExprNode::Binary { line, .. }
        | ExprNode::Chain { line, .. }
        | ExprNode::Choice { line, .. } => *line,
    }
}

#[test]
fn each_node_has_the_line_of_its_first_word(rt: HostRuntime) -> Result<(), Fail> {
    // f, a, b, a + b, c, the call, the brackets
    let words = words_of(&rt, "(\nf(\na\n+ b,\nc)\n)")?;
    let mut module = Module::new(rt.alloc());
    let read = read_expression(rt.alloc(), &words, &mut module, 0);
    assert_eq!(rt;
        shown(&rt, &module, read)?.as_str(),
        "(f<(a Add b), c>) to 10"
    );
    let mut lines = Vec::new(rt.alloc());
    for index in 0..module.exprs_count() {
        lines.push(line_of(module.expr(ExprId { index })))?;
    }
    assert!(rt; lines.as_slice() == [2, 3, 4, 3, 5, 2, 1].as_slice());
    Ok(())
}

#[test]
fn nodes_that_were_there_stay(rt: HostRuntime) -> Result<(), Fail> {
    let mut module = Module::new(rt.alloc());
    for (text, tree) in [
        ("a + b", "(a Add b) to 3"),
        ("c * [d] *", "no form"),
        ("b", "b to 1"),
    ] {
        let words = words_of(&rt, text)?;
        let read = read_expression(rt.alloc(), &words, &mut module, 0);
        assert_eq!(rt; shown(&rt, &module, read)?.as_str(), tree, "of {text}");
    }
    let texts = texts_of(&rt, &module)?;
    for (index, text) in ["a", "b", "(a Add b)"].into_iter().enumerate() {
        assert_eq!(rt; at(&texts, ExprId { index }), text);
    }
    Ok(())
}
