use crate::form_of;
use py_lines::{Unread, read_line};
use py_outline::Form::{self, Header, HeaderSimple, Simple};
use py_outline::HeaderKind::{Class, Def, Elif, Else, Except, ExceptAll, For, If, Try, While};
use py_outline::SimpleKind::{Break, Continue, Import, Other, Reraise, Return};
use py_tokens::{TokenError, scan};
use py_tree::Module;
use py_words::{LineWords, word_lines};
use std::test::Fail;
use xh_outside::NoMemory;

/// The words of the first logical line of a text. A long text is not read.
fn words_of(rt: &HostRuntime, text: &str) -> Result<LineWords, Fail> {
    if text.len() > 4096 {
        return Err(TokenError::NoMemory.into());
    }
    let tokens = scan(rt.alloc(), text)?;
    match word_lines(rt.alloc(), &tokens)?.into_iter().next() {
        Some(line) => Ok(line.words),
        None => Ok(LineWords::new(rt.alloc())),
    }
}

/// The form of the line that a text spells, where it spells one.
fn form_in(rt: &HostRuntime, text: &str) -> Result<Option<Form>, Fail> {
    let words = words_of(rt, text)?;
    let mut module = Module::new(rt.alloc());
    match read_line(rt.alloc(), &words, &mut module) {
        Ok(node) => Ok(Some(form_of(&module, &node))),
        Err(Unread::NoForm) => Ok(None),
        Err(Unread::NoMemory) => Err(NoMemory.into()),
    }
}

#[test]
fn statements_are_of_their_kinds(rt: HostRuntime) -> Result<(), Fail> {
    for (text, kind) in [
        ("a = 1", Other),
        ("a: int", Other),
        ("a += 1", Other),
        ("f(a)", Other),
        ("return", Return),
        ("return a", Return),
        ("pass", Other),
        ("break", Break),
        ("continue", Continue),
        ("assert a", Other),
        ("raise", Reraise),
        ("raise E", Other),
        ("raise E(a)", Other),
        ("del a[0]", Other),
        ("import a.b", Import),
        ("from a import b", Import),
    ] {
        assert_eq!(rt; form_in(&rt, text)?, Some(Simple(kind)), "of {text}");
    }
    Ok(())
}

#[test]
fn headers_are_of_their_kinds(rt: HostRuntime) -> Result<(), Fail> {
    for (text, kind) in [
        ("def f(): ", Def),
        ("class C:", Class),
        ("if a:", If),
        ("elif a:", Elif),
        ("else:", Else),
        ("while a:", While),
        ("for a in b:", For),
        ("try:", Try),
        ("except E:", Except),
        ("except (E, F):", Except),
        ("except:", ExceptAll),
    ] {
        assert_eq!(rt; form_in(&rt, text)?, Some(Header(kind)), "of {text}");
    }
    assert_eq!(rt;
        form_in(&rt, "else: break")?,
        Some(HeaderSimple(Else, Break))
    );
    assert_eq!(rt;
        form_in(&rt, "except: raise")?,
        Some(HeaderSimple(ExceptAll, Reraise))
    );
    assert_eq!(rt; form_in(&rt, "if a b")?, None);
    Ok(())
}
