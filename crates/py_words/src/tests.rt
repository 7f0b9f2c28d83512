use crate::{LineWords, Mark, Word, WordLine, word_lines};
use py_tokens::{TokenError, scan};
use py_tree::StrPart;
use spec_trees::{Operator, Prefix};
use std::test::Fail;

/// The logical lines of a text. A long one is not read.
fn lines_of(rt: &HostRuntime, text: &str) -> Result<Vec<WordLine>, Fail> {
    if text.len() > 4096 {
        return Err(TokenError::NoMemory.into());
    }
    let tokens = scan(rt.alloc(), text)?;
    Ok(word_lines(rt.alloc(), &tokens)?)
}

/// The words of the first logical line of a text.
fn words_of(rt: &HostRuntime, text: &str) -> Result<LineWords, Fail> {
    let lines = lines_of(rt, text)?;
    match lines.into_iter().next() {
        Some(line) => Ok(line.words),
        None => Ok(LineWords::new(rt.alloc())),
    }
}

/// The words, each behind a blank and its line.
fn shown(rt: &HostRuntime, words: &LineWords) -> Result<String, Fail> {
    let mut shown = String::new(rt.alloc());
    for pos in 0..words.len() {
        write!(shown, " {}:", words.line(pos))?;
        match words.first(pos) {
            Some(Word::Name { text, .. }) => write!(shown, "{}", text.as_str())?,
            Some(Word::Integer { value, .. }) => write!(shown, "{value}")?,
            Some(Word::Text(part)) => write!(shown, "'{}'", part.source.as_str())?,
            Some(Word::Sign { mark, .. }) => write!(shown, "{mark:?}")?,
            None => write!(shown, "none")?,
        }
    }
    Ok(shown)
}

/// The lines of a text, each with its depth and its words.
fn shown_lines(rt: &HostRuntime, text: &str) -> Result<String, Fail> {
    let mut lines = String::new(rt.alloc());
    for line in &lines_of(rt, text)? {
        writeln!(lines, "{}{}", line.depth, shown(rt, &line.words)?)?;
    }
    Ok(lines)
}

#[test]
fn lines_have_words(rt: HostRuntime) -> Result<(), Fail> {
    for (text, lines) in [
        ("", ""),
        ("\n# only a comment\n", ""),
        ("ﬁ = 0x1F", "0 1:fi 1:Assign 1:31\n"),
        (
            "f(\n  'a',\n)  # comment\n",
            "0 1:f 1:OpenParen 2:'a' 2:Comma 3:CloseParen\n",
        ),
        (
            "if a:\n  while b:\n\n    c\n  d\ne",
            "0 1:If 1:a 1:Colon\n1 2:While 2:b 2:Colon\n2 4:c\n1 5:d\n0 6:e\n",
        ),
        ("lambda @", "0 1:Reserved 1:Reserved\n"),
    ] {
        assert_eq!(rt; shown_lines(&rt, text)?.as_str(), lines, "of {text}");
    }
    Ok(())
}

#[test]
fn signs_have_marks(rt: HostRuntime) -> Result<(), Fail> {
    for (text, marks) in [
        (
            "+ - * // % & | ^ ~ << >> < > <= >= == !=",
            " 1:Plus 1:Minus 1:Star 1:DoubleSlash 1:Percent 1:Ampersand 1:Bar 1:Caret 1:Tilde 1:ShiftLeft 1:ShiftRight 1:Less 1:Greater 1:LessEqual 1:GreaterEqual 1:Equal 1:NotEqual",
        ),
        (
            "() [] {} , : . = ->",
            " 1:OpenParen 1:CloseParen 1:OpenBracket 1:CloseBracket 1:OpenBrace 1:CloseBrace 1:Comma 1:Colon 1:Dot 1:Assign 1:Arrow",
        ),
        (
            "+= -= *= //= %= &= |= ^= <<= >>=",
            " 1:PlusAssign 1:MinusAssign 1:StarAssign 1:DoubleSlashAssign 1:PercentAssign 1:AmpersandAssign 1:BarAssign 1:CaretAssign 1:ShiftLeftAssign 1:ShiftRightAssign",
        ),
        (
            "True False None and assert break class continue def del elif else except",
            " 1:True 1:False 1:None 1:And 1:Assert 1:Break 1:Class 1:Continue 1:Def 1:Del 1:Elif 1:Else 1:Except",
        ),
        (
            "for from if import in is not or pass raise return try while",
            " 1:For 1:From 1:If 1:Import 1:In 1:Is 1:Not 1:Or 1:Pass 1:Raise 1:Return 1:Try 1:While",
        ),
    ] {
        let words = words_of(&rt, text)?;
        assert_eq!(rt; shown(&rt, &words)?.as_str(), marks, "of {text}");
    }
    Ok(())
}

#[test]
fn readers_tell_what_stands_at_a_place(rt: HostRuntime) -> Result<(), Fail> {
    let words = words_of(&rt, "k = not in is not - is 7 and += x")?;
    assert_eq!(rt; words.len(), 12);
    assert_eq!(rt; (words.line(0), words.line(12)), (1, 0));

    assert_eq!(rt; words.name(0), Some(("k", 1)));
    assert_eq!(rt; words.name(1), None);
    assert_eq!(rt; words.keyword(0), Some(("k", 2)));
    assert_eq!(rt; words.keyword(11), None);

    assert_eq!(rt; words.sign(1, Mark::Assign), Some(2));
    assert_eq!(rt; words.sign(1, Mark::Equal), None);
    assert_eq!(rt; words.sign(usize::MAX, Mark::Assign), None);

    assert_eq!(rt; words.operator(2, 6), Some((Operator::NotIn, 4)));
    assert_eq!(rt; words.operator(4, 6), Some((Operator::IsNot, 6)));
    assert_eq!(rt; words.operator(5, 6), None);
    assert_eq!(rt; words.operator(6, 1), Some((Operator::Subtract, 7)));
    assert_eq!(rt; words.operator(6, 0), None);
    assert_eq!(rt; words.operator(7, 6), Some((Operator::Is, 8)));
    assert_eq!(rt; words.operator(9, 8), Some((Operator::And, 10)));

    assert_eq!(rt; words.prefix(6, 0), Some((Prefix::Minus, 7)));
    assert_eq!(rt; words.prefix(5, 8), Some((Prefix::Not, 6)));
    assert_eq!(rt; words.prefix(5, 0), None);
    assert_eq!(rt; words.augmented(10), Some((Operator::Add, 11)));
    assert_eq!(rt; words.augmented(1), None);

    assert!(rt; matches!(words.first(8), Some(Word::Integer { line: 1, value: 7 })));
    assert!(rt; words.first(12).is_none());
    Ok(())
}

/// Whether a part has these fields, the value as text.
fn is_part(part: &StrPart, value: &str, source: &str, raw: bool, indent: u32, line: u32) -> bool {
    part.value.as_slice().iter().copied().eq(value.chars())
        && part.source.as_str() == source
        && part.raw == raw
        && part.indent == indent
        && part.line == line
}

#[test]
fn strings_have_their_parts(rt: HostRuntime) -> Result<(), Fail> {
    let alloc = rt.alloc();
    let words = words_of(&rt, "  f(R'\\n' 'é\\x41'\n '''a\r\nb''')")?;
    match words.part(alloc, 2)? {
        Some((part, next)) => {
            assert_eq!(rt; next, 3);
            assert!(rt; is_part(&part, "\\n", "\\n", true, 2, 1));
        }
        None => assert!(rt; false, "a string stands there"),
    }
    assert!(rt; words.part(alloc, 1)?.is_none());

    let (parts, next) = words.strings(alloc, 3)?;
    assert_eq!(rt; (parts.len(), next), (2, 5));
    assert!(rt; is_part(&parts[0], "éA", "é\\x41", false, 2, 1));
    assert!(rt; is_part(&parts[1], "a\nb", "a\nb", false, 1, 2));
    let (parts, next) = words.strings(alloc, 5)?;
    assert_eq!(rt; (parts.len(), next), (0, 5));
    Ok(())
}

#[test]
fn words_move_to_a_line(rt: HostRuntime) -> Result<(), Fail> {
    let mut words = words_of(&rt, "(x,\n1, '''a\nb''')")?;
    assert_eq!(rt; words.line(3), 2);
    words.move_to(7);
    let moved = shown(&rt, &words)?;
    assert_eq!(rt;
        moved.as_str(),
        " 7:OpenParen 7:x 7:Comma 7:1 7:Comma 7:'a\nb' 7:CloseParen"
    );
    Ok(())
}
