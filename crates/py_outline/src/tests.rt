use crate::Form::{Header, HeaderSimple, Simple};
use crate::HeaderKind::{Class, Def, Elif, Else, Except, ExceptAll, For, If, Try, While};
use crate::SimpleKind::{Break, Continue, Import, Other, Reraise, Return};
use crate::{Form, Load, Mark, Outline, first_misplaced};
use std::test::Fail;

/// The first misplaced one of lines in so many blocks, which are numbered from 1.
fn misplaced(rt: &HostRuntime, lines: &[(usize, Form)]) -> Result<Option<u32>, Fail> {
    let alloc = rt.alloc();
    let mut outlines = Vec::new(alloc);
    let mut line: u32 = 0;
    for (depth, form) in lines {
        line = line.saturating_add(1);
        outlines.push(Outline {
            depth: *depth,
            line,
            form: *form,
        })?;
    }
    Ok(first_misplaced(alloc, &outlines)?)
}

const OTHER: Form = Simple(Other);

#[test]
fn blocks_follow_their_headers(rt: HostRuntime) -> Result<(), Fail> {
    for (case, lines, first) in [
        ("no line", [].as_slice(), None),
        ("one line", [(0, OTHER)].as_slice(), None),
        ("a first line in a block", [(1, OTHER)].as_slice(), Some(1)),
        (
            "a block",
            [(0, Header(If)), (1, OTHER), (1, OTHER), (0, OTHER)].as_slice(),
            None,
        ),
        (
            "no block at the end",
            [(0, OTHER), (0, Header(If))].as_slice(),
            Some(2),
        ),
        (
            "no block",
            [(0, Header(If)), (0, OTHER)].as_slice(),
            Some(1),
        ),
        (
            "a block two deeper",
            [(0, Header(If)), (2, OTHER)].as_slice(),
            Some(2),
        ),
        (
            "deeper without a header",
            [(0, OTHER), (1, OTHER)].as_slice(),
            Some(2),
        ),
        (
            "a block on the line",
            [(0, HeaderSimple(If, Other)), (0, OTHER)].as_slice(),
            None,
        ),
        (
            "and one behind it",
            [(0, HeaderSimple(If, Other)), (1, OTHER)].as_slice(),
            Some(2),
        ),
        (
            "a block that begins with else",
            [(0, Header(If)), (1, HeaderSimple(Else, Other))].as_slice(),
            Some(2),
        ),
    ] {
        assert_eq!(rt; misplaced(&rt, lines)?, first, "{case}");
    }
    Ok(())
}

#[test]
fn statements_go_on(rt: HostRuntime) -> Result<(), Fail> {
    let [if_, elif, else_, while_, for_, try_, except, except_all] = [
        If, Elif, Else, While, For, Try, Except, ExceptAll,
    ].map(|header| (0, HeaderSimple(header, Other)));
    for (case, lines, first) in [
        (
            "if, elif, else",
            [if_, elif, elif, else_, (0, OTHER)].as_slice(),
            None,
        ),
        (
            "else of loops",
            [while_, else_, for_, else_].as_slice(),
            None,
        ),
        (
            "try, except, else",
            [try_, except, except, except_all, else_].as_slice(),
            None,
        ),
        ("elif first", [elif].as_slice(), Some(1)),
        (
            "else behind a statement",
            [(0, OTHER), else_].as_slice(),
            Some(2),
        ),
        ("elif behind else", [if_, else_, elif].as_slice(), Some(3)),
        (
            "else behind else",
            [while_, else_, else_].as_slice(),
            Some(3),
        ),
        ("elif behind while", [while_, elif].as_slice(), Some(2)),
        ("except behind if", [if_, except].as_slice(), Some(2)),
        (
            "except behind else",
            [try_, except, else_, except].as_slice(),
            Some(4),
        ),
        ("try at the end", [(0, OTHER), try_].as_slice(), Some(2)),
        ("try without except", [try_, (0, OTHER)].as_slice(), Some(1)),
        ("try before else", [try_, else_].as_slice(), Some(1)),
        (
            "except behind one that catches all",
            [try_, except_all, except].as_slice(),
            Some(2),
        ),
        (
            "elif behind a deeper block",
            [
                (0, Header(If)),
                (1, Header(While)),
                (2, OTHER),
                (0, Header(Elif)),
                (1, OTHER),
            ]
            .as_slice(),
            None,
        ),
        (
            "elif in a deeper block",
            [
                (0, Header(If)),
                (1, Header(While)),
                (2, OTHER),
                (1, Header(Elif)),
                (2, OTHER),
            ]
            .as_slice(),
            Some(4),
        ),
        (
            "try whose except is deeper",
            [
                (0, Header(Try)),
                (1, Header(Try)),
                (2, OTHER),
                (1, except.1),
                (0, OTHER),
            ]
            .as_slice(),
            Some(1),
        ),
    ] {
        assert_eq!(rt; misplaced(&rt, lines)?, first, "{case}");
    }
    Ok(())
}

#[test]
fn lines_stand_in_their_blocks(rt: HostRuntime) -> Result<(), Fail> {
    for (case, lines, first) in [
        (
            "return of a function",
            [(0, Header(Def)), (1, Header(If)), (2, Simple(Return))].as_slice(),
            None,
        ),
        (
            "return of no function",
            [(0, OTHER), (0, Simple(Return))].as_slice(),
            Some(2),
        ),
        (
            "return behind a function",
            [(0, HeaderSimple(Def, Return)), (0, Simple(Return))].as_slice(),
            Some(2),
        ),
        (
            "return of a class",
            [(0, Header(Class)), (1, Simple(Return))].as_slice(),
            Some(2),
        ),
        (
            "break of a loop",
            [(0, Header(For)), (1, HeaderSimple(If, Break))].as_slice(),
            None,
        ),
        (
            "break of no loop",
            [(0, Header(If)), (1, Simple(Break))].as_slice(),
            Some(2),
        ),
        (
            "break on the line of a loop",
            [(0, HeaderSimple(While, Break))].as_slice(),
            None,
        ),
        (
            "break behind a loop",
            [(0, Header(While)), (1, OTHER), (0, Simple(Break))].as_slice(),
            Some(3),
        ),
        (
            "break of the else of a loop",
            [
                (0, Header(While)),
                (1, OTHER),
                (0, HeaderSimple(Else, Break)),
            ]
            .as_slice(),
            Some(3),
        ),
        (
            "continue of a loop",
            [(0, Header(While)), (1, Simple(Continue))].as_slice(),
            None,
        ),
        (
            "continue of no loop",
            [(0, HeaderSimple(If, Continue))].as_slice(),
            Some(1),
        ),
        (
            "raise of a handler",
            [
                (0, HeaderSimple(Try, Other)),
                (0, Header(Except)),
                (1, Simple(Reraise)),
            ]
            .as_slice(),
            None,
        ),
        (
            "raise of a handler for all",
            [
                (0, HeaderSimple(Try, Other)),
                (0, HeaderSimple(ExceptAll, Reraise)),
            ]
            .as_slice(),
            None,
        ),
        (
            "raise before the handler",
            [
                (0, Header(Try)),
                (1, Simple(Reraise)),
                (0, HeaderSimple(Except, Other)),
            ]
            .as_slice(),
            Some(2),
        ),
        ("import", [(0, OTHER), (0, Simple(Import))].as_slice(), None),
        (
            "import in a block",
            [(0, HeaderSimple(If, Import))].as_slice(),
            Some(1),
        ),
        (
            "class in a block",
            [(0, Header(If)), (1, HeaderSimple(Class, Other))].as_slice(),
            Some(2),
        ),
        (
            "function of a class",
            [(0, Header(Class)), (1, Header(Def)), (2, Simple(Return))].as_slice(),
            None,
        ),
        (
            "function of a function",
            [(0, Header(Def)), (1, HeaderSimple(Def, Other))].as_slice(),
            Some(2),
        ),
        (
            "function in a block of a class",
            [
                (0, Header(Class)),
                (1, Header(If)),
                (2, HeaderSimple(Def, Other)),
            ]
            .as_slice(),
            Some(3),
        ),
    ] {
        assert_eq!(rt; misplaced(&rt, lines)?, first, "{case}");
    }
    Ok(())
}

#[test]
fn the_smallest_line_is_told(rt: HostRuntime) -> Result<(), Fail> {
    for (case, lines, first) in [
        (
            "two of one kind",
            [(0, Simple(Return)), (0, Simple(Break))].as_slice(),
            Some(1),
        ),
        (
            "what shows later",
            [(0, Header(Try)), (1, Simple(Break)), (0, OTHER)].as_slice(),
            Some(1),
        ),
        (
            "what shows sooner",
            [(0, Simple(Break)), (0, Header(Try)), (1, OTHER), (0, OTHER)].as_slice(),
            Some(1),
        ),
        (
            "a function in a loop",
            [(0, Header(While)), (1, Header(Def)), (2, Simple(Break))].as_slice(),
            Some(2),
        ),
    ] {
        assert_eq!(rt; misplaced(&rt, lines)?, first, "{case}");
    }
    Ok(())
}

/// Whether a line of these words is overloaded, each word as often as is said; no sign stands for an operand.
fn is_overloaded(rt: &HostRuntime, words: &[(u32, Option<Mark>)]) -> Result<bool, Fail> {
    let mut load = Load::new(rt.alloc())?;
    for (times, word) in words {
        for _ in 0..*times {
            match word {
                Some(mark) => load.push_sign(*mark)?,
                None => load.push_operand(),
            }
        }
    }
    Ok(load.is_over())
}

#[test]
fn loads_are_told(rt: HostRuntime) -> Result<(), Fail> {
    let [open, close, comma, not, tilde, minus] = [
        Mark::OpenParen,
        Mark::CloseBrace,
        Mark::Comma,
        Mark::Not,
        Mark::Tilde,
        Mark::Minus,
    ]
    .map(Some);
    for (case, words, is_over) in [
        ("no word", [].as_slice(), false),
        ("100 brackets", [(100, open), (1, None)].as_slice(), false),
        ("101 brackets", [(101, open)].as_slice(), true),
        ("100 prefixes", [(100, not), (1, None)].as_slice(), false),
        ("101 prefixes", [(101, tilde)].as_slice(), true),
        (
            "brackets and prefixes",
            [(60, open), (41, not)].as_slice(),
            true,
        ),
        (
            "closed brackets",
            [(100, open), (100, close), (100, open)].as_slice(),
            false,
        ),
        (
            "prefixes in a closed bracket",
            [(1, open), (60, not), (1, close), (60, not)].as_slice(),
            false,
        ),
        (
            "prefixes before a closed bracket",
            [(60, not), (1, open), (1, close), (41, not)].as_slice(),
            true,
        ),
        (
            "prefixes behind a comma",
            [(100, not), (1, comma), (100, not)].as_slice(),
            false,
        ),
        (
            "a minus between operands",
            [(1, None), (101, minus)].as_slice(),
            false,
        ),
        (
            "too many behind it",
            [(1, None), (102, minus)].as_slice(),
            true,
        ),
        (
            "a minus behind an operand",
            [(100, minus), (1, None), (1, minus)].as_slice(),
            false,
        ),
        (
            "a minus behind a bracket",
            [(1, open), (1, close), (1, minus), (100, minus)].as_slice(),
            false,
        ),
        (
            "too many that are closed",
            [(2, close), (200, not)].as_slice(),
            false,
        ),
        (
            "what was over stays so",
            [(101, open), (101, close), (1, comma)].as_slice(),
            true,
        ),
    ] {
        assert_eq!(rt; is_overloaded(&rt, words)?, is_over, "{case}");
    }
    Ok(())
}
