use crate::escapes::{has_value, inside, text_value};
use crate::values::{integer_value, is_zero_led};
use crate::{TokenError, Tokens, scan};
use std::test::Fail;

/// The letters of a text.
fn letters(rt: &HostRuntime, text: &str) -> Result<Vec<char>, Fail> {
    Ok(text.chars().collect(rt.alloc())?)
}

#[test]
fn integers_have_values(rt: HostRuntime) -> Result<(), Fail> {
    for (spelling, value) in [
        ("0", Some(0)),
        ("00", Some(0)),
        ("1_000", Some(1000)),
        ("0xFF", Some(255)),
        ("0Xd_e", Some(222)),
        ("0o17", Some(15)),
        ("0B101", Some(5)),
        (
            "170141183460469231731687303715884105727",
            Some(170141183460469231731687303715884105727),
        ),
        ("170141183460469231731687303715884105728", None),
        (
            "0x7fffffffffffffffffffffffffffffff",
            Some(170141183460469231731687303715884105727),
        ),
        ("0x80000000000000000000000000000000", None),
        (
            "1_000_000_000_000_000_000_000_000_000_000_000_000_000_000",
            None,
        ),
    ] {
        let spelled = letters(&rt, spelling)?;
        assert_eq!(rt; integer_value(&spelled), value, "of {spelling}");
    }
    Ok(())
}

#[test]
fn integers_begin_with_zero(rt: HostRuntime) -> Result<(), Fail> {
    for (spelling, led) in [
        ("0", false),
        ("00", false),
        ("0_0", false),
        ("007", true),
        ("0_8", true),
        ("0x1", false),
        ("10", false),
    ] {
        let spelled = letters(&rt, spelling)?;
        assert_eq!(rt; is_zero_led(&spelled), led, "of {spelling}");
    }
    Ok(())
}

#[test]
fn strings_have_values(rt: HostRuntime) -> Result<(), Fail> {
    for (literal, value) in [
        (r#"''"#, ""),
        (r#"'a"b'"#, "a\"b"),
        (r#"'\n\x41'"#, "\nA"),
        (r#""\u00e9\U0001F600""#, "\u{e9}\u{1f600}"),
        (r#"'\101\0\1234\18\777'"#, "A\0S4\u{1}8\u{1ff}"),
        (r#"'\q\\\'\"'"#, "\\q\\'\""),
        (r#"'\a\b\f\r\t\v'"#, "\u{7}\u{8}\u{c}\r\t\u{b}"),
        ("'a\\\nb'", "ab"),
        ("'''a\n\"'b'''", "a\n\"'b"),
        (r#"r'\n\xZ\''"#, r"\n\xZ\'"),
        (r#"R"""\N"x""""#, r#"\N"x"#),
    ] {
        let spelled = letters(&rt, literal)?;
        assert!(rt; has_value(&spelled), "{literal}");
        let found = text_value(rt.alloc(), &spelled)?;
        let wanted = letters(&rt, value)?;
        match found {
            Some(text) => assert_eq!(rt; text.as_slice(), wanted.as_slice(), "of {literal}"),
            None => assert!(rt; false, "{literal} has a value"),
        }
    }
    Ok(())
}

// Names and surrogates have values in Python, and none here.
#[test]
fn escapes_may_have_no_value(rt: HostRuntime) -> Result<(), Fail> {
    for literal in [
        r"'\N{BULLET}'",
        r"'\xZ'",
        r"'\x4'",
        r"'\u12'",
        r"'\ud800'",
        r"'\U00110000'",
        r"'\UFFFFFFFF'",
    ] {
        let spelled = letters(&rt, literal)?;
        assert!(rt; !has_value(&spelled), "{literal}");
        assert!(rt; text_value(rt.alloc(), &spelled)?.is_none(), "{literal}");
    }
    Ok(())
}

#[test]
fn letters_that_are_no_string_have_an_inside(rt: HostRuntime) -> Result<(), Fail> {
    for literal in ["", "r", "'", "r'", "'''", "''''"] {
        let spelled = letters(&rt, literal)?;
        assert!(rt; inside(&spelled).is_empty(), "of {literal}");
    }
    Ok(())
}

/// The tokens of a text. A long one is not scanned.
fn scanned(rt: &HostRuntime, text: &str) -> Result<Tokens, TokenError> {
    if text.len() > 4096 {
        return Err(TokenError::NoMemory);
    }
    scan(rt.alloc(), text)
}

/// The kinds of the tokens of a text and their bytes, with the number of each line before its tokens.
fn shown(rt: &HostRuntime, text: &str) -> Result<String, Fail> {
    let tokens = scanned(rt, text)?;
    let mut shown = String::new(rt.alloc());
    let mut line = 0;
    for i in 0..tokens.len() {
        if let Some(token) = tokens.get(i) {
            if token.line != line {
                line = token.line;
                write!(shown, " @{line}")?;
            }
            let (kind, start, end) = (token.kind, token.start, token.end);
            write!(shown, " {kind:?} {start}-{end}")?;
        }
    }
    Ok(shown)
}

/// The slices of the tokens of a text that have some, each behind a blank.
fn sliced(rt: &HostRuntime, text: &str) -> Result<String, Fail> {
    let tokens = scanned(rt, text)?;
    let mut sliced = String::new(rt.alloc());
    for i in 0..tokens.len() {
        if let Some(slice) = tokens.slice(i) {
            if !slice.is_empty() {
                write!(sliced, " {slice}")?;
            }
        }
    }
    Ok(sliced)
}

/// Why a text is refused.
fn refusal(rt: &HostRuntime, text: &str) -> Option<TokenError> {
    scanned(rt, text).err()
}

#[test]
fn tokens_have_values(rt: HostRuntime) -> Result<(), Fail> {
    let tokens = scanned(&rt, "x = 1\n")?;
    assert_eq!(rt; tokens.len(), 5);
    assert_eq!(rt; tokens.int_value(2), Some(1));
    assert_eq!(rt; tokens.int_value(0), None);
    assert_eq!(rt; tokens.slice(0), Some("x"));
    assert_eq!(rt; tokens.slice(3), Some("\n"));
    assert_eq!(rt; tokens.slice(5), None);
    assert_eq!(rt; tokens.letters(0), Some(['x'].as_slice()));
    assert_eq!(rt; tokens.letters(5), None);
    assert!(rt; tokens.get(5).is_none());
    assert!(rt; tokens.str_value(rt.alloc(), 0)?.is_none());
    assert!(rt; tokens.name_text(rt.alloc(), 1)?.is_none());
    Ok(())
}

#[test]
fn names_are_normalized(rt: HostRuntime) -> Result<(), Fail> {
    for (text, normalized) in [
        ("x", "x"),
        ("ﬁ", "fi"),
        ("ªb", "ab"),
        ("ｉｆ", "if"),
        ("e\u{301}", "é"),
    ] {
        let tokens = scanned(&rt, text)?;
        match tokens.name_text(rt.alloc(), 0)? {
            Some(name) => assert_eq!(rt; name.as_str(), normalized, "of {text}"),
            None => assert!(rt; false, "{text} is a name"),
        }
    }
    Ok(())
}

#[test]
fn strings_are_read(rt: HostRuntime) -> Result<(), Fail> {
    for (text, value) in [
        ("'\\x41'", "A"),
        ("R'\\x41'", "\\x41"),
        ("'''a\r\n'''", "a\n"),
    ] {
        let tokens = scanned(&rt, text)?;
        let wanted = letters(&rt, value)?;
        match tokens.str_value(rt.alloc(), 0)? {
            Some(found) => assert_eq!(rt; found.as_slice(), wanted.as_slice(), "of {text}"),
            None => assert!(rt; false, "{text} is a string"),
        }
    }
    Ok(())
}

#[test]
fn lines_are_indented(rt: HostRuntime) -> Result<(), Fail> {
    let text = "if a:\n  if b:\n\n    c\n  d(\n      e)\nf\n";
    let tokens = scanned(&rt, text)?;
    for (i, indent) in [
        (0, Some(0)),
        (4, Some(2)),
        (10, Some(4)),
        (12, Some(2)),
        (15, Some(6)),
        (18, Some(0)),
        (21, Some(0)),
        (22, None),
    ] {
        assert_eq!(rt; tokens.indent(i), indent, "of {i}");
    }
    Ok(())
}

#[test]
fn lines_are_cut_into_tokens(rt: HostRuntime) -> Result<(), Fail> {
    for (text, tokens) in [
        ("", " @1 End 0-0"),
        ("\n", " @2 End 1-1"),
        (
            "if a:\n  if b:\n    c\n  d\ne\n",
            " @1 Keyword 0-2 Name 3-4 Op 4-5 Newline 5-6 @2 Indent 6-8 Keyword 8-10 Name 11-12 Op 12-13 Newline 13-14 @3 Indent 14-18 Name 18-19 Newline 19-20 @4 Dedent 22-22 Name 22-23 Newline 23-24 @5 Dedent 24-24 Name 24-25 Newline 25-26 @6 End 26-26",
        ),
        (
            "if a:\n\tif b:\n\t\tc\n",
            " @1 Keyword 0-2 Name 3-4 Op 4-5 Newline 5-6 @2 Indent 6-7 Keyword 7-9 Name 10-11 Op 11-12 Newline 12-13 @3 Indent 13-15 Name 15-16 Newline 16-17 @4 Dedent 17-17 Dedent 17-17 End 17-17",
        ),
        (
            "if a:\r\n  b\r\n\r\nc = '''x\r\ny'''\r\n",
            " @1 Keyword 0-2 Name 3-4 Op 4-5 Newline 5-7 @2 Indent 7-9 Name 9-10 Newline 10-12 @4 Dedent 14-14 Name 14-15 Op 16-17 Str 18-28 @5 Newline 28-30 @6 End 30-30",
        ),
        ("\u{feff}x\n", " @1 Name 3-4 Newline 4-5 @2 End 5-5"),
        (
            "f(\n a,\n\n # no\n b)\n",
            " @1 Name 0-1 Op 1-2 @2 Name 4-5 Op 5-6 @5 Name 15-16 Op 16-17 Newline 17-18 @6 End 18-18",
        ),
        (
            "a = \\\n  1\n",
            " @1 Name 0-1 Op 2-3 @2 Int 8-9 Newline 9-10 @3 End 10-10",
        ),
        (
            "# one\n\n  # two\nx # three\n\t\ny\n",
            " @4 Name 15-16 Newline 24-25 @6 Name 27-28 Newline 28-29 @7 End 29-29",
        ),
        (
            "if x:\n  y = (1,\n\t2)\n # shallow\n  z\n",
            " @1 Keyword 0-2 Name 3-4 Op 4-5 Newline 5-6 @2 Indent 6-8 Name 8-9 Op 10-11 Op 12-13 Int 13-14 Op 14-15 @3 Int 17-18 Op 18-19 Newline 19-20 @5 Name 33-34 Newline 34-35 @6 Dedent 35-35 End 35-35",
        ),
        (
            "if x:\n  y # c",
            " @1 Keyword 0-2 Name 3-4 Op 4-5 Newline 5-6 @2 Indent 6-8 Name 8-9 Newline 13-13 @3 Dedent 13-13 End 13-13",
        ),
        ("x \\", " @1 Name 0-1 Newline 3-3 @2 End 3-3"),
    ] {
        let found = shown(&rt, text)?;
        assert_eq!(rt; found.as_str(), tokens, "of {text}");
    }
    Ok(())
}

#[test]
fn letters_are_cut_into_tokens(rt: HostRuntime) -> Result<(), Fail> {
    for (text, tokens) in [
        (
            "0 00 1_0 0x_fF 0O17 0b1\n",
            " @1 Int 0-1 Int 2-4 Int 5-8 Int 9-14 Int 15-19 Int 20-23 Newline 23-24 @2 End 24-24",
        ),
        (
            "in inn True true match\n",
            " @1 Keyword 0-2 Name 3-6 Keyword 7-11 Name 12-16 Name 17-22 Newline 22-23 @2 End 23-23",
        ),
        (
            "ﬁ ªb é_1\n",
            " @1 Name 0-3 Name 4-7 Name 8-12 Newline 12-13 @2 End 13-13",
        ),
        (
            "r'\\n' R\"\\\"\"\n",
            " @1 Str 0-5 Str 6-11 Newline 11-12 @2 End 12-12",
        ),
        (
            "'a' \"\" '''\n''' \"\"\"d\\\"\"\"\"\n",
            " @1 Str 0-3 Str 4-6 Str 7-14 @2 Str 15-24 Newline 24-25 @3 End 25-25",
        ),
        (
            "'a''b' \"\"'c'\n",
            " @1 Str 0-3 Str 3-6 Str 7-9 Str 9-12 Newline 12-13 @2 End 13-13",
        ),
        (
            "'\\\n'\nx\n",
            " @1 Str 0-4 @2 Newline 4-5 @3 Name 5-6 Newline 6-7 @4 End 7-7",
        ),
    ] {
        let found = shown(&rt, text)?;
        assert_eq!(rt; found.as_str(), tokens, "of {text}");
    }
    Ok(())
}

#[test]
fn operators_are_as_long_as_can_be(rt: HostRuntime) -> Result<(), Fail> {
    for (text, tokens) in [
        ("a<<=b>>=c//=d...e", " a <<= b >>= c //= d ... e"),
        (
            "a**b//c<<d>>e<=f>=g==h!=i->j",
            " a ** b // c << d >> e <= f >= g == h != i -> j",
        ),
        (
            "a+=b-=c*=d%=e&=f|=g^=h:=i",
            " a += b -= c *= d %= e &= f |= g ^= h := i",
        ),
        (
            "+a-b*c/d%e&f|g^h~i<j>k",
            " + a - b * c / d % e & f | g ^ h ~ i < j > k",
        ),
        (
            "(a)[b]{c},d:e.f;g=h@i",
            " ( a ) [ b ] { c } , d : e . f ; g = h @ i",
        ),
        ("===<<<=**=..<>/=", " == = << <= ** = . . < > / ="),
    ] {
        let found = sliced(&rt, text)?;
        assert_eq!(rt; found.as_str(), tokens, "of {text}");
    }
    Ok(())
}

#[test]
fn letters_may_be_refused(rt: HostRuntime) {
    for text in [
        "x\0",
        "'\0'",
        "#\0",
        "x\ry",
        "'a\rb'",
        "x\r",
        "?",
        "!",
        "$",
        "\x0c",
        "x \\ y",
        "b'a'",
        "in'a'",
        "Rb'a'",
        "\u{feff}\u{feff}x",
        "²",
        "1²",
    ] {
        assert_eq!(rt;
            refusal(&rt, text),
            Some(TokenError::BadCharacter(1)),
            "of {text}"
        );
    }
}

#[test]
fn numbers_may_be_refused(rt: HostRuntime) {
    for text in [
        "0x", "01", "0_1", "1_", "1__0", "1_x", "1if x", "1.5", "1.", "1e5", "0xg", "0b12", "0o8",
        "0x_", "1é",
    ] {
        assert_eq!(rt;
            refusal(&rt, text),
            Some(TokenError::NumberForm(1)),
            "of {text}"
        );
    }
}

#[test]
fn values_may_be_refused(rt: HostRuntime) -> Result<(), Fail> {
    for text in [
        "170141183460469231731687303715884105728",
        "0x80000000000000000000000000000000",
        "0170141183460469231731687303715884105728",
    ] {
        assert_eq!(rt;
            refusal(&rt, text),
            Some(TokenError::BigInteger(1)),
            "of {text}"
        );
    }
    for text in [
        "'\\x4'",
        "'\\ud800'",
        "'\\N{DIGIT ONE}'",
        "'\\U00110000'",
        "'''\n\\u123'''",
    ] {
        assert_eq!(rt;
            refusal(&rt, text),
            Some(TokenError::EscapeForm(1)),
            "of {text}"
        );
    }
    let greatest = scanned(&rt, "0x7fffffffffffffffffffffffffffffff")?;
    assert_eq!(rt; greatest.int_value(0), Some(i128::MAX));
    Ok(())
}

#[test]
fn lines_may_be_refused(rt: HostRuntime) {
    for (text, error) in [
        ("if x:\n\ty\nif z:\n  w\n", TokenError::MixedIndent(4)),
        ("if x:\n \ty\n", TokenError::MixedIndent(2)),
        ("if x:\n    y\n  z\n", TokenError::BadDedent(3)),
        ("'", TokenError::OpenString(1)),
        ("'a\\", TokenError::OpenString(1)),
        ("'a\\\\\n'b'", TokenError::OpenString(1)),
        ("x\n'a\\\nb\n", TokenError::OpenString(2)),
        ("r'\\'", TokenError::OpenString(1)),
        ("x\n'''a\nb''\n", TokenError::OpenString(2)),
        ("f('a\n)", TokenError::OpenString(1)),
        (")", TokenError::OpenBracket(1)),
        ("x\n(]\n", TokenError::OpenBracket(2)),
        ("(\n[\n", TokenError::OpenBracket(2)),
        ("x\n{)}", TokenError::OpenBracket(2)),
    ] {
        assert_eq!(rt; refusal(&rt, text), Some(error), "of {text}");
    }
}

// The smaller line is told and, at one line, the fault that stands first in `TokenError`.
#[test]
fn one_of_two_refusals_is_told(rt: HostRuntime) {
    for (text, error) in [
        ("x = 'a\ny = 1.5\n", TokenError::OpenString(1)),
        ("x = (1\ny = 2\n", TokenError::OpenBracket(1)),
        ("(\n]", TokenError::OpenBracket(1)),
        ("(\n'a\n", TokenError::OpenBracket(1)),
        ("01\n$\n", TokenError::NumberForm(1)),
        ("'\\x4'\n)\n", TokenError::EscapeForm(1)),
        ("'''\n$", TokenError::OpenString(1)),
        ("'''\n\0'''", TokenError::BadCharacter(2)),
        ("if x:\n  y\n\t$\n", TokenError::BadCharacter(3)),
        ("if x:\n    y\n\tz\n", TokenError::MixedIndent(3)),
        ("if x:\n    y\n  'z\n", TokenError::BadDedent(3)),
        ("f('a\n", TokenError::OpenString(1)),
        (
            "] 0x80000000000000000000000000000000",
            TokenError::OpenBracket(1),
        ),
        (
            "01 0x80000000000000000000000000000000",
            TokenError::BigInteger(1),
        ),
        ("'\\x4' 01", TokenError::NumberForm(1)),
    ] {
        assert_eq!(rt; refusal(&rt, text), Some(error), "of {text}");
    }
}
