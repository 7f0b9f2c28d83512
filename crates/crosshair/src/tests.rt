ghost use Rattle.std.specs.Prelude.{◌<◌, ◌≤◌, ◌^◌, length};

use crate::admission::admit;
use crate::report::add_program;
use crate::run::run;
use crate::settings::Settings;
use first_tree::Bounds;
use std::alloc::Global;
use std::process::Abort;
use std::test::Fail;
use xh_outside::{Bytes, MemFiles, MemSink, Name, Words};

const USAGE: &str = "usage: crosshair check [OPTIONS] FILE[:LINE]...\n       crosshair demo N\n";

fn words_of(alloc: Global, names: &[&str]) -> Result<Words, Fail> {
    let mut words = Words::new(alloc);
    for name in names {
        words.push(Name::from_str(alloc, name)?)?;
    }
    Ok(words)
}

// The square of 0 breaks the first post line. A product meets the limit of integers, and breaks nothing.
fn files_of(alloc: Global) -> Result<MemFiles, Fail> {
    let mut files = MemFiles::new(alloc);
    files.put(
        "m.py",
        b"def sq(x: int) -> int:\n    \"\"\"post: __return__ > 0\"\"\"\n    return x * x\n",
    )?;
    files.put(
        "inc.py",
        b"def inc(x: int) -> int:\n    \"\"\"post: __return__ > x\"\"\"\n    return x + 1\n",
    )?;
    files.put(
        "least.py",
        b"def least(x: int) -> int:\n    \"\"\"post: __return__ != 1\"\"\"\n    return x * x\n",
    )?;
    files.put(
        "less.py",
        b"def less(x: int) -> bool:\n    \"\"\"post: __return__\"\"\"\n    return x < 1\n",
    )?;
    files.put(
        "big.py",
        b"def big(x: int) -> int:\n    \"\"\"post: __return__ * 0 == 0\"\"\"\n    return x*x*x*x*x*x*x*x*x*x*x*x*x*x*x*x*x*x*x\n",
    )?;
    files.put(
        "true.py",
        b"def one(x: int) -> int:\n    \"\"\"post: True\"\"\"\n    return 1\n",
    )?;
    Ok(files)
}

// Runs over sinks of these sizes, and compares all that is left.
fn expect_run(
    rt: &impl Abort,
    alloc: Global,
    names: &[&str],
    files: &mut MemFiles,
    rooms: (usize, usize),
    want: (u8, &str, &str),
) -> Result<(), Fail> {
    let mut out = MemSink::new(alloc, rooms.0)?;
    let mut err = MemSink::new(alloc, rooms.1)?;
    let words = words_of(alloc, names)?;
    let status = run(alloc, &words, files, &mut out, &mut err);
    assert_eq!(rt; status, want.0);
    assert_eq!(rt; out.written(), want.1.as_bytes());
    assert_eq!(rt; err.written(), want.2.as_bytes());
    Ok(())
}

#[test]
fn refuses_words(rt: HostRuntime) -> Result<(), Fail> {
    let alloc = rt.alloc();
    let mut files = files_of(alloc)?;
    let refused: [&[&str]; 17] = [
        &[],
        &["check"],
        &["check", "--frob", "m.py"],
        &["check", "--int_bits=65", "m.py"],
        &["check", "--int_bits=8", "--int_bits=8", "m.py"],
        &["check", "m.py:3"],
        &["check", ""],
        &["", "m.py"],
        &["check", "m.py", "inc.py"],
        // the option once, and directly before or after a file
        &["check", "--report_all"],
        &["check", "--report_all", "--report_all"],
        &["check", "--report_all", "m.py", "--report_all"],
        &["check", "--report_all", "--report_all", "m.py"],
        &["check", "--report_all=1", "m.py"],
        &["check", "m.py", "--report_all=1"],
        &["check", "--report_all", "m.py:3"],
        &["--report_all", "check", "m.py"],
    ];
    for names in refused {
        expect_run(&rt, alloc, names, &mut files, (100, 100), (2, "", USAGE))?;
    }
    expect_run(
        &rt,
        alloc,
        &[],
        &mut files,
        (100, 10),
        (5, "", "usage: cro"),
    )
}

#[test]
fn answers_the_status(rt: HostRuntime) -> Result<(), Fail> {
    let alloc = rt.alloc();
    let mut files = files_of(alloc)?;
    let roomy = (100, 100);
    let error = "m.py:2: error: false when calling sq(x = 0) (which returns 0)\n";
    let negative = "least.py:2: error: false when calling least(x = -1) (which returns 1)\n";
    let truth = "less.py:2: error: false when calling less(x = 1) (which returns False)\n";
    let table: [(&str, (usize, usize), (u8, &str, &str)); 9] = [
        ("m.py", roomy, (1, error, "")),
        ("inc.py", roomy, (0, "", "")),
        ("least.py", roomy, (1, negative, "")),
        ("less.py", roomy, (1, truth, "")),
        ("big.py", roomy, (0, "", "")),
        ("true.py", roomy, (2, "", "true.py:2: refused: NotBuilt\n")),
        ("n.py", roomy, (4, "", "n.py: read fault\n")),
        ("n.py", (100, 7), (4, "", "n.py: r")),
        ("m.py", (10, 100), (5, "m.py:2: er", "")),
    ];
    for (name, rooms, want) in table {
        expect_run(&rt, alloc, &["check", name], &mut files, rooms, want)?;
    }
    files.fail_at(1);
    expect_run(
        &rt,
        alloc,
        &["check", "m.py"],
        &mut files,
        roomy,
        (4, "", "m.py: read fault\n"),
    )
}

#[test]
fn prints_all_results_only_where_asked(rt: HostRuntime) -> Result<(), Fail> {
    let alloc = rt.alloc();
    let mut files = files_of(alloc)?;
    let confirmed =
        "inc.py:1: info: Confirmed over all paths.\ninc.py:2: info: Confirmed over all paths.\n";
    let limited =
        "big.py:1: info: Not confirmed. (int limit when calling big(x = -103))\nbig.py:2: info: Not confirmed. (int limit when calling big(x = -103))\n";
    let mixed =
        "m.py:1: info: Confirmed over all paths.\nm.py:2: error: false when calling sq(x = 0) (which returns 0)\n";
    let error = "m.py:2: error: false when calling sq(x = 0) (which returns 0)\n";
    let roomy = (200, 200);
    let table: [(&str, u8, &str, &str); 3] = [
        ("inc.py", 0, confirmed, ""),
        ("big.py", 0, limited, ""),
        ("m.py", 1, mixed, error),
    ];
    for (name, status, all, errors) in table {
        let before = ["check", "--report_all", name];
        expect_run(&rt, alloc, &before, &mut files, roomy, (status, all, ""))?;
        let after = ["check", name, "--report_all"];
        expect_run(&rt, alloc, &after, &mut files, roomy, (status, all, ""))?;
        let plain = ["check", name];
        expect_run(&rt, alloc, &plain, &mut files, roomy, (status, errors, ""))?;
    }
    Ok(())
}

#[test]
fn refuses_contents(rt: HostRuntime) -> Result<(), Fail> {
    let alloc = rt.alloc();
    let table: [(&[u8], &str); 29] = [
        (b"# \xff\n", "m.py:1: refused: NotUtf8\n"),
        (b"# \n\n\xc3(\n", "m.py:3: refused: NotUtf8\n"),
        // the encoding is tried first
        (b"?\n\xed\xa0\x80", "m.py:2: refused: NotUtf8\n"),
        (b"\nx = $\n", "m.py:2: refused: BadCharacter\n"),
        (
            b"if x:\n\tpass\n        pass\n",
            "m.py:3: refused: MixedIndent\n",
        ),
        (b"if x:\n    pass\n  pass\n", "m.py:3: refused: BadDedent\n"),
        (b"'a\n", "m.py:1: refused: OpenString\n"),
        (b"\n(\n", "m.py:2: refused: OpenBracket\n"),
        (
            b"170141183460469231731687303715884105728\n",
            "m.py:1: refused: BigInteger\n",
        ),
        (b"01\n", "m.py:1: refused: NumberForm\n"),
        (b"'\\ud800'\n", "m.py:1: refused: EscapeForm\n"),
        (b"f(a=1, 2)\n", "m.py:1: refused: Line\n"),
        (b"pass\nreturn 1\n", "m.py:2: refused: Block\n"),
        (
            b"def f(x: int) -> int:\n    'post: x +'\n    return x\n",
            "m.py:2: refused: BadExpression\n",
        ),
        (
            b"def f(x: int) -> int:\n    'post[y]: 1'\n    return x\n",
            "m.py:2: refused: UnknownName\n",
        ),
        (
            b"def f(x: int) -> int:\n    'inv: 1'\n    return x\n",
            "m.py:2: refused: Misplaced\n",
        ),
        // contract lines are read before the form
        (
            b"pass\nclass C:\n    'pre: 1'\n",
            "m.py:3: refused: Misplaced\n",
        ),
        (b"x = 1 + 1\n", "m.py:1: refused: ModuleStatement\n"),
        (b"X = 1\nX = 2\n", "m.py:2: refused: Duplicate\n"),
        (b"def f(x=y):\n    pass\n", "m.py:1: refused: Form\n"),
        // definitions are checked before the form
        (
            b"pass\n\ndef len(x):\n    pass\n",
            "m.py:3: refused: Duplicate\n",
        ),
        (b"pass\n\nX = 1\n", "m.py:3: refused: NotBuilt\n"),
        (
            b"pass\n\nclass C:\n    pass\n",
            "m.py:3: refused: NotBuilt\n",
        ),
        (b"def f():\n    pass\n", "m.py:2: refused: NotBuilt\n"),
        (
            b"def f(x: str):\n    'post: 1'\n    return 1\n",
            "m.py:1: refused: NotBuilt\n",
        ),
        // uses of names are checked before the form, in bodies and in contract lines
        (
            b"pass\n\ndef f(x):\n    return y\n",
            "m.py:4: refused: UnknownName\n",
        ),
        (
            b"def f(x: int) -> int:\n    'post: y'\n    return 1\n",
            "m.py:2: refused: UnknownName\n",
        ),
        (
            b"def f(x: int) -> int:\n    'post: 1'\n    return len\n",
            "m.py:3: refused: Form\n",
        ),
        (
            b"def f(x: int) -> int:\n    'post: None'\n    return 1\n",
            "m.py:2: refused: NotBuilt\n",
        ),
    ];
    for (content, refusal) in table {
        let mut files = MemFiles::new(alloc);
        files.put("m.py", content)?;
        expect_run(
            &rt,
            alloc,
            &["check", "m.py"],
            &mut files,
            (100, 100),
            (2, "", refusal),
        )?;
    }
    Ok(())
}

#[test]
fn refuses_what_is_too_deep(rt: HostRuntime) -> Result<(), Fail> {
    let alloc = rt.alloc();
    let mut content = Bytes::new(alloc);
    content.push(b'\n')?;
    for _ in 0..2_000u32 {
        content.push(b'(')?;
    }
    content.push(b'x')?;
    for _ in 0..2_000u32 {
        content.push(b')')?;
    }
    let mut files = MemFiles::new(alloc);
    files.put("m.py", content.as_slice())?;
    expect_run(
        &rt,
        alloc,
        &["check", "m.py"],
        &mut files,
        (100, 100),
        (2, "", "m.py:2: refused: TooDeep\n"),
    )
}

#[test]
fn checks_each_function(rt: HostRuntime) -> Result<(), Fail> {
    let alloc = rt.alloc();
    let mut files = MemFiles::new(alloc);
    files.put(
        "m.py",
        b"# three functions\n\ndef sum(x: int) -> int:\n    'post: 1'\n    return x\n",
    )?;
    files.put(
        "n.py",
        b"# three functions\n\ndef add(x: int, y: int) -> int:\n    'post: __return__ - y == x'\n    return x + y\n\ndef sub(x: int, y: int) -> int:\n    # wrong\n    'post: __return__ < 1'\n    return x - y  # a difference\n\ndef sq(z: int) -> bool:\n    'post: __return__'\n    return z * z > 0\n",
    )?;
    expect_run(
        &rt,
        alloc,
        &["check", "m.py"],
        &mut files,
        (200, 200),
        (2, "", "m.py:3: refused: Duplicate\n"),
    )?;
    expect_run(
        &rt,
        alloc,
        &["check", "n.py"],
        &mut files,
        (200, 200),
        (
            1,
            "n.py:9: error: false when calling sub(x = 0, y = -1) (which returns 1)\nn.py:13: error: false when calling sq(z = 0) (which returns False)\n",
            "",
        ),
    )
}

#[test]
fn refuses_a_long_file(rt: HostRuntime) -> Result<(), Fail> {
    let alloc = rt.alloc();
    let mut content = Bytes::new(alloc);
    for _ in 0..1_048_577u32 {
        content.push(b'#')?;
    }
    let mut files = MemFiles::new(alloc);
    files.put("m.py", content.as_slice())?;
    expect_run(
        &rt,
        alloc,
        &["check", "m.py"],
        &mut files,
        (100, 100),
        (2, "", "m.py:1: refused: TooLong\n"),
    )
}

#[test]
fn a_write_fails_once(rt: HostRuntime) -> Result<(), Fail> {
    let alloc = rt.alloc();
    let mut files = files_of(alloc)?;
    let mut out = MemSink::new(alloc, 100)?;
    let mut err = MemSink::new(alloc, 100)?;
    let words = words_of(alloc, &["check"])?;
    err.fail_at(1);
    let status = run(alloc, &words, &mut files, &mut out, &mut err);
    assert_eq!(rt; status, 5);
    assert_eq!(rt; err.written(), b"".as_slice());
    let status = run(alloc, &words, &mut files, &mut out, &mut err);
    assert_eq!(rt; status, 2);
    let words = words_of(alloc, &["check", "m.py"])?;
    out.fail_at(1);
    let status = run(alloc, &words, &mut files, &mut out, &mut err);
    assert_eq!(rt; status, 5);
    assert_eq!(rt; out.written(), b"".as_slice());
    Ok(())
}

// Checks a text where integers have so few bits, and compares what is reported.
fn expect_report(
    rt: &impl Abort,
    alloc: Global,
    content: &[u8],
    int_bits: u8,
    want: (bool, &str),
) -> Result<(), Fail>
    requires content { length content.now < 2 ^ 31 }
    requires least { 1 ≤ int_bits }
    requires most { int_bits ≤ 64 }
{
    let settings = Settings {
        bounds: Bounds {
            int_bits,
            max_len: 3,
            char_bits: 7,
            max_nest: 2,
            max_steps: 2000,
            max_depth: 20,
        },
        report_all: true,
        targets: Words::new(alloc),
    };
    let trees = admit(alloc, content, &settings.bounds)?;
    let mut text = Bytes::new(alloc);
    let fails = add_program(alloc, "m.py", &trees, &settings, &mut text)?;
    assert_eq!(rt; fails, want.0);
    assert_eq!(rt; text.as_slice(), want.1.as_bytes());
    Ok(())
}

#[test]
fn reports_each_contract_line(rt: HostRuntime) -> Result<(), Fail> {
    let content =
        b"def f(x: int) -> int:\n    '''\n    pre: x > 1\n    post: __return__ > x\n    post[x]:\n        # two lines\n        __return__ > 3\n        __return__ * x > 0\n    raises: TypeError\n    '''\n    return x + 1\n";
    let want =
        "m.py:1: info: Confirmed over all paths.\nm.py:4: info: Confirmed over all paths.\nm.py:7: error: false when calling f(x = 2) (which returns 3)\nm.py:8: info: Confirmed over all paths.\n";
    expect_report(&rt, rt.alloc(), content, 4, (true, want))
}

#[test]
fn reports_functions_of_any_number_of_parameters(rt: HostRuntime) -> Result<(), Fail> {
    let alloc = rt.alloc();
    let none = b"def none():\n    '''post: __return__ < 1'''\n";
    let want =
        "m.py:1: info: Confirmed over all paths.\nm.py:2: error: TypeError in postcondition when calling none()\n";
    expect_report(&rt, alloc, none, 8, (true, want))?;
    let three =
        b"def three(x: int, y: int, z: int):\n    '''post: x - y + z < 2'''\n    return 0\n";
    let want =
        "m.py:1: info: Confirmed over all paths.\nm.py:2: error: false when calling three(x = 0, y = -1, z = 1) (which returns 0)\n";
    expect_report(&rt, alloc, three, 2, (true, want))
}

#[test]
fn reports_functions_with_contract_lines_alone(rt: HostRuntime) -> Result<(), Fail> {
    let content =
        b"'''Three functions.'''\nfrom typing import List\n\ndef f(xs: List[int]):\n    return xs\n\ndef g(x: int):\n    '''raises: KeyError'''\n    return x\n\ndef h(x: str, y: int = 1):\n    '''A sentence.'''\n    return y\n\nif __name__ == '__main__':\n    f([1])\n";
    let want = "m.py:7: info: Confirmed over all paths.\n";
    expect_report(&rt, rt.alloc(), content, 8, (false, want))
}

#[test]
fn unmet_preconditions_are_told(rt: HostRuntime) -> Result<(), Fail> {
    let content =
        b"def f(x: int):\n    '''\n    pre: x > 0\n    pre: x < 0\n    post: x\n    '''\n    return x\n";
    let want =
        "m.py:1: info: Unable to meet precondition.\nm.py:5: info: Unable to meet precondition.\n";
    expect_report(&rt, rt.alloc(), content, 8, (false, want))
}
