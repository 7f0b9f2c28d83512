use crate::{Content, Docstring, Entry, Promise, promises};
use std::test::Fail;
use xh_outside::Name;

fn write_letters(shown: &mut String, letters: &[char]) -> Result<(), Fail> {
    for letter in letters {
        shown.push(*letter)?;
    }
    Ok(())
}

fn write_names(shown: &mut String, names: &[Name]) -> Result<(), Fail> {
    for name in names {
        write!(shown, "<{}>", name.as_str())?;
    }
    Ok(())
}

fn write_entry(shown: &mut String, entry: &Entry) -> Result<(), Fail> {
    write!(shown, " {}:", entry.line)?;
    match &entry.content {
        Content::Spelled(letters) => {
            write!(shown, "'")?;
            write_letters(shown, letters)?;
            write!(shown, "'")?;
        }
        Content::Classes(names) => write_names(shown, names)?,
        Content::Unread => write!(shown, "unread")?,
    }
    Ok(())
}

/// Writes contract lines with their entries.
fn write_promises(shown: &mut String, promises: &[Promise]) -> Result<(), Fail> {
    for promise in promises {
        write!(shown, "{}:{:?}", promise.line, promise.kind)?;
        if let Some(names) = &promise.names {
            write!(shown, "[")?;
            write_names(shown, names)?;
            write!(shown, "]")?;
        }
        for entry in &promise.entries {
            write_entry(shown, entry)?;
        }
        write!(shown, ";")?;
    }
    Ok(())
}

/// What a docstring on line 2 holds, which is indented by four.
fn read(rt: &HostRuntime, text: &str, raw: bool) -> Result<String, Fail> {
    let letters: Vec<char> = text.chars().collect(rt.alloc())?;
    let docstring = Docstring {
        letters: &letters,
        raw,
        line: 2,
        indent: 4,
    };
    let mut shown = String::new(rt.alloc());
    write_promises(&mut shown, &promises(rt.alloc(), docstring)?)?;
    Ok(shown)
}

#[test]
fn contract_lines_are_told_from_prose(rt: HostRuntime) -> Result<(), Fail> {
    for (text, shown) in [
        ("", ""),
        ("Adds one. post: x", ""),
        ("post: x > 0 # why", "2:Post 2:' x > 0 # why';"),
        ("\n\t pre:x\n", "3:Pre 3:'x';"),
        ("Post: x\npost : x\npost:x", "4:Post 4:'x';"),
        (
            "inv: x\nraises: KeyError , ValueError",
            "2:Invariant 2:' x';3:Raises 3:<KeyError><ValueError>;",
        ),
        ("post[]: x", "2:Post[] 2:' x';"),
        ("post[ a,\tb ]: x", "2:Post[<a><b>] 2:' x';"),
        ("post[a: x\npost[a] : x\npost[a,]: x\npost[1]: x", ""),
        ("post[\u{212B}]: x", "2:Post[<\u{C5}>] 2:' x';"),
    ] {
        let read = read(&rt, text, false)?;
        assert_eq!(&rt; read.as_str(), shown);
    }
    Ok(())
}

#[test]
fn blocks_go_on_over_deeper_lines(rt: HostRuntime) -> Result<(), Fail> {
    for (text, shown) in [
        (
            "post:\n     x\n\n     # y\n     z\n    w",
            "2:Post 3:'x' 6:'z';",
        ),
        ("pre:\n    x", "2:Pre 2:unread;"),
        ("  pre:\n    x", "2:Pre 2:unread;"),
        ("a\n  pre:\n   x\n  post: y", "3:Pre 4:'x';5:Post 5:' y';"),
        ("post[x]:\n     post: y\n", "2:Post[<x>] 3:'post: y';"),
        ("post:\n\n", "2:Post 2:unread;"),
        ("post: x\n     y", "2:Post 2:' x';"),
    ] {
        let read = read(&rt, text, false)?;
        assert_eq!(&rt; read.as_str(), shown);
    }
    Ok(())
}

#[test]
fn what_cannot_be_read_is_told_with_its_line(rt: HostRuntime) -> Result<(), Fail> {
    for (text, raw, shown) in [
        ("raises:", false, "2:Raises 2:unread;"),
        (
            "raises: A,\nraises: A B\nraises: A # a",
            false,
            "2:Raises 2:unread;3:Raises 3:unread;4:Raises 4:unread;",
        ),
        ("a \\ b\npost: '\\n'", false, "3:Post 3:unread;"),
        ("post: '\\n'", true, "2:Post 2:' '\\n'';"),
        ("post:\n     # \\\n     x", false, "2:Post 3:unread 4:'x';"),
        ("post:\n     # \\\n     x", true, "2:Post 4:'x';"),
        ("post:\n     # \\\n", false, "2:Post 3:unread 2:unread;"),
    ] {
        let read = read(&rt, text, raw)?;
        assert_eq!(&rt; read.as_str(), shown);
    }
    Ok(())
}
