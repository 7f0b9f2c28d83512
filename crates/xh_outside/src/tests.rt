use crate::{
    Bytes, DiskFiles, Failed, Files, MemFiles, MemSink, Name, ReadError, Sink, StdSink, Words,
    write_all,
};
use std::alloc::Global;
use std::cell::Cell;
use std::fmt::Display;
use std::fs;
use std::io::{self, ErrorKind};
use std::test::Fail;

/// Reads once, and tells whether the answer is the one that is wanted.
fn answers<F: Files>(
    alloc: Global,
    files: &mut F,
    name: &str,
    limit: u64,
    want: Result<&[u8], ReadError>,
) -> bool {
    match (files.read(alloc, name, limit), want) {
        (Ok(content), Ok(bytes)) => content.as_slice() == bytes,
        (Err(error), Err(wanted)) => error == wanted,
        _ => false,
    }
}

#[test]
fn words_bytes_and_names_hold_what_they_are_given(rt: HostRuntime) -> Result<(), Fail> {
    let alloc = rt.alloc();

    let mut bytes = Bytes::new(alloc);
    assert!(rt; bytes.as_slice().is_empty());
    bytes.push(b'a')?;
    bytes.extend(b"bc")?;
    bytes.extend(b"")?;
    assert_eq!(rt; bytes.as_slice(), b"abc".as_slice());

    assert_eq!(rt; Name::from_str(alloc, "check")?.as_str(), "check");

    let mut words = Words::new(alloc);
    assert!(rt; words.is_empty());
    words.push(Name::from_str(alloc, "check")?)?;
    words.push(Name::from_str(alloc, "a.py")?)?;
    assert_eq!(rt; words.len(), 2);
    for (place, want) in [(0, Some("check")), (1, Some("a.py")), (2, None)] {
        assert_eq!(rt; words.get(place), want, "at {place}");
    }
    Ok(())
}

#[test]
fn files_in_memory_are_read_within_the_limit(rt: HostRuntime) -> Result<(), Fail> {
    let alloc = rt.alloc();
    let mut files = MemFiles::new(alloc);
    files.put("a.py", b"earlier content")?;
    files.put("b.py", b"")?;
    files.put("a.py", b"later")?;
    files.fail_at(1);
    files.fail_at(3);
    let reads: [(&str, u64, Result<&[u8], ReadError>); 8] = [
        ("a.py", 6, Ok(b"later")),
        ("a.py", 5, Ok(b"later")),
        ("a.py", 5, Err(ReadError::Failed)),
        ("a.py", 5, Ok(b"later")),
        ("a.py", 4, Err(ReadError::TooLong)),
        ("b.py", 0, Ok(b"")),
        ("c.py", 5, Err(ReadError::Failed)),
        ("A.py", 0, Err(ReadError::Failed)),
    ];
    for (row, (name, limit, want)) in reads.into_iter().enumerate() {
        assert!(rt;
            answers(alloc, &mut files, name, limit, want),
            "in row {row}"
        );
    }
    Ok(())
}

#[test]
fn a_sink_in_memory_takes_what_fits(rt: HostRuntime) -> Result<(), Fail> {
    let mut sink = MemSink::new(rt.alloc(), 6)?;
    sink.fail_at(1);
    sink.fail_at(2);
    let writes: [(&[u8], Result<usize, Failed>, &[u8]); 7] = [
        (b"ab", Ok(2), b"ab"),
        (b"", Ok(0), b"ab"),
        (b"cd", Err(Failed), b"ab"),
        (b"cd", Ok(2), b"abcd"),
        (b"efg", Ok(2), b"abcdef"),
        (b"g", Err(Failed), b"abcdef"),
        (b"", Ok(0), b"abcdef"),
    ];
    for (row, (piece, want, holds)) in writes.into_iter().enumerate() {
        assert_eq!(rt; sink.write(piece), want, "in row {row}");
        assert_eq!(rt; sink.written(), holds, "in row {row}");
    }
    Ok(())
}

#[test]
fn a_piece_is_written_whole_or_in_part(rt: HostRuntime) -> Result<(), Fail> {
    let rows: [(usize, u64, Result<(), Failed>, &[u8]); 4] = [
        (8, 9, Ok(()), b"one two!"),
        (3, 9, Err(Failed), b"one"),
        (0, 9, Err(Failed), b""),
        (8, 1, Err(Failed), b""),
    ];
    for (room, call, want, holds) in rows {
        let mut sink = MemSink::new(rt.alloc(), room)?;
        sink.fail_at(call);
        assert_eq!(rt;
            write_all(&mut sink, b"one two!"),
            want,
            "with room for {room}"
        );
        assert_eq!(rt; sink.written(), holds, "with room for {room}");
    }
    Ok(())
}

#[test]
fn files_of_the_system_are_read_within_the_limit(rt: HostRuntime) -> Result<(), Fail> {
    let path = "read_within_the_limit.txt";
    let text = [b'x'; 5000];
    fs::write(&rt, path, text)?;
    let mut files = DiskFiles::new(rt);
    let reads: [(&str, u64, Result<&[u8], ReadError>); 6] = [
        (path, u64::MAX, Ok(&text)),
        (path, 5000, Ok(&text)),
        (path, 4999, Err(ReadError::TooLong)),
        (path, 0, Err(ReadError::TooLong)),
        ("missing.txt", 5000, Err(ReadError::Failed)),
        (".", 5000, Err(ReadError::Failed)),
    ];
    for (row, (name, limit, want)) in reads.into_iter().enumerate() {
        assert!(rt;
            answers(rt.alloc(), &mut files, name, limit, want),
            "in row {row}"
        );
    }
    fs::remove_file(&rt, path)?;
    Ok(())
}

/// Output that is interrupted at each second call, takes one byte, and then has no reader.
#[derive(Drop)]
struct Halting {
    calls: Cell<u8>,
}

impl Print for Halting {
    fn print<D: Display + Drop>(&self, _value: D) -> io::Result<()> {
        Ok(())
    }

    fn println<D: Display + Drop>(&self, _value: D) -> io::Result<()> {
        Ok(())
    }

    fn write_all(&self, _bytes: &[u8]) -> io::Result<()> {
        Ok(())
    }

    fn write_some(&self, bytes: &[u8]) -> io::Result<usize> {
        let call = self.calls.get();
        self.calls.set(call.saturating_add(1));
        match call {
            0 | 2 => Err(io::Error::from(ErrorKind::Interrupted)),
            1 => Ok(bytes.len().min(1)),
            _ => Err(io::Error::from(ErrorKind::BrokenPipe)),
        }
    }
}

#[test]
fn output_is_written_through_interruptions(rt: HostRuntime) {
    let mut sink = StdSink::new(Halting {
        calls: Cell::new(0),
    });
    assert_eq!(rt; sink.write(b""), Ok(0));
    assert_eq!(rt; sink.write(b"ab"), Ok(1));
    assert_eq!(rt; sink.write(b"b"), Err(Failed));

    let mut out = StdSink::new(rt.stdout());
    assert_eq!(rt; write_all(&mut out, b"a line\n"), Ok(()));
}
