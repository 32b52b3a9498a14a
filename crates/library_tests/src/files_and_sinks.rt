//! The host adapters over the real host and over fakes, and the objects in memory over a table.

use crate::fakes::Turn::{self, Fails, Gives, Takes};
use crate::fakes::{Disk, Script};
use slot_core::{Failed, READ_LIMIT};
use slot_io::{Files, HostFiles, HostSink, MemoryFiles, MemorySink, ReadFault, Sink};
use std::alloc::Global;
use std::io::{self, ErrorKind, Read};
use std::test::Fail;
use std::{fs, process};

/// Whether a read answers this.
fn is_read<F: Files>(
    files: &mut F,
    alloc: Global,
    name: &str,
    limit: usize,
    answer: Result<&[u8], ReadFault>,
) -> bool {
    if limit > READ_LIMIT {
        return false;
    }
    match files.read(alloc, name, limit) {
        Ok(bytes) => answer == Ok(bytes.as_slice()),
        Err(fault) => answer == Err(fault),
    }
}

#[test]
fn reads_files_of_the_host(rt: HostRuntime) -> Result<(), Fail> {
    let number = process::id(rt.process());
    let path = format!(in rt.alloc(); "/tmp/slot_io_read_{number}")?;
    fs::write(&rt, path.as_str(), "twelve bytes")?;
    assert!(rt; are_bytes_read(rt, path.as_str()));
    fs::remove_file(&rt, path.as_str())?;
    assert!(rt; fails_at(rt, path.as_str()) && fails_at(rt, "/tmp"));
    Ok(())
}

/// Whether the file of twelve bytes is read whole, and up to one byte past a limit.
fn are_bytes_read(rt: HostRuntime, path: &str) -> bool {
    let mut files = HostFiles::new(rt);
    is_read(&mut files, rt.alloc(), path, 12, Ok(b"twelve bytes"))
        && is_read(&mut files, rt.alloc(), path, 4, Ok(b"twelv"))
}

/// Whether a read of the file fails.
fn fails_at(rt: HostRuntime, path: &str) -> bool {
    let mut files = HostFiles::new(rt);
    is_read(&mut files, rt.alloc(), path, 12, Err(ReadFault::Failed))
}

#[test]
fn reads_no_further_than_the_limit(rt: HostRuntime) -> Result<(), Fail> {
    let mut files = HostFiles::new(rt);
    let zeros = files.read(rt.alloc(), "/dev/zero", 100_000)?;
    assert!(rt; zeros.len() == 100_001);
    Ok(())
}

#[test]
fn writes_to_sinks_of_the_host(rt: HostRuntime) -> Result<(), Fail> {
    let full = fs::OpenOptions::new().write(true).open(&rt, "/dev/full")?;
    assert!(rt; is_full(&mut HostSink::new(full)));
    let (reader, writer) = io::pipe(&rt)?;
    assert!(rt; is_piped(reader, &mut HostSink::new(writer))?);
    Ok(())
}

/// Whether the sink takes no byte.
fn is_full(sink: &mut impl Sink) -> bool {
    sink.put(b"") == Ok(()) && sink.put(b"a") == Err(Failed)
}

/// Whether the sink hands on what is put, as long as there is a reader.
fn is_piped<R: Read + Drop>(reader: R, sink: &mut impl Sink) -> Result<bool, Fail> {
    let are_put = sink.put(b"seven, ") == Ok(()) && sink.put(b"eight") == Ok(());
    let are_read = are_put && is_next(reader, b"seven, eight")?;
    Ok(are_read && sink.put(b"nine") == Err(Failed))
}

/// Whether these are the next bytes that are read.
fn is_next<R: Read + Drop>(mut reader: R, bytes: &[u8; 12]) -> Result<bool, Fail> {
    let mut told = [0u8; 12];
    reader.read_exact(&mut told)?;
    Ok(told == *bytes)
}

/// What opening gives, and what a read of four bytes and one more answers.
const READS: [(
    Result<&'static [Turn], ErrorKind>,
    Result<&'static [u8], ReadFault>,
); 11] = [
    (Ok(&[]), Ok(b"")),
    (Ok(&[Gives(b"ab"), Gives(b"c"), Gives(b"d")]), Ok(b"abcd")),
    (
        Ok(&[Gives(b"ab"), Gives(b"cdef"), Gives(b"gh")]),
        Ok(b"abcde"),
    ),
    (
        Ok(&[Gives(b"ab"), Fails(ErrorKind::Interrupted), Gives(b"c")]),
        Ok(b"abc"),
    ),
    (
        Ok(&[
            Fails(ErrorKind::Interrupted),
            Fails(ErrorKind::Interrupted),
            Gives(b"a"),
        ]),
        Ok(b"a"),
    ),
    (
        Ok(&[Fails(ErrorKind::PermissionDenied)]),
        Err(ReadFault::Failed),
    ),
    (
        Ok(&[Gives(b"ab"), Fails(ErrorKind::UnexpectedEof)]),
        Err(ReadFault::Failed),
    ),
    (
        Ok(&[Gives(b"ab"), Fails(ErrorKind::Other), Gives(b"c")]),
        Err(ReadFault::Failed),
    ),
    (
        Ok(&[Gives(b"ab"), Fails(ErrorKind::OutOfMemory)]),
        Err(ReadFault::Memory),
    ),
    (Err(ErrorKind::NotFound), Err(ReadFault::Failed)),
    (Err(ErrorKind::OutOfMemory), Err(ReadFault::Memory)),
];

#[test]
fn reads_on_until_the_end(rt: HostRuntime) {
    let alloc = rt.alloc();
    for (index, (opened, answer)) in READS.into_iter().enumerate() {
        assert!(rt; is_read_so(alloc, opened, answer), "row {index}");
    }
}

/// Whether a read of a file that opens so answers this.
fn is_read_so(
    alloc: Global,
    opened: Result<&'static [Turn], ErrorKind>,
    answer: Result<&[u8], ReadFault>,
) -> bool {
    let mut files = HostFiles::new(Disk { alloc, opened });
    match files.read(alloc, "a", 4) {
        Ok(bytes) => answer == Ok(bytes.as_slice()),
        Err(fault) => answer == Err(fault),
    }
}

#[test]
fn writes_on_until_all_is_taken(rt: HostRuntime) {
    let alloc = rt.alloc();
    // The turns, whether the flush fails, what a put of four bytes answers, and what was taken.
    let rows: [(&'static [Turn], bool, Result<(), Failed>, &'static [u8]); 8] = [
        (&[Takes(4)], false, Ok(()), b"abcd"),
        (&[Takes(1), Takes(2), Takes(9)], false, Ok(()), b"abcd"),
        (
            &[Takes(1), Fails(ErrorKind::Interrupted), Takes(3)],
            false,
            Err(Failed),
            b"a",
        ),
        (&[Takes(4)], true, Err(Failed), b"abcd"),
        (&[Takes(3)], false, Err(Failed), b"abc"),
        (&[Takes(3), Takes(0), Takes(1)], false, Err(Failed), b"abc"),
        (
            &[Takes(2), Fails(ErrorKind::BrokenPipe), Takes(2)],
            false,
            Err(Failed),
            b"ab",
        ),
        (&[Fails(ErrorKind::StorageFull)], false, Err(Failed), b""),
    ];
    for (index, (turns, flush_fails, answer, taken)) in rows.into_iter().enumerate() {
        let mut script = Script::new(turns, Vec::new(alloc));
        script.flush_fails = flush_fails;
        assert!(rt; is_put_so(&mut script, answer, taken), "row {index}");
    }
}

/// Whether a put of four bytes answers this, where the file takes these.
fn is_put_so(script: &mut Script, answer: Result<(), Failed>, taken: &[u8]) -> bool {
    let told = HostSink::new(&mut *script).put(b"abcd");
    told == answer && script.taken.as_slice() == taken
}

#[test]
fn keeps_files_in_memory(rt: HostRuntime) -> Result<(), Fail> {
    let alloc = rt.alloc();
    let mut files = three_files(alloc)?;
    let rows: [(&str, usize, Result<&[u8], ReadFault>); 5] = [
        ("a", 9, Ok(b"newer")),
        ("b", 2, Ok(b"oth")),
        ("b", 9, Err(ReadFault::Failed)),
        ("b", 5, Ok(b"other")),
        ("c", 9, Err(ReadFault::Failed)),
    ];
    for (index, (name, limit, answer)) in rows.into_iter().enumerate() {
        assert!(rt;
            is_read(&mut files, alloc, name, limit, answer),
            "read {index}"
        );
    }
    Ok(())
}

/// Two files, one of them added twice, whose third read fails.
fn three_files(alloc: Global) -> Result<MemoryFiles, Fail> {
    let mut files = MemoryFiles::empty(alloc);
    files.add("a", b"old")?;
    files.add("b", b"other")?;
    files.add("a", b"newer")?;
    files.fail_read(3)?;
    Ok(files)
}

#[test]
fn keeps_what_is_put_in_memory(rt: HostRuntime) -> Result<(), Fail> {
    let mut sink = MemorySink::with_room(rt.alloc(), 7)?;
    sink.fail_put(3)?;
    let rows = [
        (b"ab".as_slice(), Ok(()), b"ab".as_slice()),
        (b"".as_slice(), Ok(()), b"ab".as_slice()),
        (b"cd".as_slice(), Ok(()), b"abcd".as_slice()),
        (b"ef".as_slice(), Err(Failed), b"abcd".as_slice()),
        (b"ghij".as_slice(), Err(Failed), b"abcdghi".as_slice()),
        (b"k".as_slice(), Err(Failed), b"abcdghi".as_slice()),
    ];
    for (index, (bytes, answer, told)) in rows.into_iter().enumerate() {
        assert!(rt;
            sink.put(bytes) == answer && sink.bytes() == told,
            "put {index}"
        );
    }
    Ok(())
}
