// Whole readings and writings, over objects in memory with calls that fail, and over real files.
ghost use Rattle.std.specs.Prelude.{None};

use crate::edge::{Failed, Folder, ReadStop, Source, WriteStop};
use crate::folder::MemFolder;
use crate::memory::{MemSink, MemSource};
use crate::real_folder::RealFolder;
use crate::whole::{read_all, write_all};
use std::alloc::Global;
use std::test::Fail;
use std::{env, fs, process};

// How a reading ended, and how many bytes it gave.
fn read_end(answer: &Result<Vec<u8>, ReadStop>) -> (&'static str, usize) {
    match answer {
        Ok(bytes) => ("read", bytes.len()),
        Err(ReadStop::ReadFault) => ("fault", 0),
        Err(ReadStop::TooLarge) => ("too large", 0),
        Err(ReadStop::Memory(_)) => ("memory", 0),
    }
}

fn write_end(answer: &Result<(), WriteStop>) -> &'static str {
    match answer {
        Ok(()) => "written",
        Err(WriteStop::WriteFault) => "fault",
        Err(WriteStop::Memory(_)) => "memory",
    }
}

#[test]
fn reads_all(rt: HostRuntime) -> Result<(), Fail> {
    let long = [7u8; 20_000];
    // One buffer holds 16,384 bytes, so the long bytes take two reads, and one more finds the end.
    for (size, limit, fails, want) in [
        (0, 0, 9, ("read", 0)),
        (1, 0, 9, ("too large", 0)),
        (5, 5, 9, ("read", 5)),
        (5, 4, 9, ("too large", 0)),
        (5, 5, 0, ("fault", 0)),
        (5, 5, 1, ("fault", 0)),
        (20_000, 20_000, 9, ("read", 20_000)),
        (20_000, 19_999, 9, ("too large", 0)),
        (20_000, 20_000, 1, ("fault", 0)),
        (20_000, 20_000, 2, ("fault", 0)),
        (20_000, 9, 1, ("too large", 0)),
    ] {
        let bytes = long[..size.min(long.len())].to_vec(rt.alloc())?;
        let mut source = MemSource::new(rt.alloc(), bytes, vec![in rt.alloc(); fails]?);
        let answer = read_all(rt.alloc(), &mut source, limit);
        assert_eq!(rt;
            read_end(&answer),
            want,
            "{size} bytes, limit {limit}, call {fails} fails"
        );
    }
    Ok(())
}

#[derive(Drop)]
struct Endless;

impl Source for Endless {
    ghost left = { λ _. None };

    ghost faults = { λ _. 0 };

    fn read(&mut self, buf: &mut [u8]) -> Result<usize, Failed> {
        Ok(buf.len())
    }
}

#[test]
fn ends_an_endless_reading(rt: HostRuntime) -> Result<(), Fail> {
    let answer = read_all(rt.alloc(), &mut Endless, 100_000);
    assert_eq!(rt; read_end(&answer), ("too large", 0));
    Ok(())
}

#[test]
fn writes_all(rt: HostRuntime) -> Result<(), Fail> {
    for (most, fails, want, taken) in [
        (1, 9, "written", b"abcde".as_slice()),
        (2, 9, "written", b"abcde".as_slice()),
        (5, 9, "written", b"abcde".as_slice()),
        (6, 9, "written", b"abcde".as_slice()),
        (2, 0, "fault", b"".as_slice()),
        (2, 1, "fault", b"ab".as_slice()),
        (2, 2, "fault", b"abcd".as_slice()),
        (2, 3, "written", b"abcde".as_slice()),
    ] {
        let fails_at = vec![in rt.alloc(); fails]?;
        let mut sink = MemSink::new(rt.alloc(), most.max(1), fails_at);
        let answer = write_all(&mut sink, b"abcde");
        assert_eq!(rt;
            write_end(&answer),
            want,
            "{most} at once, call {fails} fails"
        );
        assert_eq!(rt; sink.bytes(), taken, "{most} at once, call {fails} fails");
    }
    Ok(())
}

// Writes to a name and reads it again, at two limits, and reads a name that isn't there.
fn round_trip<F: Folder>(
    alloc: Global,
    files: &mut F,
    name: &str,
    missing: &str,
) -> [(&'static str, usize); 5] {
    [
        (write_end(&files.write_file(name, b"a{}\n")), 0),
        (write_end(&files.write_file(name, b"b{}")), 0),
        read_end(&files.read_file(alloc, name, 3)),
        read_end(&files.read_file(alloc, name, 2)),
        read_end(&files.read_file(alloc, missing, 9)),
    ]
}

const ROUND_TRIP: [(&str, usize); 5] = [
    ("written", 0),
    ("written", 0),
    ("read", 3),
    ("too large", 0),
    ("fault", 0),
];

#[test]
fn holds_files_in_memory(rt: HostRuntime) -> Result<(), Fail> {
    let alloc = rt.alloc();
    // The calls of the round trip are 0 to 4.
    let mut files = MemFolder::new(alloc, vec![in alloc; 5u64, 7]?);
    files.put("y.css", b"c{}")?;
    assert_eq!(rt; round_trip(alloc, &mut files, "x.css", "z.css"), ROUND_TRIP);
    assert_eq!(rt; files.get("x.css"), Some(b"b{}".as_slice()));
    assert_eq!(rt; files.get("y.css"), Some(b"c{}".as_slice()));
    assert_eq!(rt; files.get("z.css"), None);
    assert_eq!(rt; read_end(&files.read_file(alloc, "x.css", 3)), ("fault", 0));
    assert_eq!(rt; read_end(&files.read_file(alloc, "y.css", 3)), ("read", 3));
    assert_eq!(rt; write_end(&files.write_file("y.css", b"d{}")), "fault");
    files.put("y.css", b"e{}")?;
    assert_eq!(rt; files.get("y.css"), Some(b"e{}".as_slice()));
    Ok(())
}

#[test]
fn holds_real_files(rt: HostRuntime) -> Result<(), Fail> {
    let alloc = rt.alloc();
    let name = format!(in alloc; "io-edge-test-{}.css", process::id(rt.process()))?;
    let path = env::temp_dir(&rt)?.join(alloc, name.as_str())?;
    let shown = path.as_str();
    let mut files = RealFolder::new(&rt, alloc);
    let answers = round_trip(alloc, &mut files, shown, "/no/such/folder/x.css");
    fs::remove_file(&rt, shown)?;
    assert_eq!(rt; answers, ROUND_TRIP);
    assert_eq!(rt;
        write_end(&files.write_file("/no/such/folder/x.css", b"a{}")),
        "fault"
    );
    Ok(())
}
