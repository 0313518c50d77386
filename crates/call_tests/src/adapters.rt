//! The trusted edge: real files and streams, which tell contracts nothing, and readers and writers that stop.

use shelf_core::{
    FetchError, Fetched, FileShelf, Shelf, Sink, SinkFailed, StdSink, StoreFailed, read_within,
    write_whole,
};
use std::alloc::Global;
use std::io::{ErrorKind, Read, Write};
use std::test::Fail;
use std::{fs, io, process};

// Takes at most three bytes a call, and is interrupted before each. At `cut` bytes it fails with that kind, or takes nothing
// where there is none. Its flush fails where it holds `bad_flush` bytes.
#[derive(Drop)]
struct Choppy {
    got: Vec<u8>,
    interrupted: bool,
    cut: usize,
    kind: Option<ErrorKind>,
    bad_flush: usize,
}

impl Write for Choppy {
    fn write(&mut self, buf: &[u8]) -> io::Result<usize> {
        self.interrupted = !self.interrupted;
        if self.interrupted {
            return Err(io::Error::from(ErrorKind::Interrupted));
        }
        let left = self.cut.saturating_sub(self.got.len());
        if left == 0 {
            return match self.kind {
                Some(kind) => Err(io::Error::from(kind)),
                None => Ok(0),
            };
        }
        let most = buf.len().min(3).min(left);
        self.got.extend_from_slice(&buf[..most])?;
        Ok(most)
    }

    fn flush(&mut self) -> io::Result<()> {
        if self.got.len() == self.bad_flush {
            return Err(io::Error::from(ErrorKind::StorageFull));
        }
        Ok(())
    }
}

fn make_choppy(alloc: Global, cut: usize, kind: Option<ErrorKind>, bad_flush: usize) -> Choppy {
    Choppy {
        got: Vec::new(alloc),
        interrupted: false,
        cut,
        kind,
        bad_flush,
    }
}

// Each writer is to take `abcdefgh`: what it does, what it has in the end, and whether that went well.
#[test]
fn writers_that_stop(rt: HostRuntime) -> Result<(), Fail> {
    let broken = Some(ErrorKind::BrokenPipe);
    for (cut, kind, bad_flush, has, well) in [
        (99, broken, 99, "abcdefgh", true),
        (8, broken, 99, "abcdefgh", true),
        (7, broken, 99, "abcdefg", false),
        (3, None, 99, "abc", false),
        (0, Some(ErrorKind::OutOfMemory), 99, "", false),
        (99, broken, 8, "abcdefgh", false),
    ] {
        let mut writer = make_choppy(rt.alloc(), cut, kind, bad_flush);
        assert_eq!(rt;
            write_whole(&mut writer, b"abcdefgh").is_ok(),
            well,
            "cut at {cut}"
        );
        assert_eq!(rt; writer.got.as_slice(), has.as_bytes(), "cut at {cut}");
        let mut sink = StdSink::new(make_choppy(rt.alloc(), cut, kind, bad_flush));
        assert_eq!(rt; sink.put(b"abcdefgh").is_ok(), well, "cut at {cut}");
        assert_eq!(rt; sink.put(b"").is_ok(), bad_flush != 8, "cut at {cut}");
    }
    Ok(())
}

// Gives at most three bytes a call, each time after an interruption, and then the end or that error. It counts what it gave.
#[derive(Drop)]
struct Drip {
    left: usize,
    interrupted: bool,
    kind: Option<ErrorKind>,
    given: usize,
}

impl Read for Drip {
    fn read(&mut self, buf: &mut [u8]) -> io::Result<usize> {
        self.interrupted = !self.interrupted;
        if self.interrupted {
            return Err(io::Error::from(ErrorKind::Interrupted));
        }
        if self.left == 0 {
            if let Some(kind) = self.kind {
                return Err(io::Error::from(kind));
            }
        }
        let count = buf.len().min(3).min(self.left);
        for place in &mut buf[..count] {
            *place = b'x';
        }
        self.left -= count;
        self.given = self.given.saturating_add(count);
        Ok(count)
    }
}

fn kind_of(fetched: &Result<Fetched, FetchError>) -> &'static str {
    match fetched {
        Ok(Fetched::Bytes(bytes)) => match bytes.as_slice() {
            b"" => "none",
            b"xxxxxxx" => "seven",
            _ => "other",
        },
        Ok(Fetched::Missing) => "missing",
        Ok(Fetched::TooLong) => "too long",
        Err(FetchError::Failed) => "failed",
        Err(FetchError::Memory) => "memory",
    }
}

// Each reader has some `x`: how many, what comes after them, the limit, what is answered, and how many were read.
#[test]
fn readers_that_stop(rt: HostRuntime) {
    let failed = Some(ErrorKind::Other);
    for (left, kind, limit, want, given) in [
        (7, None, 7, "seven", 7),
        (7, None, usize::MAX, "seven", 7),
        (7, None, 6, "too long", 7),
        (99, None, 6, "too long", 7),
        (99, None, 0, "too long", 1),
        (0, None, 0, "none", 0),
        (7, failed, 7, "failed", 7),
        (7, failed, 6, "too long", 7),
        (0, Some(ErrorKind::NotFound), 7, "failed", 0),
        (7, Some(ErrorKind::OutOfMemory), 7, "memory", 7),
    ] {
        let mut reader = Drip {
            left,
            interrupted: false,
            kind,
            given: 0,
        };
        let fetched = read_within(&mut reader, rt.alloc(), limit);
        assert_eq!(rt; kind_of(&fetched), want, "{left} under {limit}");
        assert_eq!(rt; reader.given, given, "{left} under {limit}");
    }
}

// Files of the system: a folder, a file without end, a full device, a file in a missing folder.
#[test]
fn real_files(rt: HostRuntime) -> Result<(), Fail> {
    let mut shelf = FileShelf::new(&rt);
    assert_eq!(rt; kind_of(&shelf.fetch(rt.alloc(), "/dev/null", 0)), "none");
    assert_eq!(rt;
        kind_of(&shelf.fetch(rt.alloc(), "/dev/zero", 200000)),
        "too long"
    );
    assert_eq!(rt; kind_of(&shelf.fetch(rt.alloc(), "/dev", 9)), "failed");
    assert_eq!(rt;
        kind_of(&shelf.fetch(rt.alloc(), "/dev/null/a", 9)),
        "failed"
    );
    assert_eq!(rt;
        kind_of(&shelf.fetch(rt.alloc(), "/no_such_folder/a", 9)),
        "missing"
    );
    assert_eq!(rt; shelf.store("/dev/null", b"x"), Ok(()));
    assert_eq!(rt; shelf.store("/dev/full", b"x"), Err(StoreFailed));
    assert_eq!(rt; shelf.store("/dev", b"x"), Err(StoreFailed));
    assert_eq!(rt; shelf.store("/no_such_folder/a", b"x"), Err(StoreFailed));
    Ok(())
}

// A stored file is fetched again, also one that was longer before.
#[test]
fn a_stored_file(rt: HostRuntime) -> Result<(), Fail> {
    let path = format!(in rt.alloc(); "/tmp/bezgliv_call_tests_{}", process::id(rt.process()))?;
    let path = path.as_str();
    let mut shelf = FileShelf::new(&rt);
    assert_eq!(rt; shelf.store(path, b"longer before"), Ok(()));
    assert_eq!(rt; shelf.store(path, b"xxxxxxx"), Ok(()));
    assert_eq!(rt; kind_of(&shelf.fetch(rt.alloc(), path, 7)), "seven");
    assert_eq!(rt; kind_of(&shelf.fetch(rt.alloc(), path, 6)), "too long");
    fs::remove_file(&rt, path)?;
    Ok(())
}

// A pipe that nobody reads, and a device that is full.
#[test]
fn broken_streams(rt: HostRuntime) -> Result<(), Fail> {
    let (reader, writer) = io::pipe(&rt)?;
    drop(reader);
    assert_eq!(rt; StdSink::new(writer).put(b"x"), Err(SinkFailed));
    let mut sink = StdSink::new(fs::create(&rt, "/dev/full")?);
    assert_eq!(rt; sink.put(b"x"), Err(SinkFailed));
    assert_eq!(rt; sink.put(b""), Ok(()));
    Ok(())
}
