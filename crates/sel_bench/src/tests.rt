//! Lines read from readers, and answers sent to writers, of which some fail. The run over an input
//! is tested on the built program, with reads and writes that fail (`runs/transfers_that_fail`).
use sel_lines::counted::Counted;
use sel_lines::reading::{LineEnd, read_line};
use sel_lines::run::RunError;
use sel_lines::writing::{flush, send};
use std::alloc::Global;
use std::io;
use std::io::{ErrorKind, Read, Write};

// A reader of `rest` that fails at read `fails_at`.
#[derive(Drop)]
struct FakeReader<'a> {
    rest: &'a [u8],
    reads: u64,
    fails_at: u64,
}

impl Read for FakeReader<'_> {
    fn read(&mut self, buf: &mut [u8]) -> io::Result<usize> {
        self.reads = self.reads.saturating_add(1);
        if self.reads == self.fails_at {
            return Err(ErrorKind::Interrupted.into());
        }
        self.rest.read(buf)
    }
}

// The failure of a writer, and the write at which it occurs.
#[derive(Clone, Copy, PartialEq)]
enum Fault {
    None,
    Error(u64),
    TakesNone(u64),
    Flush,
}

// A writer that accepts at most `piece` bytes per write.
#[derive(Drop)]
struct FakeWriter {
    taken: Vec<u8>,
    piece: usize,
    fault: Fault,
    writes: u64,
    flushes: u64,
}

impl FakeWriter {
    fn new(alloc: Global, piece: usize, fault: Fault) -> FakeWriter {
        FakeWriter {
            taken: Vec::new(alloc),
            piece,
            fault,
            writes: 0,
            flushes: 0,
        }
    }
}

impl Write for FakeWriter {
    fn write(&mut self, buf: &[u8]) -> io::Result<usize> {
        self.writes = self.writes.saturating_add(1);
        if self.fault == Fault::Error(self.writes) {
            return Err(ErrorKind::Interrupted.into());
        }
        if self.fault == Fault::TakesNone(self.writes) {
            return Ok(0);
        }
        let count = buf.len().min(self.piece);
        match self.taken.extend_from_slice(&buf[..count]) {
            Ok(()) => Ok(count),
            Err(_) => Err(ErrorKind::OutOfMemory.into()),
        }
    }

    fn flush(&mut self) -> io::Result<()> {
        self.flushes = self.flushes.saturating_add(1);
        if self.fault == Fault::Flush {
            return Err(ErrorKind::Interrupted.into());
        }
        Ok(())
    }
}

const TWO_LINES: &[u8] = b"filter 10,20,30,40 t,n,f,t\ntake 5,n,7 2,n,1\n";

const TWO_ANSWERS: &[u8] = b"10,40\n7,n,n\n";

// Returns whether `read_line` reads the first of the two lines, and nothing of the second.
fn reads_one_line(alloc: Global) -> bool {
    let mut reader = Counted::new(TWO_LINES);
    let mut line = Vec::new(alloc);
    (read_line(&mut reader, &mut line) == Ok(LineEnd::Feed))
        & (line.as_slice() == &TWO_LINES[..26])
        & (reader.into_inner() == &TWO_LINES[27..])
}

// Returns whether `read_line` fails at this read only, after it has read the bytes before.
fn fails_at_read(alloc: Global, at: usize) -> bool {
    let fake = FakeReader {
        rest: TWO_LINES,
        reads: 0,
        fails_at: at as u64,
    };
    let mut reader = Counted::new(fake);
    let mut line = Vec::new(alloc);
    let has_failed = read_line(&mut reader, &mut line) == Err(RunError::Input);
    let is_counted = reader.failures() == 1;
    let rest = reader.into_inner().rest;
    has_failed
        & is_counted
        & (rest.len().saturating_add(at) == TWO_LINES.len() + 1)
        & (line.len() + 1 == at)
}

#[test]
fn each_read_fails(rt: HostRuntime) {
    assert!(rt; reads_one_line(rt.alloc()));
    for at in 1..28 {
        assert!(rt; fails_at_read(rt.alloc(), at));
    }
}

// Returns whether `send`, one byte per write with a fault at write `at`, fails at this write only,
// after the bytes before it.
fn fails_at_write(alloc: Global, at: u64, fault: Fault) -> bool {
    let mut writer = Counted::new(FakeWriter::new(alloc, 1, fault));
    let has_failed = send(&mut writer, TWO_ANSWERS) == Err(RunError::Output);
    let is_counted = writer.failures() == 1;
    let fake = writer.into_inner();
    has_failed & is_counted & (fake.taken.len() as u64 + 1 == at) & (fake.flushes == 0)
}

#[test]
fn each_write_fails(rt: HostRuntime) {
    for at in 1..13 {
        for fault in [Fault::Error(at), Fault::TakesNone(at)] {
            assert!(rt; fails_at_write(rt.alloc(), at, fault));
        }
    }
}

// Returns whether both answers are sent in pieces of this length, and a flush after them ends so,
// with so many failures of the writer.
fn flushes(
    alloc: Global,
    piece: usize,
    fault: Fault,
    end: Result<(), RunError>,
    failed: u64,
) -> bool {
    let mut writer = Counted::new(FakeWriter::new(alloc, piece, fault));
    let is_sent = (send(&mut writer, TWO_ANSWERS) == Ok(())) & !writer.is_flushed();
    let is_so = (flush(&mut writer) == end) & (writer.is_flushed() == end.is_ok());
    let is_counted = writer.failures() == failed;
    let fake = writer.into_inner();
    is_sent & is_so & is_counted & (fake.taken.as_slice() == TWO_ANSWERS) & (fake.flushes == 1)
}

#[test]
fn an_output_is_sent_and_flushed(rt: HostRuntime) {
    assert!(rt; flushes(rt.alloc(), 1, Fault::None, Ok(()), 0));
    assert!(rt; flushes(rt.alloc(), 4, Fault::None, Ok(()), 0));
    assert!(rt; flushes(rt.alloc(), 100, Fault::None, Ok(()), 0));
    assert!(rt; flushes(rt.alloc(), 100, Fault::Flush, Err(RunError::Output), 1));
}
