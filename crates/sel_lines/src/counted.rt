//! A reader or writer that counts its failures, and knows whether it is flushed.
ghost use Rattle.std.specs.Prelude.{◌≡◌, ℕ, ◌+◌, ◌-◌, ◌^◌, ◌<◌, ◌≤◌, min, is_err, is_ok, length, if◌then◌else◌, ◌||◌, ◌&&◌, ◌==◌, Ok, Err, true, false};
ghost use Rattle.std.specs.Io.{ReadsAtMost, WritesAtMost};
ghost use Rattle.std.specs.Io.KnownBytes.{Keeps, ReadConsumes, WriteAppends};

use std::io;
use std::io::{Read, Write};

/// Forwards reads, writes and flushes, and counts those that return an error and the writes that
/// accept none of some bytes. The count saturates at `u64::MAX`. Remembers whether there was a write
/// since the last successful flush.
#[derive(Drop)]
pub struct Counted<T> {
    inner: T,
    failures: u64,
    is_flushed: bool,
}

impl<T> Counted<T> {
    ghost use Rattle.sel_lines.specs.Counted.{inner_of, failures_of, has_flushed, counted_up};

    /// Wraps a reader or writer with a failure count of 0 and nothing to flush.
    pub fn new(inner: T) -> Counted<T>
        ensures inner { inner_of result ≡ inner }
        ensures none_failed { failures_of result ≡ 0 }
        ensures flushed { has_flushed result ≡ true }
    {
        Counted {
            inner,
            failures: 0,
            is_flushed: true,
        }
    }

    /// Returns the number of calls that failed.
    pub fn failures(&self) -> u64
        ensures { result ≡ failures_of self.now }
    {
        self.failures
    }

    /// Returns whether there was no write since the last successful flush.
    pub fn is_flushed(&self) -> bool
        ensures { result ≡ has_flushed self.now }
    {
        self.is_flushed
    }

    /// Returns the inner reader or writer.
    pub fn into_inner(self) -> T
        ensures { result ≡ inner_of self }
    {
        let Counted {
            inner,
            failures: _,
            is_flushed: _,
        } = self;
        inner
    }

    fn count(&mut self, has_failed: bool)
        ensures inner { inner_of self.new ≡ inner_of self.old }
        ensures failures { failures_of self.new ≡ counted_up has_failed (failures_of self.old) }
        ensures flushed { has_flushed self.new ≡ has_flushed self.old }
    {
        if has_failed {
            self.failures = self.failures.saturating_add(1);
        }
    }
}

impl<R: Read> Read for Counted<R> {
    ghost use Rattle.sel_lines.specs.Counted.{inner_of, failures_of, counted_up};

    ghost remaining = { λ reader. R.remaining (inner_of reader) };

    fn read(&mut self, buf: &mut [u8]) -> io::Result<usize>
        ensures bound { ReadsAtMost result buf.new }
        ensures bytes { ReadConsumes (R.remaining (inner_of self.old))
            (R.remaining (inner_of self.new)) result buf.new }
        ensures failures { failures_of self.new ≡
            counted_up (is_err result) (failures_of self.old) }
    {
        let result = self.inner.read(buf);
        self.count(result.is_err());
        result
    }
}

impl<W: Write> Write for Counted<W> {
    ghost use Rattle.sel_lines.specs.Counted.{inner_of, failures_of, has_flushed, counted_up, has_write_failed};

    ghost contents = { λ writer. W.contents (inner_of writer) };

    fn write(&mut self, buf: &[u8]) -> io::Result<usize>
        ensures bound { WritesAtMost result buf.now }
        ensures bytes { WriteAppends (W.contents (inner_of self.old))
            (W.contents (inner_of self.new)) result buf.now }
        ensures failures { failures_of self.new ≡
            counted_up (has_write_failed result buf.now) (failures_of self.old) }
        ensures flushed { has_flushed self.new ≡ false }
    {
        self.is_flushed = false;
        let result = self.inner.write(buf);
        let has_failed = match &result {
            Ok(count) => *count == 0 && !buf.is_empty(),
            Err(_) => true,
        };
        self.count(has_failed);
        result
    }

    fn flush(&mut self) -> io::Result<()>
        ensures bytes { Keeps (W.contents (inner_of self.old)) (W.contents (inner_of self.new)) }
        ensures failures { failures_of self.new ≡
            counted_up (is_err result) (failures_of self.old) }
        ensures flushed { has_flushed self.new ≡ is_ok result }
    {
        let result = self.inner.flush();
        self.count(result.is_err());
        self.is_flushed = result.is_ok();
        result
    }
}
