//! Readers and writers that remember how their calls went.
//!
//! A meter passes each call on to what it wraps, unchanged, and notes the outcome. Its flag is never cleared, and its
//! two counters never fall; they stop at `u64::MAX`. Contracts of callers rely on the flag to say which fault came from
//! the outside. They rely on the counters to promise how often a reader is called and that it gave more than a limit,
//! even if the reader's type doesn't say which bytes it has.

ghost use Rattle.std.specs.Prelude.{◌≡◌, ◌||◌, false};
ghost use Rattle.std.specs.Io.{ReadsAtMost, WritesAtMost};
ghost use Rattle.std.specs.Io.KnownBytes.{Keeps, ReadConsumes, WriteAppends};
ghost use Rattle.pg_tree.specs.Meter.{saturating_sum, bytes_moved, read_fails, write_fails};

use std::io;
use std::io::{Read, Write};
use std::marker::Model;

/// A reader or a writer, with a flag for a failed call and with two counters (ours).
///
/// A call fails if it answers an error; a write of at least one byte also fails if it takes no byte. The counters are
/// of calls of `read` or `write` and of the bytes that these moved.
///
/// Call only `read`, `write` and `flush`: the traits' provided methods go through these, but promise nothing about what
/// a meter notes.
#[derive(Drop)]
pub struct Meter<T> {
    inner: T,
    failed: bool,
    calls: u64,
    bytes: u64,
}

impl<T> Model for Meter<T> {
    ghost use Rattle.pg_tree.specs.Meter.{Metered};

    ghost Value = { Metered T };

    ghost view = { λ m. record { inner = m.inner; failed = m.failed; calls = m.calls; bytes = m.bytes } };
}

impl<T> Meter<T> {
    /// A meter that has seen no call. It takes no memory.
    pub fn new(inner: T) -> Meter<T>
        ensures inner { result.inner ≡ inner }
        ensures failed { result.failed ≡ false }
        ensures calls { result.calls ≡ 0 }
        ensures bytes { result.bytes ≡ 0 }
    {
        Meter {
            inner,
            failed: false,
            calls: 0,
            bytes: 0,
        }
    }

    /// Whether a call has failed since the meter was made.
    pub fn failed(&self) -> bool
        ensures { result ≡ self.now.failed }
    {
        self.failed
    }

    /// What it wraps, as the calls have left it.
    pub fn into_inner(self) -> T
        ensures { result ≡ self.inner }
    {
        let Meter { inner, .. } = self;
        inner
    }

    /// Notes one call and the bytes that it gave or took.
    fn note(&mut self, bytes: usize, failed: bool)
        ensures inner { self.new.inner ≡ self.old.inner }
        ensures failed { self.new.failed ≡ (self.old.failed || failed) }
        ensures calls { self.new.calls ≡ saturating_sum self.old.calls 1 }
        ensures bytes { self.new.bytes ≡ saturating_sum self.old.bytes bytes }
    {
        self.failed = self.failed || failed;
        self.calls = self.calls.saturating_add(1);
        self.bytes = self.bytes.saturating_add(bytes as u64);
    }
}

impl<T: Read> Read for Meter<T> {
    ghost remaining = { λ m. T.remaining m.inner };

    /// Passes the call on. An error sets the flag.
    fn read(&mut self, buf: &mut [u8]) -> io::Result<usize>
        ensures bound { ReadsAtMost result buf.new }
        ensures consumes { ReadConsumes (T.remaining self.old.inner) (T.remaining self.new.inner) result buf.new }
        ensures failed { self.new.failed ≡ (self.old.failed || read_fails result) }
        ensures calls { self.new.calls ≡ saturating_sum self.old.calls 1 }
        ensures bytes { self.new.bytes ≡ saturating_sum self.old.bytes (bytes_moved result) }
    {
        let outcome = self.inner.read(buf);
        match &outcome {
            Ok(given) => self.note(*given, false),
            Err(_) => self.note(0, true),
        }
        outcome
    }
}

impl<T: Write> Write for Meter<T> {
    ghost contents = { λ m. T.contents m.inner };

    /// Passes the call on. An error sets the flag, and so does a write that takes no byte of a text that has some.
    fn write(&mut self, buf: &[u8]) -> io::Result<usize>
        ensures bound { WritesAtMost result buf.now }
        ensures appends { WriteAppends (T.contents self.old.inner) (T.contents self.new.inner) result buf.now }
        ensures failed { self.new.failed ≡ (self.old.failed || write_fails result buf.now) }
        ensures calls { self.new.calls ≡ saturating_sum self.old.calls 1 }
        ensures bytes { self.new.bytes ≡ saturating_sum self.old.bytes (bytes_moved result) }
    {
        let outcome = self.inner.write(buf);
        match &outcome {
            Ok(taken) => self.note(*taken, *taken == 0 && !buf.is_empty()),
            Err(_) => self.note(0, true),
        }
        outcome
    }

    /// Passes the call on. It isn't counted and doesn't set the flag.
    fn flush(&mut self) -> io::Result<()>
        ensures keeps { Keeps (T.contents self.old.inner) (T.contents self.new.inner) }
        ensures failed { self.new.failed ≡ self.old.failed }
        ensures calls { self.new.calls ≡ self.old.calls }
        ensures bytes { self.new.bytes ≡ self.old.bytes }
    {
        self.inner.flush()
    }
}
