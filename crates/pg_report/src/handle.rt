//! The handle that commands use: the program's own, and whether it prints.
//!
//! A quiet handle drops what is printed through it. Why something can't be used is still reported: that goes to the program's own handle.

ghost use Rattle.std.specs.Prelude.{◌≡◌};

use std::alloc::Global;
use std::cell::Cell;
use std::fmt::Display;
use std::io;

/// A handle that opens files and prints. If it is quiet, it drops what is printed.
#[derive(Drop)]
pub struct Handle<'a, R> {
    /// What opens files and prints.
    pub rt: &'a R,
    /// Whether nothing is printed except why something can't be used.
    pub is_quiet: bool,
    /// Whether a write to standard output has failed.
    has_failed: Cell<bool>,
}

impl<'a, R> Handle<'a, R> {
    /// A handle that prints through `rt`, unless it is quiet.
    pub fn new(rt: &'a R, is_quiet: bool) -> Handle<'a, R> {
        Handle {
            rt,
            is_quiet,
            has_failed: Cell::new(false),
        }
    }

    /// Whether a write to standard output has failed.
    pub fn has_failed(&self) -> bool {
        self.has_failed.get()
    }

    /// The result of a write. Remembers it if it failed.
    fn noted<T>(&self, written: io::Result<T>) -> io::Result<T>
        ensures { result ≡ written }
    {
        if written.is_err() {
            self.has_failed.set(true);
        }
        written
    }
}

impl<R: AllocGlobal> Alloc for Handle<'_, R> {
    type A = Global;

    fn alloc(&self) -> Global {
        self.rt.alloc()
    }
}

impl<R: Print> Print for Handle<'_, R> {
    fn print<D: Display + Drop>(&self, value: D) -> io::Result<()> {
        if self.is_quiet {
            return Ok(());
        }
        self.noted(self.rt.print(value))
    }

    fn println<D: Display + Drop>(&self, value: D) -> io::Result<()> {
        if self.is_quiet {
            return Ok(());
        }
        self.noted(self.rt.println(value))
    }

    fn write_all(&self, bytes: &[u8]) -> io::Result<()> {
        if self.is_quiet {
            return Ok(());
        }
        self.noted(Print::write_all(self.rt, bytes))
    }

    fn write_some(&self, bytes: &[u8]) -> io::Result<usize> {
        if self.is_quiet {
            return Ok(bytes.len());
        }
        self.noted(self.rt.write_some(bytes))
    }
}

impl<R: Eprint> Eprint for Handle<'_, R> {
    fn eprint<D: Display + Drop>(&self, value: D) -> io::Result<()> {
        if self.is_quiet {
            return Ok(());
        }
        self.rt.eprint(value)
    }

    fn eprintln<D: Display + Drop>(&self, value: D) -> io::Result<()> {
        if self.is_quiet {
            return Ok(());
        }
        self.rt.eprintln(value)
    }
}
