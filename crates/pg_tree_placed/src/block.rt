//! A block of bytes that wait to be written.
//!
//! The writer is called once for many steps, and not for each piece of one. A block takes its memory when it is made, and no more. Bytes of which there are few
//! are copied where they are pushed, with no call: what isn't usual is out of line.

ghost use Rattle.std.specs.Prelude.{◌≡◌, ◌+◌, ◌<◌, ◌≤◌, ◌++◌, false, [], length, take, drop, is_err, slice_set, IfOk, OnOk, OnErr};
ghost use Rattle.std.specs.Io.KnownBytes.{Appends};
ghost use Rattle.pg_tree.specs.Bytes.{AppendsPrefix};
ghost use Rattle.pg_tree_placed.specs.Writing.{IsPut};

use pg_tree::{Meter, write_bytes};
use std::alloc::{AllocError, Global};
use std::io::Write;
use std::marker::Model;

/// How many bytes a block holds.
pub(crate) const SIZE: usize = 65536;

/// How many bytes are copied at once where fewer are wanted.
pub(crate) const AT_ONCE: usize = 32;

/// The writer failed. The meter knows that too.
#[derive(Drop)]
pub(crate) struct Stopped;

/// Bytes that wait to be written: the first ones of a `Vec` that never grows.
#[derive(Drop)]
pub(crate) struct Block {
    bytes: Vec<u8>,
    used: usize,
}

impl Model for Block {
    ghost use Rattle.std.specs.Prelude.{◌≡◌, ◌≤◌, ℕ, List, length, take};
    ghost use Rattle.std.specs.Coded.{coded_list, coded_ℕ};

    ghost Value = { List ℕ };

    ghost coded = { coded_list coded_ℕ };

    ghost view = { λ b. take b.used b.bytes.items };

    ghost invariant = { λ b. (b.used ≤ 65536) × (length b.bytes.items ≡ 65536) };
}

impl Block {
    /// A block in which nothing waits.
    pub(crate) fn new(alloc: Global) -> Result<Block, AllocError>
        ensures { IfOk result (λ block. block ≡ []) }
    {
        let mut bytes = Vec::new(alloc);
        bytes.resize(SIZE, 0)?;
        Ok(Block { bytes, used: 0 })
    }

    /// Drops what waits.
    pub(crate) fn clear(&mut self)
        ensures { self.new ≡ [] }
    {
        self.used = 0;
    }

    /// Pushes bytes. Where there isn't room, what waits goes to the writer first, and so do bytes that are longer than a block.
    #[inline(always)]
    pub(crate) fn push<W: Write>(
        &mut self,
        bytes: &[u8],
        writer: &mut Meter<W>,
    ) -> Result<(), Stopped>
        requires { writer.old.failed ≡ false }
        ensures failed { writer.new.failed ≡ is_err result }
        ensures so { IsPut result (W.contents writer.old.inner) self.old (W.contents writer.new.inner) self.new bytes.now }
    {
        if bytes.len() <= SIZE - self.used {
            self.keep(bytes);
            return Ok(());
        }
        self.push_after_others(bytes, writer)
    }

    /// Pushes the first of some bytes, so many. A copy of a fixed number of bytes takes no call: so more are copied than are wanted.
    #[inline(always)]
    pub(crate) fn push_first<W: Write>(
        &mut self,
        bytes: &[u8],
        count: usize,
        writer: &mut Meter<W>,
    ) -> Result<(), Stopped>
        requires there { 32 ≤ length bytes.now }
        requires few { count ≤ 32 }
        requires well { writer.old.failed ≡ false }
        ensures failed { writer.new.failed ≡ is_err result }
        ensures so { IsPut result (W.contents writer.old.inner) self.old (W.contents writer.new.inner) self.new (take count bytes.now) }
    {
        if AT_ONCE <= SIZE - self.used {
            self.keep_first(&bytes[..AT_ONCE], count);
            return Ok(());
        }
        self.push_after_others(&bytes[..count], writer)
    }

    /// Pushes a few bytes with another one in one place. It is put there behind the copy: a piece that is put together first is read again before it is written, and
    /// that takes time.
    #[inline(always)]
    pub(crate) fn push_with<W: Write>(
        &mut self,
        bytes: &[u8],
        at: usize,
        byte: u8,
        writer: &mut Meter<W>,
    ) -> Result<(), Stopped>
        requires few { length bytes.now ≤ 32 }
        requires within { at < length bytes.now }
        requires well { writer.old.failed ≡ false }
        ensures failed { writer.new.failed ≡ is_err result }
        ensures so { IsPut result (W.contents writer.old.inner) self.old (W.contents writer.new.inner) self.new (slice_set bytes.now at byte) }
    {
        if bytes.len() <= SIZE - self.used {
            self.keep_with(bytes, at, byte);
            return Ok(());
        }
        self.push_with_after_others(bytes, at, byte, writer)
    }

    /// Writes what waits, and then pushes a few bytes with another one in one place.
    #[inline(never)]
    fn push_with_after_others<W: Write>(
        &mut self,
        bytes: &[u8],
        at: usize,
        byte: u8,
        writer: &mut Meter<W>,
    ) -> Result<(), Stopped>
        requires few { length bytes.now ≤ 32 }
        requires within { at < length bytes.now }
        requires well { writer.old.failed ≡ false }
        ensures failed { writer.new.failed ≡ is_err result }
        ensures so { IsPut result (W.contents writer.old.inner) self.old (W.contents writer.new.inner) self.new (slice_set bytes.now at byte) }
    {
        self.flush(writer)?;
        self.keep_with(bytes, at, byte);
        Ok(())
    }

    /// Writes what waits, and then pushes bytes.
    #[inline(never)]
    fn push_after_others<W: Write>(
        &mut self,
        bytes: &[u8],
        writer: &mut Meter<W>,
    ) -> Result<(), Stopped>
        requires { writer.old.failed ≡ false }
        ensures failed { writer.new.failed ≡ is_err result }
        ensures so { IsPut result (W.contents writer.old.inner) self.old (W.contents writer.new.inner) self.new bytes.now }
    {
        self.flush(writer)?;
        if bytes.len() <= SIZE {
            self.keep(bytes);
            return Ok(());
        }
        write_all(bytes, writer)
    }

    /// Writes what waits.
    pub(crate) fn flush<W: Write>(&mut self, writer: &mut Meter<W>) -> Result<(), Stopped>
        requires { writer.old.failed ≡ false }
        ensures failed { writer.new.failed ≡ is_err result }
        ensures empty { OnOk result (self.new ≡ []) }
        ensures ok { OnOk result (Appends (W.contents writer.old.inner) (W.contents writer.new.inner) self.old) }
        ensures prefix { OnErr result (AppendsPrefix (W.contents writer.old.inner) (W.contents writer.new.inner) self.old) }
    {
        write_all(&self.bytes[..self.used], writer)?;
        self.used = 0;
        Ok(())
    }

    /// Copies bytes for which there is room.
    #[inline(always)]
    fn keep(&mut self, bytes: &[u8])
        requires { length self.old + length bytes.now ≤ 65536 }
        ensures { self.new ≡ self.old ++ bytes.now }
    {
        paste(self.bytes.as_mut_slice(), self.used, bytes);
        self.used += bytes.len();
    }

    /// Copies bytes for which there is room, with another one in one place.
    #[inline(always)]
    fn keep_with(&mut self, bytes: &[u8], at: usize, byte: u8)
        requires room { length self.old + length bytes.now ≤ 65536 }
        requires within { at < length bytes.now }
        ensures { self.new ≡ self.old ++ slice_set bytes.now at byte }
    {
        paste_with(self.bytes.as_mut_slice(), self.used, bytes, at, byte);
        self.used += bytes.len();
    }

    /// Copies bytes for which there is room, and keeps so many of them.
    #[inline(always)]
    fn keep_first(&mut self, bytes: &[u8], count: usize)
        requires room { length self.old + length bytes.now ≤ 65536 }
        requires there { count ≤ length bytes.now }
        ensures { self.new ≡ self.old ++ take count bytes.now }
    {
        paste(self.bytes.as_mut_slice(), self.used, bytes);
        self.used += count;
    }
}

/// Copies bytes to a place among others.
#[inline(always)]
fn paste(all: &mut [u8], at: usize, bytes: &[u8])
    requires { at + length bytes.now ≤ length all.old }
    ensures { all.new ≡ take at all.old ++ (bytes.now ++ drop (at + length bytes.now) all.old) }
{
    all[at..at + bytes.len()].copy_from_slice(bytes);
}

/// The same with another byte in one place of them.
#[inline(always)]
fn paste_with(all: &mut [u8], place: usize, bytes: &[u8], at: usize, byte: u8)
    requires room { place + length bytes.now ≤ length all.old }
    requires within { at < length bytes.now }
    ensures { all.new ≡ take place all.old ++ (slice_set bytes.now at byte ++ drop (place + length bytes.now) all.old) }
{
    paste(all, place, bytes);
    all[place + at] = byte;
}

/// Writes bytes.
fn write_all<W: Write>(bytes: &[u8], writer: &mut Meter<W>) -> Result<(), Stopped>
    requires { writer.old.failed ≡ false }
    ensures failed { writer.new.failed ≡ is_err result }
    ensures ok { OnOk result (Appends (W.contents writer.old.inner) (W.contents writer.new.inner) bytes.now) }
    ensures prefix { OnErr result (AppendsPrefix (W.contents writer.old.inner) (W.contents writer.new.inner) bytes.now) }
{
    match write_bytes(bytes, writer) {
        Ok(()) => Ok(()),
        Err(_) => Err(Stopped),
    }
}
