//! The files that a command reads.
//!
//! All files that one answer needs are opened before any of them is read, and a file that can't be opened or read is reported at once. If there are several
//! grammars or texts, each is opened when its turn comes. The name `-` stands for standard input.

ghost use Rattle.std.specs.Prelude.{IfOk, IfSome};
ghost use Rattle.pg_report.specs.Files.{IsAllOf};

use crate::handle::Handle;
use crate::printing::{cannot_read, print_report};
use crate::reporting::Names;
use pg_bench_grammar::BenchFault;
use pg_tree::{Meter, ReadFault, read_bytes};
use std::alloc::{AllocError, Global};
use std::io::{Input, Read};
use std::rt::Files;
use std::{fs, io};

/// The most bytes that are read of a grammar file, a trail or a certificate.
const READ_LIMIT: usize = 67_108_864;

/// The device that reads as empty.
const NULL_DEVICE: &str = "/dev/null";

/// The name that stands for standard input.
pub const STANDARD_INPUT: &str = "-";

/// An open file, or standard input.
#[derive(Drop)]
pub enum Source<F, I> {
    File(F),
    Input(I),
}

impl<F: Read, I: Read> Read for Source<F, I> {
    fn read(&mut self, buf: &mut [u8]) -> io::Result<usize> {
        match self {
            Source::File(file) => file.read(buf),
            Source::Input(input) => input.read(buf),
        }
    }
}

/// A file on the null device, if it can be opened. The program opens three of them before all other files, and keeps them open to the end.
///
/// If the caller closed descriptors from 0 to 2, these files take their numbers, so no file that is named does. A closed standard input then reads as empty.
/// Since the files are open only for reading, output on a closed descriptor still fails.
pub fn null_file<R: Files>(rt: &R) -> Option<R::File> {
    fs::open(rt, NULL_DEVICE).ok()
}

/// The bytes of the grammar in a file, and the open text. Both are opened before either is read. `None` if one can't be used, which is reported.
pub fn inputs<R: AllocGlobal + Files + Input + Eprint>(
    rt: &Handle<R>,
    grammar: &str,
    text: &str,
) -> Result<Option<(Vec<u8>, Source<R::File, R::Reader>)>, AllocError> {
    let Some((grammar_file, text_file)) = opened_both(rt, grammar, text) else {
        return Ok(None);
    };
    match contents(rt, grammar_file, grammar)? {
        Some(bytes) => Ok(Some((bytes, text_file))),
        None => Ok(None),
    }
}

/// As `inputs`, with the bytes of the trail in a third file. It is read after the grammar's.
pub fn inputs_with_trail<R: AllocGlobal + Files + Input + Eprint>(
    rt: &Handle<R>,
    grammar: &str,
    text: &str,
    trail: &str,
) -> Result<Option<(Vec<u8>, Source<R::File, R::Reader>, Vec<u8>)>, AllocError> {
    let Some((grammar_file, text_file)) = opened_both(rt, grammar, text) else {
        return Ok(None);
    };
    let Some(trail_file) = opened(rt, trail) else {
        return Ok(None);
    };
    match both_contents(rt, grammar_file, grammar, trail_file, trail)? {
        Some((bytes, items)) => Ok(Some((bytes, text_file, items))),
        None => Ok(None),
    }
}

/// The bytes of the grammar in a file and of its certificate in another, which is read after the grammar's. Both are opened before either is read. `None` if
/// one can't be used, which is reported.
pub fn grammar_with_certificate<R: AllocGlobal + Files + Input + Eprint>(
    rt: &Handle<R>,
    grammar: &str,
    certificate: &str,
) -> Result<Option<(Vec<u8>, Vec<u8>)>, AllocError> {
    match opened_both(rt, grammar, certificate) {
        Some((grammar_file, certificate_file)) => {
            both_contents(rt, grammar_file, grammar, certificate_file, certificate)
        }
        None => Ok(None),
    }
}

/// The bytes of the grammar in a file. `None` if it can't be opened or read, which is reported.
pub fn grammar_alone<R: AllocGlobal + Files + Input + Eprint>(
    rt: &Handle<R>,
    grammar: &str,
) -> Result<Option<Vec<u8>>, AllocError> {
    match opened(rt, grammar) {
        Some(file) => contents(rt, file, grammar),
        None => Ok(None),
    }
}

/// The file with this name, or standard input, open. `None` if it can't be opened, which is reported.
pub fn opened<R: Files + Input + Eprint>(
    rt: &Handle<R>,
    name: &str,
) -> Option<Source<R::File, R::Reader>> {
    let file = found(rt, name);
    if file.is_none() {
        cannot_read(rt.rt, name);
    }
    file
}

/// The file with this name, or standard input, open. `None` if it can't be opened.
pub fn found<R: Files + Input>(rt: &Handle<R>, name: &str) -> Option<Source<R::File, R::Reader>> {
    if name == STANDARD_INPUT {
        return Some(Source::Input(rt.rt.reader()));
    }
    match fs::open(rt.rt, name) {
        Ok(file) => Some(Source::File(file)),
        Err(_) => None,
    }
}

/// The files with two names, open. `None` if one can't be opened, which is reported.
fn opened_both<R: Files + Input + Eprint>(
    rt: &Handle<R>,
    first: &str,
    second: &str,
) -> Option<(Source<R::File, R::Reader>, Source<R::File, R::Reader>)> {
    let first = opened(rt, first)?;
    let second = opened(rt, second)?;
    Some((first, second))
}

/// The bytes of an open text. `None` if it can't be read, which is reported as by a parse.
pub fn text_alone<R: AllocGlobal + Eprint, F: Read + Drop>(
    rt: &Handle<R>,
    file: F,
    names: Names,
) -> Result<Option<Vec<u8>>, AllocError> {
    let bytes = all_of(rt.alloc(), file)?;
    if bytes.is_none() {
        print_report(rt, BenchFault::Reader, names)?;
    }
    Ok(bytes)
}

/// The bytes of two open files with these names, one after the other. `None` if one can't be read or is too long, which is reported.
fn both_contents<R: AllocGlobal + Eprint, F: Read + Drop>(
    rt: &Handle<R>,
    first: F,
    first_name: &str,
    second: F,
    second_name: &str,
) -> Result<Option<(Vec<u8>, Vec<u8>)>, AllocError> {
    let Some(bytes) = contents(rt, first, first_name)? else {
        return Ok(None);
    };
    match contents(rt, second, second_name)? {
        Some(others) => Ok(Some((bytes, others))),
        None => Ok(None),
    }
}

/// The bytes of an open file with this name. `None` if it can't be read or is too long, which is reported.
fn contents<R: AllocGlobal + Eprint, F: Read + Drop>(
    rt: &Handle<R>,
    file: F,
    name: &str,
) -> Result<Option<Vec<u8>>, AllocError>
    ensures { IfOk result (λ found. IfSome found (λ bytes. IsAllOf (F.remaining file) bytes.items)) }
{
    let bytes = all_of(rt.alloc(), file)?;
    if bytes.is_none() {
        cannot_read(rt.rt, name);
    }
    Ok(bytes)
}

/// All bytes of an open file. `None` if it can't be read or is too long.
fn all_of<F: Read + Drop>(alloc: Global, file: F) -> Result<Option<Vec<u8>>, AllocError>
    ensures { IfOk result (λ found. IfSome found (λ bytes. IsAllOf (F.remaining file) bytes.items)) }
{
    let mut reader = Meter::new(file);
    match read_bytes(alloc, &mut reader, READ_LIMIT) {
        Ok(bytes) => Ok(Some(bytes)),
        Err(ReadFault::Reader | ReadFault::TooLong) => Ok(None),
        Err(ReadFault::Memory) => Err(AllocError),
    }
}
