//! What no contract says: the escapes of a text in JSON, that each call succeeds with ample memory, the tree of each
//! shape, the printed faults, and readers and writers that fail in the middle.
//!
//! The expected JSON is what Python's json module writes for the same values, with sorted keys and no spaces.

use super::json_text::json_text;
use super::*;
use std::alloc::{AllocError, Global};
use std::io;
use std::io::{ErrorKind, Read, Write};
use std::test::Fail;

/// Takes one byte a call, and answers an error once it holds `most` bytes.
#[derive(Drop)]
struct SlowWriter {
    held: Vec<u8>,
    most: usize,
}

impl Write for SlowWriter {
    fn write(&mut self, buf: &[u8]) -> io::Result<usize> {
        if self.held.len() >= self.most {
            return Err(io::Error::from(ErrorKind::Other));
        }
        match buf.first() {
            Some(first) => {
                self.held.push(*first)?;
                Ok(1)
            }
            None => Ok(0),
        }
    }

    fn flush(&mut self) -> io::Result<()> {
        Ok(())
    }
}

/// Takes no byte of any text.
#[derive(Drop)]
struct FullWriter;

impl Write for FullWriter {
    fn write(&mut self, _buf: &[u8]) -> io::Result<usize> {
        Ok(0)
    }

    fn flush(&mut self) -> io::Result<()> {
        Err(io::Error::from(ErrorKind::Other))
    }
}

/// Gives one byte a call, and answers an error at the call with this number, counted from 1.
#[derive(Drop)]
struct SlowReader<'a> {
    left: &'a [u8],
    calls: usize,
    fails_at: usize,
}

impl Read for SlowReader<'_> {
    fn read(&mut self, buf: &mut [u8]) -> io::Result<usize> {
        self.calls = self.calls.saturating_add(1);
        if self.calls == self.fails_at {
            return Err(io::Error::from(ErrorKind::Other));
        }
        match (self.left, buf.first_mut()) {
            ([first, rest @ ..], Some(place)) => {
                *place = *first;
                self.left = rest;
                Ok(1)
            }
            _ => Ok(0),
        }
    }
}

/// The forest of a leaf, a node of kids of all kinds, and an empty leaf.
fn escaped_forest(alloc: Global) -> Result<Forest, AllocError> {
    let mut inner = Forest::new(alloc);
    inner.push(Tree::leaf(alloc, "\u{0}\u{8}\t\n\u{b}\u{c}\r\u{1b}\u{1f}\u{7f}")?)?;
    inner.push(Tree::leaf(alloc, "é ∀ 😀")?)?;
    let mut outer = Forest::new(alloc);
    outer.push(Tree::leaf(alloc, "say \"hi\"")?)?;
    outer.push(Tree::node(alloc, "back\\slash", Forest::new(alloc))?)?;
    let mut more = Forest::new(alloc);
    more.push(Tree::leaf(alloc, "a/b")?)?;
    more.push(Tree::node(alloc, "", inner)?)?;
    outer.append(more)?;
    let mut forest = Forest::new(alloc);
    forest.push(Tree::leaf(alloc, "plain")?)?;
    forest.push(Tree::node(alloc, "sum", outer)?)?;
    forest.push(Tree::leaf(alloc, "")?)?;
    Ok(forest)
}

/// The text of `escaped_forest`.
const ESCAPED_JSON: &str = "[\"plain\",\
    {\"kids\":[\"say \\\"hi\\\"\",{\"kids\":[],\"node\":\"back\\\\slash\"},\"a/b\",\
    {\"kids\":[\"\\u0000\\b\\t\\n\\u000b\\f\\r\\u001b\\u001f\u{7f}\",\"é ∀ 😀\"],\"node\":\"\"}],\"node\":\"sum\"},\"\"]";

/// A leaf, a node `sum` with a node of its own label among its kids, a node `neg` with such a node,
/// and a leaf.
fn nested_kids(alloc: Global) -> Result<Forest, AllocError> {
    let mut kids = Forest::new(alloc);
    kids.push(Tree::leaf(alloc, "a")?)?;
    kids.push(around_a_sum(alloc, "sum", "b")?)?;
    kids.push(around_a_sum(alloc, "neg", "c")?)?;
    kids.push(Tree::leaf(alloc, "é")?)?;
    Ok(kids)
}

/// A node of a leaf and of a node `sum` with a leaf.
fn around_a_sum(alloc: Global, label: &str, text: &str) -> Result<Tree, AllocError> {
    let mut inner = Forest::new(alloc);
    inner.push(Tree::leaf(alloc, "+")?)?;
    let mut kids = Forest::new(alloc);
    kids.push(Tree::leaf(alloc, text)?)?;
    kids.push(Tree::node(alloc, "sum", inner)?)?;
    Tree::node(alloc, label, kids)
}

/// The label with a copy of this text.
fn label(alloc: Global, text: &str) -> Result<Label, AllocError> {
    Ok(Label::new(String::from_str(alloc, text)?))
}

/// The text in JSON of the tree that a shape makes of these kids and the symbol `list`.
fn built_json(alloc: Global, shape: &Shape, kids: Forest) -> Result<Vec<u8>, AllocError> {
    let mut forest = Forest::new(alloc);
    forest.push(built(alloc, shape, "list", kids)?)?;
    json_text(alloc, &forest)
}

/// The text of the node `sum` of `nested_kids`.
const NODE_JSON: &str =
    "[{\"kids\":[\"a\",{\"kids\":[\"b\",{\"kids\":[\"+\"],\"node\":\"sum\"}],\"node\":\"sum\"},\
    {\"kids\":[\"c\",{\"kids\":[\"+\"],\"node\":\"sum\"}],\"node\":\"neg\"},\"é\"],\"node\":\"sum\"}]";

/// The text of the node `list` of `nested_kids`.
const SYMBOL_JSON: &str =
    "[{\"kids\":[\"a\",{\"kids\":[\"b\",{\"kids\":[\"+\"],\"node\":\"sum\"}],\"node\":\"sum\"},\
    {\"kids\":[\"c\",{\"kids\":[\"+\"],\"node\":\"sum\"}],\"node\":\"neg\"},\"é\"],\"node\":\"list\"}]";

/// The text of the node `sum` of `nested_kids` once flattened: a node `sum` further down stays.
const FLAT_JSON: &str = "[{\"kids\":[\"a\",\"b\",{\"kids\":[\"+\"],\"node\":\"sum\"},\
    {\"kids\":[\"c\",{\"kids\":[\"+\"],\"node\":\"sum\"}],\"node\":\"neg\"},\"é\"],\"node\":\"sum\"}]";

#[test]
fn builds_each_shape(rt: HostRuntime) -> Result<(), Fail> {
    let alloc = rt.alloc();
    let node = Shape::Node(label(alloc, "sum")?);
    let flat = Shape::Flat(label(alloc, "sum")?);
    for (shape, expected, empty) in [
        (&node, NODE_JSON, "[{\"kids\":[],\"node\":\"sum\"}]"),
        (
            &Shape::Symbol,
            SYMBOL_JSON,
            "[{\"kids\":[],\"node\":\"list\"}]",
        ),
        (&Shape::Join, "[\"ab+c+é\"]", "[\"\"]"),
        (&flat, FLAT_JSON, "[{\"kids\":[],\"node\":\"sum\"}]"),
    ] {
        let text = built_json(alloc, shape, nested_kids(alloc)?)?;
        assert!(rt; text.as_slice() == expected.as_bytes(), "{expected}");
        let text = built_json(alloc, shape, Forest::new(alloc))?;
        assert!(rt; text.as_slice() == empty.as_bytes(), "{empty}");
    }
    Ok(())
}

#[test]
fn copies_and_compares_shapes(rt: HostRuntime) -> Result<(), Fail> {
    let alloc = rt.alloc();
    let shapes = [
        Shape::Node(label(alloc, "sum")?),
        Shape::Node(label(alloc, "neg")?),
        Shape::Symbol,
        Shape::Join,
        Shape::Flat(label(alloc, "sum")?),
        Shape::Flat(label(alloc, "neg")?),
    ];
    for (i, shape) in shapes.iter().enumerate() {
        for (j, other) in shapes.iter().enumerate() {
            assert_eq!(rt; shape.copy(alloc)?.equals(other), i == j, "{i} and {j}");
        }
    }
    assert_eq!(rt; label(alloc, "é")?.copy(alloc)?.as_str(), "é");
    Ok(())
}

#[test]
fn writes_json(rt: HostRuntime) -> Result<(), Fail> {
    let alloc = rt.alloc();
    for (forest, expected) in [
        (Forest::new(alloc), "[]"),
        (escaped_forest(alloc)?, ESCAPED_JSON),
    ] {
        let mut writer = Meter::new(Meter::new(Vec::<u8>::new(alloc)));
        write_json(alloc, &forest, &mut writer)?;
        assert!(rt; !writer.failed());
        assert!(rt;
            writer.into_inner().into_inner().as_slice() == expected.as_bytes(),
            "{expected}"
        );
    }
    Ok(())
}

#[test]
fn writes_a_prefix_where_the_writer_fails(rt: HostRuntime) -> Result<(), Fail> {
    let alloc = rt.alloc();
    let mut forest = Forest::new(alloc);
    forest.push(Tree::leaf(alloc, "é")?)?;
    let expected = "[\"é\"]".as_bytes();
    for most in 0..=expected.len() {
        let mut writer = Meter::new(SlowWriter {
            held: Vec::new(alloc),
            most,
        });
        let outcome = write_json(alloc, &forest, &mut writer);
        assert_eq!(rt;
            outcome.is_ok(),
            most == expected.len(),
            "after {most} bytes"
        );
        assert!(rt; matches!(outcome, Ok(()) | Err(WriteFault::Writer)));
        assert_eq!(rt;
            writer.failed(),
            most < expected.len(),
            "after {most} bytes"
        );
        let held = writer.into_inner().held;
        assert_eq!(rt; held.len(), most);
        assert!(rt; expected.starts_with(held.as_slice()), "after {most} bytes");
    }
    Ok(())
}

#[test]
fn notes_a_writer_that_takes_nothing(rt: HostRuntime) -> Result<(), Fail> {
    let mut writer = Meter::new(FullWriter);
    write_bytes(b"", &mut writer)?;
    assert_eq!(rt; writer.write(b"")?, 0);
    assert!(rt; writer.flush().is_err() && !writer.failed());
    assert!(rt; matches!(write_bytes(b"a", &mut writer), Err(WriteFault::Writer)));
    assert!(rt; writer.failed());
    assert_eq!(rt; writer.write(b"")?, 0);
    assert!(rt; writer.failed());
    Ok(())
}

#[test]
fn fails_where_the_reader_does(rt: HostRuntime) -> Result<(), Fail> {
    let text = b"abcde".as_slice();
    for fails_at in 1..9 {
        let mut reader = Meter::new(SlowReader {
            left: text,
            calls: 0,
            fails_at,
        });
        let outcome = read_bytes(rt.alloc(), &mut reader, text.len());
        assert_eq!(rt; reader.failed(), fails_at <= 6, "at call {fails_at}");
        match outcome {
            Ok(read) => assert!(rt; fails_at > 6 && read.as_slice() == text),
            Err(fault) => assert!(rt; fails_at <= 6 && matches!(fault, ReadFault::Reader)),
        }
    }
    Ok(())
}

#[test]
fn reads_up_to_the_limit(rt: HostRuntime) -> Result<(), Fail> {
    let long = [7u8; 10_000];
    for length in [0, 1, 4_096, 9_999] {
        let mut reader = Meter::new(Meter::new(&long[..length]));
        let read = read_bytes(rt.alloc(), &mut reader, 9_999)?;
        assert_eq!(rt; read.len(), length);
    }
    let mut reader = Meter::new(long.as_slice());
    let outcome = read_bytes(rt.alloc(), &mut reader, 9_999);
    assert!(rt; matches!(outcome, Err(ReadFault::TooLong)) && !reader.failed());
    let mut reader = Meter::new(SlowReader {
        left: b"abcdef",
        calls: 0,
        fails_at: 0,
    });
    let outcome = read_bytes(rt.alloc(), &mut reader, 5);
    assert!(rt; matches!(outcome, Err(ReadFault::TooLong)));
    assert_eq!(rt; reader.into_inner().calls, 6);
    Ok(())
}

#[test]
fn prints_faults(rt: HostRuntime) -> Result<(), Fail> {
    let alloc = rt.alloc();
    for (fault, text) in [
        (WriteFault::Writer, "W1 cannot write"),
        (WriteFault::Memory, "out of memory"),
    ] {
        assert_eq!(rt; fault.to_string(alloc)?.as_str(), text);
    }
    for (fault, text) in [
        (ReadFault::Reader, "X1 cannot read"),
        (ReadFault::TooLong, "X1 cannot read"),
        (ReadFault::Memory, "out of memory"),
    ] {
        assert_eq!(rt; fault.to_string(alloc)?.as_str(), text);
    }
    Ok(())
}
