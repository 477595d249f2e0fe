//! What no contract says: that calls succeed, and that printed texts are those of Text.Parsec.
use super::*;
use MessageKind::{Expected, Plain, SystemUnexpected, Unexpected};
use pg_text::Pos;
use std::alloc::{AllocError, Global};
use std::test::Fail;

/// An error at a place of the first line with these messages.
fn error_at(
    alloc: Global,
    place: usize,
    messages: &[(MessageKind, &str)],
) -> Result<ParseError, AllocError> {
    let position = Pos { line: 1, column: 5 };
    let mut error = ParseError::new(alloc, place, position);
    for (kind, text) in messages {
        error.add(*kind, String::from_str(alloc, text)?)?;
    }
    Ok(error)
}

/// The printed text of an error with these messages.
fn printed(alloc: Global, messages: &[(MessageKind, &str)]) -> Result<String, AllocError> {
    render(alloc, &error_at(alloc, 4, messages)?, "t")
}

#[test]
fn prints_the_first_line(rt: HostRuntime) -> Result<(), Fail> {
    let unknown = printed(rt.alloc(), &[])?;
    assert_eq!(rt;
        unknown.as_str(),
        "\"t\" (line 1, column 5):unknown parse error\n"
    );
    let empty = printed(rt.alloc(), &[(Expected, ""), (Unexpected, "")])?;
    assert_eq!(rt; empty.as_str(), "\"t\" (line 1, column 5):\n");
    Ok(())
}

#[test]
fn prints_lists(rt: HostRuntime) -> Result<(), Fail> {
    let messages = [
        (Expected, "declaration"),
        (Expected, ""),
        (Expected, "number"),
        (SystemUnexpected, ""),
        (SystemUnexpected, "\"x\""),
        (Expected, "declaration"),
        (Expected, "\"(\""),
        (Plain, "as it is"),
    ];
    assert_eq!(rt;
        printed(rt.alloc(), &messages)?.as_str(),
        "\"t\" (line 1, column 5):\nunexpected end of input\nexpecting declaration, number or \"(\"\nas it is\n"
    );
    Ok(())
}

#[test]
fn merges(rt: HostRuntime) -> Result<(), Fail> {
    let mut error = error_at(rt.alloc(), 4, &[(Expected, "x")])?;
    error.merge(error_at(
        rt.alloc(),
        4,
        &[(Expected, "y"), (Expected, "x"), (Expected, "z")],
    )?)?;
    assert_eq!(rt; error.messages.of_kind(Expected).len(), 3);
    merging_is_associative();
    errors_without_messages_change_nothing();
    repeats_are_not_printed();
    Ok(())
}

#[test]
fn labels(rt: HostRuntime) -> Result<(), Fail> {
    let mut error = error_at(rt.alloc(), 4, &[(Expected, "x"), (Expected, "y")])?;
    error.label(
        AnswerKind::EmptyError,
        String::from_str(rt.alloc(), "name")?,
    );
    assert_eq!(rt; error.messages.of_kind(Expected).len(), 1);
    assert!(rt; !error.messages.is_empty());
    Ok(())
}
