//! Tests of the reports of faults.

use super::*;
use pg_file::{FaultKind, FileFault};
use pg_message::{MessageKind, ParseError};
use pg_text::Pos;
use std::test::Fail;

/// The report of a fault in a run over files with these names.
fn written(alloc: Global, fault: &BenchFault, grammar: &str, text: &str) -> Result<Vec<u8>, Fail> {
    let mut writer = Meter::new(Vec::<u8>::new(alloc));
    let names = Names {
        grammar,
        text,
        trail: "trail",
    };
    write_report(alloc, fault, names, &mut writer)?;
    Ok(writer.into_inner())
}

#[test]
fn names_the_place_in_the_grammar_file(rt: HostRuntime) -> Result<(), Fail> {
    let position = Pos {
        line: 3,
        column: 14,
    };
    let kind = FaultKind::NameTwice;
    let fault = BenchFault::File(FileFault { kind, position });
    let told = written(rt.alloc(), &fault, "g.pgw", "t")?;
    let wanted = b"g.pgw:3:14: F5 name defined twice\n";
    assert_eq!(rt; told.as_slice(), wanted.as_slice());
    assert_eq!(rt; status(&fault), 2);
    Ok(())
}

#[test]
fn names_the_text_where_it_is_at_fault(rt: HostRuntime) -> Result<(), Fail> {
    let told = written(rt.alloc(), &BenchFault::Reader, "g", "dir/t")?;
    assert_eq!(rt; told.as_slice(), b"dir/t: X1 cannot read\n".as_slice());
    Ok(())
}

#[test]
fn names_the_trail_that_is_none(rt: HostRuntime) -> Result<(), Fail> {
    let told = written(rt.alloc(), &BenchFault::NotATrail, "g", "t")?;
    assert_eq!(rt; told.as_slice(), b"trail: not a trail\n".as_slice());
    assert_eq!(rt; status(&BenchFault::NotATrail), 2);
    Ok(())
}

#[test]
fn prints_an_error_as_parsec_does(rt: HostRuntime) -> Result<(), Fail> {
    let position = Pos { line: 1, column: 3 };
    let mut error = ParseError::new(rt.alloc(), 2, position);
    error.add(MessageKind::SystemUnexpected, String::new(rt.alloc()))?;
    error.add(
        MessageKind::Expected,
        String::from_str(rt.alloc(), "digit")?,
    )?;
    let fault = BenchFault::ParseError(error);
    let told = written(rt.alloc(), &fault, "g", "t")?;
    let wanted = b"\"t\" (line 1, column 3):\nunexpected end of input\nexpecting digit\n";
    assert_eq!(rt; told.as_slice(), wanted.as_slice());
    assert_eq!(rt; status(&fault), 1);
    Ok(())
}
