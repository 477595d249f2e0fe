//! What no contract says: which faults are told, and where; and whole files, read and updated.
use super::*;
use std::alloc::Global;
use std::test::Fail;

/// What is read of a file: a line for each case, or the fault.
fn told(alloc: Global, file: &str) -> Result<String, Fail> {
    match read_corpus(alloc, file.as_bytes()) {
        Ok(corpus) => cases_told(alloc, &corpus),
        Err(error) => Ok(format!(in alloc; "{error}")?),
    }
}

fn cases_told(alloc: Global, corpus: &Corpus) -> Result<String, Fail> {
    let mut lines = String::new(alloc);
    for case in &corpus.cases {
        push_case(alloc, &mut lines, case)?;
    }
    Ok(lines)
}

fn push_case(alloc: Global, lines: &mut String, case: &Case) -> Result<(), Fail> {
    let name = text_of(case.name);
    let start = text_of(case.start.unwrap_or(b"-"));
    let text = text_of(case.text);
    let wanted = text_of(case.wanted);
    let line = case.line;
    let told = format!(in alloc; "{line} {name}/{start}/{text}/{wanted};")?;
    lines.push_str(told.as_str())?;
    Ok(())
}

fn text_of(bytes: &[u8]) -> &str {
    match std::str::from_utf8(bytes) {
        Ok(text) => text,
        Err(_) => "?",
    }
}

#[test]
fn reads_cases(rt: HostRuntime) -> Result<(), Fail> {
    let files = [
        ("", ""),
        ("# only\n\n", ""),
        ("=== a\nx\n---\naccepted", "1 a/-/x/accepted;"),
        (
            "\n=== a call [argument]\n---\n# why\n\na\n  b\n\n# next\n=== b\n\n---\nerror\n",
            "2 a call/argument//a\n  b;10 b/-//error;",
        ),
        (
            "==== a[1]\n---\n=== b\n\n----\n[]\n",
            "1 a[1]/-/---\n=== b\n/[];",
        ),
        ("===   [x] y \n#\\\n\n---\n  z\n", "1 [x] y/-/#\\\n/  z;"),
    ];
    for (file, wanted) in files {
        let found = told(rt.alloc(), file)?;
        assert_eq!(rt; found.as_str(), wanted);
    }
    Ok(())
}

#[test]
fn tells_faults(rt: HostRuntime) -> Result<(), Fail> {
    let files = [
        ("# a\nx\n", "2:1: T3 text before the first case"),
        ("=== a\n---\nx\n\ny\n", "5:1: T4 text behind what is wanted"),
        ("=== a\n---\nx\n===\n", "4:4: T5 case without a name"),
        ("===  [x]\n---\nx\n", "1:4: T5 case without a name"),
        ("==== a [\n---\nx\n", "1:5: T6 bad brackets"),
        ("=== a [ ]\n---\nx\n", "1:4: T6 bad brackets"),
        ("=== a\n---\nx\n=== a [b]\n---\nx\n", "4:1: T7 name twice"),
        ("=== a\n----\nx\n", "1:1: T8 text without an end"),
        ("=== a\n---\n# x\n=== b\n", "1:1: T9 nothing wanted"),
    ];
    for (file, wanted) in files {
        let found = told(rt.alloc(), file)?;
        assert_eq!(rt; found.as_str(), wanted);
    }
    let bytes = read_corpus(rt.alloc(), b"# \xc3\xa9\n\xff");
    assert!(rt;
        matches!(bytes, Err(CorpusError::Fault(fault)) if fault.kind == FaultKind::NotUtf8 && fault.position.line == 2)
    );
    Ok(())
}

#[test]
fn updates_files(rt: HostRuntime) -> Result<(), Fail> {
    let file = b"# a\n=== b\nx\n---\n\nerror\n# c\n=== d\n---\ny";
    let corpus = read_corpus(rt.alloc(), file)?;
    let mut wanted = Vec::new(rt.alloc());
    wanted.push(Vec::from_slice(rt.alloc(), b"p\nq")?)?;
    wanted.push(Vec::from_slice(rt.alloc(), b"accepted")?)?;
    assert_eq!(rt; wanted.len(), corpus.cases.len());
    let found = if wanted.len() == corpus.cases.len() {
        updated(rt.alloc(), &corpus, wanted.as_slice())?
    } else {
        Vec::new(rt.alloc())
    };
    assert_eq!(rt;
        text_of(found.as_slice()),
        "# a\n=== b\nx\n---\n\np\nq\n# c\n=== d\n---\naccepted"
    );
    updating_with_the_same();
    Ok(())
}

#[test]
fn tells_apart(rt: HostRuntime) -> Result<(), Fail> {
    assert!(rt; matches!(told_apart(b"accepted"), Wanted::Accepted));
    assert!(rt; matches!(told_apart(b"error\nline 1"), Wanted::Error(lines) if lines.len() == 6));
    assert!(rt; matches!(told_apart(b"errors"), Wanted::Outline(_)));
    assert!(rt; matches!(told_apart(b"[]"), Wanted::Json(_)));
    for (bytes, wanted) in [
        ("a\n  b", true),
        ("", false),
        ("a\n", false),
        ("a\n\nb", false),
        ("a\n#", false),
        ("=== a", false),
    ] {
        assert_eq!(rt; can_be_wanted(bytes.as_bytes()), wanted);
    }
    Ok(())
}
