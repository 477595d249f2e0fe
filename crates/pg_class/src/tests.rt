//! What no contract says: that calls succeed, the printed texts, and joined lists from outside.
use super::*;
use std::test::Fail;

#[test]
fn refuses_descending(rt: HostRuntime) -> Result<(), Fail> {
    let class = Class::from_ranges(rt.alloc(), &[('a', 'z'), ('b', 'a')]);
    assert!(rt; matches!(class, Err(ClassFault::Descends)));
    Ok(())
}

#[test]
fn joins(rt: HostRuntime) -> Result<(), Fail> {
    let empty = Class::from_ranges(rt.alloc(), &[])?;
    assert!(rt; empty.ranges().is_empty());
    let unordered = [('x', 'z'), ('a', 'c'), ('b', 'e'), ('f', 'f'), ('h', 'h')];
    let letters = Class::from_ranges(rt.alloc(), &unordered)?;
    let wanted = [('a', 'f'), ('h', 'h'), ('x', 'z')];
    assert_eq!(rt; letters.ranges(), wanted.as_slice());
    let parted = [('\u{e000}', '\u{10ffff}'), ('\u{0}', '\u{d7ff}')];
    let all = Class::from_ranges(rt.alloc(), &parted)?;
    assert_eq!(rt; all.ranges(), [('\u{0}', '\u{10ffff}')].as_slice());
    Ok(())
}

#[test]
fn has_and_unites(rt: HostRuntime) -> Result<(), Fail> {
    let low = Class::from_ranges(rt.alloc(), &[('a', 'c'), ('g', 'h')])?;
    let high = Class::from_ranges(rt.alloc(), &[('d', 'e'), ('k', 'k')])?;
    for (c, wanted) in [('a', true), ('c', true), ('d', false), ('h', true)] {
        assert_eq!(rt; low.has(c), wanted, "{c}");
    }
    let both = low.union(rt.alloc(), &high)?;
    let wanted = [('a', 'e'), ('g', 'h'), ('k', 'k')];
    assert_eq!(rt; both.ranges(), wanted.as_slice());
    ranges_are_unique();
    Ok(())
}

#[test]
fn complements(rt: HostRuntime) -> Result<(), Fail> {
    let alloc = rt.alloc();
    for (ranges, wanted) in [
        ([].as_slice(), [('\u{0}', '\u{10ffff}')].as_slice()),
        ([('\u{0}', '\u{10ffff}')].as_slice(), [].as_slice()),
        (
            [('a', 'z')].as_slice(),
            [('\u{0}', '`'), ('{', '\u{10ffff}')].as_slice(),
        ),
        (
            [('\u{0}', '\u{d7ff}')].as_slice(),
            [('\u{e000}', '\u{10ffff}')].as_slice(),
        ),
        (
            [('\u{e000}', '\u{10ffff}')].as_slice(),
            [('\u{0}', '\u{d7ff}')].as_slice(),
        ),
        (
            [
                ('\u{0}', '\u{0}'),
                ('\u{d7fe}', '\u{d7fe}'),
                ('\u{e001}', '\u{10fffe}'),
            ]
            .as_slice(),
            [
                ('\u{1}', '\u{d7fd}'),
                ('\u{d7ff}', '\u{e000}'),
                ('\u{10ffff}', '\u{10ffff}'),
            ]
            .as_slice(),
        ),
    ] {
        let class = Class::from_ranges(alloc, ranges)?;
        let others = class.complement(alloc)?;
        assert_eq!(rt; others.ranges(), wanted);
        assert!(rt; others.complement(alloc)?.equals(&class));
    }
    Ok(())
}

#[test]
fn shares_and_compares(rt: HostRuntime) -> Result<(), Fail> {
    let alloc = rt.alloc();
    let letters = Class::from_ranges(alloc, &[('a', 'f'), ('A', 'F')])?;
    assert!(rt; letters.share()?.equals(&letters));
    for ranges in [
        [].as_slice(),
        [('a', 'f')].as_slice(),
        [('A', 'F'), ('a', 'g')].as_slice(),
        [('A', 'F'), ('a', 'f'), ('h', 'h')].as_slice(),
    ] {
        assert!(rt; !letters.equals(&Class::from_ranges(alloc, ranges)?));
    }
    Ok(())
}

#[test]
fn compares_characters(rt: HostRuntime) -> Result<(), Fail> {
    let alloc = rt.alloc();
    let letters = Class::from_ranges(alloc, &[('a', 'f'), ('k', 'z')])?;
    let vowels = Class::from_ranges(alloc, &[('a', 'a'), ('e', 'e'), ('o', 'o')])?;
    let digits = Class::from_ranges(alloc, &[('0', '9'), ('g', 'j')])?;
    assert!(rt; letters.disjoint(&digits));
    assert!(rt; !letters.disjoint(&vowels));
    assert!(rt; vowels.within(&letters));
    assert!(rt; !letters.within(&vowels));
    assert!(rt; !letters.within(&letters.complement(alloc)?));
    Ok(())
}

#[test]
fn prints(rt: HostRuntime) -> Result<(), Fail> {
    for (fault, wanted) in [
        (ClassFault::Descends, "K1 range descends"),
        (ClassFault::Memory, "out of memory"),
    ] {
        assert_eq!(rt; format!(in rt.alloc(); "{fault}")?.as_str(), wanted);
    }
    Ok(())
}
