//! Numbers, sets and membership that are worked out by hand: steps of runs and their bounds, the sets of small grammars, and which characters a class has.

use crate::tests::{CALCULATOR, calculator, done_of, doublings};
use pg_bench_grammar::{accepted_of, sets_bytes};
use pg_class::Class;
use pg_pred::{Predicate, Registry};
use pg_tree::Meter;
use std::alloc::Global;
use std::test::Fail;

/// The page of a grammar's sets.
fn page_of(alloc: Global, grammar: &[u8]) -> Result<Vec<u8>, Fail> {
    let registry = calculator(alloc)?;
    let mut writer = Meter::new(Vec::<u8>::new(alloc));
    match sets_bytes(alloc, grammar, &registry, &mut writer) {
        Ok(()) => Ok(writer.into_inner()),
        Err(_) => Err(Fail::new("no sets")),
    }
}

/// The cost of a tower of n rules, each of which runs the one below twice, is 8 (n + 3) 2^n.
#[test]
fn keeps_within_bounds(rt: HostRuntime) -> Result<(), Fail> {
    let alloc = rt.alloc();
    let registry = calculator(alloc)?;
    let tower = doublings(alloc, 10)?;
    let done = done_of(alloc, tower.as_bytes(), &registry, "x")?;
    assert_eq!(rt; done.cost, 106_496);
    assert!(rt; done.steps <= 212_992);
    let mut text = String::new(alloc);
    for _ in 0..2_000 {
        text.push('(')?;
    }
    text.push('1')?;
    for _ in 0..2_000 {
        text.push(')')?;
    }
    let deep = done_of(alloc, CALCULATOR.as_bytes(), &registry, text.as_str())?;
    assert_eq!(rt; deep.cost, 640_098);
    assert!(rt; deep.steps <= 2_561_672_196);
    Ok(())
}

/// Rule `a` can be empty, so the end can follow `b`; what a round of `b` can begin with can follow its part.
#[test]
fn writes_what_can_begin_and_follow(rt: HostRuntime) -> Result<(), Fail> {
    let page = page_of(
        rt.alloc(),
        b"start a; a = seq(b, option(string(\"x\"))); b = many(satisfy(digit));",
    )?;
    let wanted = "a: heads [b], rank 1\n  \
        1 seq: nullable, first [class U+0030-U+0039; class U+0078], follow [end]\n  \
        2 rule: nullable, first [class U+0030-U+0039], follow [class U+0078; end]\n  \
        3 choice: nullable, first [class U+0078], follow [end]\n  \
        4 string: not nullable, first [class U+0078], follow [end]\n  \
        5 seq: nullable, first [], follow [end]\n\
        b: heads [], rank 0\n  \
        1 many: nullable, first [class U+0030-U+0039], follow [class U+0078; end]\n  \
        2 satisfy: not nullable, first [class U+0030-U+0039], follow [class U+0030-U+0039; class U+0078; end]\n";
    assert_eq!(rt; page.as_slice(), wanted.as_bytes());
    Ok(())
}

/// A rule that comes to itself before anything is read has no rank. The one whose blanks are read first has one.
#[test]
fn writes_no_rank_on_a_ring(rt: HostRuntime) -> Result<(), Fail> {
    let page = page_of(
        rt.alloc(),
        b"start a; a = seq(ws, a, string(\"x\")); ws = many(satisfy(\" \"));",
    )?;
    let wanted = "a: heads [a; ws], rank none\n  \
        1 seq: not nullable, first [class U+0020], follow [class U+0078; end]\n  \
        2 rule: nullable, first [class U+0020], follow [class U+0020]\n  \
        3 rule: not nullable, first [class U+0020], follow [class U+0078]\n  \
        4 string: not nullable, first [class U+0078], follow [class U+0078; end]\n\
        ws: heads [], rank 0\n  \
        1 many: nullable, first [class U+0020], follow [class U+0020]\n  \
        2 satisfy: not nullable, first [class U+0020], follow [class U+0020]\n";
    assert_eq!(rt; page.as_slice(), wanted.as_bytes());
    Ok(())
}

/// Two registries that fit, with functions of their own for the same class, and the class that the grammar keeps.
#[test]
fn tells_which_characters_a_class_has(rt: HostRuntime) -> Result<(), Fail> {
    let alloc = rt.alloc();
    let registry = calculator(alloc)?;
    let test = Box::new(
        alloc,
        |c: char| matches!(c, '0' | '1' | '2' | '3' | '4' | '5' | '6' | '7' | '8' | '9'),
    )?;
    let class = Class::from_ranges(alloc, &[('0', '9')])?;
    let digit = Predicate::new(String::from_str(alloc, "digit")?, class, test);
    let other = Registry::new(vec![in alloc; digit]?, Vec::new(alloc))?;
    let file = b"class c = digit; class d = not (c | \"x\"); start a; a = satisfy(d);";
    let Ok(accepted) = accepted_of(alloc, file, &registry) else {
        return Err(Fail::new("not accepted"));
    };
    let grammar = accepted.checked.as_checked().grammar();
    assert!(rt; grammar.fits(&registry) && grammar.fits(&other));
    let (Some(digits), Some(others)) = (grammar.class_items().first(), grammar.class_items().last())
    else {
        return Err(Fail::new("no classes"));
    };
    for (c, is_digit, is_other) in [
        ('0', true, false),
        ('9', true, false),
        ('x', false, false),
        (':', false, true),
        ('é', false, true),
    ] {
        for registry in [&registry, &other] {
            assert_eq!(rt; grammar.test(registry, &digits.class, c), is_digit, "{c}");
            assert_eq!(rt; grammar.test(registry, &others.class, c), is_other, "{c}");
        }
        assert_eq!(rt; grammar.has(&digits.class, c), is_digit, "{c}");
        assert_eq!(rt; grammar.has(&others.class, c), is_other, "{c}");
    }
    Ok(())
}
