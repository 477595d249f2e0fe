//! Runs from bytes to bytes, with readers and writers that are slow or fail, and with registries of their own. The step costs and what stands in trails
//! are worked out by hand.

ghost use Rattle.std.specs.Prelude.{◌≡◌, false};

use crate::done::Done;
use crate::parse::parse_bytes;
use crate::probe::probe_bytes;
use crate::replay::replay_bytes;
use pg_bench_grammar::{BenchFault, accepted_of, check_bytes, print_bytes};
use pg_class::Class;
use pg_language::Reading;
use pg_pred::{Builder, Predicate, Registry};
use pg_tree::{Forest, Meter, Shape, Tree};
use std::alloc::{AllocError, Global};
use std::io;
use std::io::{ErrorKind, Read, Write};
use std::test::Fail;

/// Whether memory ran out.
pub(crate) fn is_memory(fault: &BenchFault) -> bool {
    matches!(fault, BenchFault::Memory)
}

const GRAMMAR: &[u8] =
    b"start a; d = satisfy(\"0\"..\"9\"); a = seq(string(\"(\"), choice(d, string(\"x\")), string(\")\"));";

const FOREST: &[u8] = b"[\"(\",\"7\",\")\"]\n";

/// A calculator whose texts declare operators.
pub(crate) const CALCULATOR: &str = "operators \"+-*/<>=!\" gap \" \" reserved \"=\"; \
    table infixl 6 \"+\"; table infixl 6 \"-\"; table infixl 7 \"*\"; table prefix 8 \"-\"; \
    table postfix 9 \"!\"; table infixr 5 \">>\"; table infix 4 \"<\"; start main; \
    main = seq(many(seq(declare(letter), skip(string(\";\")), ws)), sum); sum = expr(node, node, node, term); \
    term = seq(choice(number, between(string(\"(\"), string(\")\"), sum)), ws); \
    number = build(node, \"num\", text(label(many1(satisfy(digit)), \"number\"))); ws = skip(many(satisfy(\" \")));";

/// The forest of `1+2*3`.
pub(crate) const SUM_FOREST: &str = "[{\"kids\":[{\"kids\":[\"1\"],\"node\":\"num\"},\
    {\"kids\":[{\"kids\":[\"2\"],\"node\":\"num\"},{\"kids\":[\"3\"],\"node\":\"num\"}],\"node\":\"*\"}],\"node\":\"+\"}]\n";

/// Gives the bytes of a text one at a time, and answers an error at one of its calls.
#[derive(Drop)]
pub(crate) struct Drips<'a> {
    pub(crate) left: &'a [u8],
    pub(crate) calls: usize,
    pub(crate) fails_at: usize,
}

impl Read for Drips<'_> {
    fn read(&mut self, buf: &mut [u8]) -> io::Result<usize> {
        self.calls = self.calls.saturating_add(1);
        if self.calls == self.fails_at {
            return Err(io::Error::from(ErrorKind::Other));
        }
        match (self.left, buf.first_mut()) {
            ([first, rest @ ..], Some(place)) => {
                *place = *first;
                self.left = rest;
                Ok(1)
            }
            _ => Ok(0),
        }
    }
}

/// Accepts one byte at a time. After a number of bytes it answers an error, or accepts nothing.
#[derive(Drop)]
pub(crate) struct Narrow {
    pub(crate) taken: [u8; 160],
    pub(crate) count: usize,
    pub(crate) most: usize,
    pub(crate) errs: bool,
}

impl Write for Narrow {
    fn write(&mut self, buf: &[u8]) -> io::Result<usize> {
        match (self.taken.get_mut(self.count), buf.first()) {
            (Some(place), Some(byte)) if self.count < self.most => {
                *place = *byte;
                self.count += 1;
                Ok(1)
            }
            _ if self.errs => Err(io::Error::from(ErrorKind::Other)),
            _ => Ok(0),
        }
    }

    fn flush(&mut self) -> io::Result<()> {
        Ok(())
    }
}

/// The outcome of a run with an empty registry. Running out of memory ends the test, so what is asserted is another answer.
fn parsed<R: Read, W: Write>(
    alloc: Global,
    grammar: &[u8],
    reader: &mut Meter<R>,
    writer: &mut Meter<W>,
) -> Result<Result<(), BenchFault>, AllocError>
    requires reader { reader.old.failed ≡ false }
    requires writer { writer.old.failed ≡ false }
{
    let Ok(registry) = Registry::new(Vec::new(alloc), Vec::new(alloc)) else {
        unreachable!()
    };
    match parse_bytes(alloc, grammar, &registry, reader, writer, false) {
        Err(fault) if is_memory(&fault) => Err(AllocError),
        Ok(_) => Ok(Ok(())),
        Err(fault) => Ok(Err(fault)),
    }
}

/// The outcome of a run with a registry. Running out of memory ends the test, so what is asserted is another answer.
fn parsed_by<R: Read, W: Write>(
    alloc: Global,
    grammar: &[u8],
    registry: &Registry,
    reader: &mut Meter<R>,
    writer: &mut Meter<W>,
) -> Result<Result<Done, BenchFault>, AllocError>
    requires reader { reader.old.failed ≡ false }
    requires writer { writer.old.failed ≡ false }
{
    match parse_bytes(alloc, grammar, registry, reader, writer, false) {
        Err(fault) if is_memory(&fault) => Err(AllocError),
        Ok(done) => Ok(Ok(done)),
        Err(fault) => Ok(Err(fault)),
    }
}

/// The registry with what the calculator names: letters and digits of ASCII, and a builder of nodes.
pub(crate) fn calculator(alloc: Global) -> Result<Registry, Fail> {
    let test = Box::new(alloc, |c: char| 'a' <= c && c <= 'z')?;
    let class = Class::from_ranges(alloc, &[('a', 'z')])?;
    let letter = Predicate::new(String::from_str(alloc, "letter")?, class, test);
    let test = Box::new(alloc, |c: char| '0' <= c && c <= '9')?;
    let class = Class::from_ranges(alloc, &[('0', '9')])?;
    let digit = Predicate::new(String::from_str(alloc, "digit")?, class, test);
    let make = Box::new(
        alloc,
        |alloc: Global, symbol: &str, kids: Forest| Tree::node(alloc, symbol, kids),
    )?;
    let node = Builder::new(String::from_str(alloc, "node")?, Shape::Symbol, make);
    Ok(Registry::new(vec![in alloc; letter, digit]?, vec![in alloc; node]?)?)
}

/// The step cost of the grammar that a file spells, which is accepted.
fn cost_of(alloc: Global, grammar: &[u8], registry: &Registry) -> Result<u64, Fail> {
    let Ok(accepted) = accepted_of(alloc, grammar, registry) else {
        return Err(Fail::new("not accepted"));
    };
    Ok(accepted.checked.as_checked().cost())
}

/// How many steps the parse of a text took, and the bound on them. The text is derived.
pub(crate) fn done_of(
    alloc: Global,
    grammar: &[u8],
    registry: &Registry,
    text: &str,
) -> Result<Done, Fail> {
    let mut reader = Meter::new(text.as_bytes());
    let mut writer = Meter::new(Vec::<u8>::new(alloc));
    let Ok(done) = parsed_by(alloc, grammar, registry, &mut reader, &mut writer)? else {
        return Err(Fail::new("no parse"));
    };
    Ok(done)
}

/// A grammar in which each of so many rules runs the one below twice, and an `x` stands behind them.
pub(crate) fn doublings(alloc: Global, count: usize) -> Result<String, Fail> {
    let mut text = format!(in alloc; "start a; a = seq(e{count}, satisfy(\"x\")); e0 = seq();")?;
    for below in 0..count {
        let rule = below.saturating_add(1);
        text = format!(in alloc; "{text} e{rule} = seq(e{below}, e{below});")?;
    }
    Ok(text)
}

/// The outcome of a run whose reader answers an error at its first call, how often the reader was asked, and what was written.
fn asked(
    alloc: Global,
    grammar: &[u8],
) -> Result<(Result<(), BenchFault>, usize, Vec<u8>), AllocError> {
    let mut reader = Meter::new(Drips {
        left: b"(7)".as_slice(),
        calls: 0,
        fails_at: 1,
    });
    let mut writer = Meter::new(Vec::<u8>::new(alloc));
    let outcome = parsed(alloc, grammar, &mut reader, &mut writer)?;
    Ok((outcome, reader.into_inner().calls, writer.into_inner()))
}

#[test]
fn writes_the_forest_of_a_text(rt: HostRuntime) -> Result<(), Fail> {
    let mut reader = Meter::new(b"(7)".as_slice());
    let mut writer = Meter::new(Vec::<u8>::new(rt.alloc()));
    let outcome = parsed(rt.alloc(), GRAMMAR, &mut reader, &mut writer)?;
    assert!(rt; outcome.is_ok());
    assert!(rt; writer.into_inner().as_slice() == FOREST);
    Ok(())
}

/// The trail of the text is written after its forest, and leads to the forest again.
#[test]
fn replays_the_trail_of_a_parse(rt: HostRuntime) -> Result<(), Fail> {
    let alloc = rt.alloc();
    let registry = Registry::new(Vec::new(alloc), Vec::new(alloc))?;
    let mut reader = Meter::new(b"(7)".as_slice());
    let mut writer = Meter::new(Vec::<u8>::new(alloc));
    let parsed = parse_bytes(alloc, GRAMMAR, &registry, &mut reader, &mut writer, true);
    assert!(rt; parsed.is_ok());
    let written = writer.into_inner();
    let (forest, trail) = written.as_slice().split_at(FOREST.len());
    assert!(rt; forest == FOREST);
    let mut again = Meter::new(b"(7)".as_slice());
    let mut page = Meter::new(Vec::<u8>::new(alloc));
    let replayed = replay_bytes(alloc, GRAMMAR, &registry, "t", &mut again, trail, &mut page);
    assert!(rt; matches!(replayed, Ok(true)));
    assert!(rt; page.into_inner().as_slice() == FOREST);
    Ok(())
}

#[test]
fn does_not_ask_the_reader_where_the_file_is_at_fault(rt: HostRuntime) -> Result<(), Fail> {
    let (outcome, calls, written) = asked(rt.alloc(), b"start a;")?;
    assert!(rt; matches!(&outcome, Err(BenchFault::File(_))));
    assert_eq!(rt; calls, 0);
    assert!(rt; written.is_empty());
    Ok(())
}

#[test]
fn does_not_ask_the_reader_where_an_operand_can_be_empty(rt: HostRuntime) -> Result<(), Fail> {
    let alloc = rt.alloc();
    let make = Box::new(
        alloc,
        |alloc: Global, symbol: &str, kids: Forest| Tree::node(alloc, symbol, kids),
    )?;
    let pair = Builder::new(String::from_str(alloc, "pair")?, Shape::Symbol, make);
    let registry = Registry::new(Vec::new(alloc), vec![in alloc; pair]?)?;
    let grammar = b"operators \"+\" gap \" \"; start a; a = expr(pair, pair, pair, eof);";
    let mut reader = Meter::new(Drips {
        left: b"(7)".as_slice(),
        calls: 0,
        fails_at: 1,
    });
    let mut writer = Meter::new(Vec::<u8>::new(alloc));
    match parse_bytes(alloc, grammar, &registry, &mut reader, &mut writer, false) {
        Err(fault) if is_memory(&fault) => Err(AllocError)?,
        outcome => assert!(rt; matches!(&outcome, Err(BenchFault::Refused(_)))),
    }
    assert_eq!(rt; reader.into_inner().calls, 0);
    assert!(rt; writer.into_inner().is_empty());
    Ok(())
}

#[test]
fn does_not_ask_the_reader_where_the_grammar_is_refused(rt: HostRuntime) -> Result<(), Fail> {
    let grammar = b"start a; a = choice(string(\"let\"), string(\"lambda\"));";
    let (outcome, calls, written) = asked(rt.alloc(), grammar)?;
    let Err(BenchFault::Refused(refused)) = &outcome else {
        return Err(Fail::new("no findings"));
    };
    let mut lines = Meter::new(Vec::<u8>::new(rt.alloc()));
    refused.write_findings(rt.alloc(), &mut lines)?;
    let wanted = b"a:1: C4 alternatives 1 and 2 meet at class U+006C and class U+006C\n";
    assert_eq!(rt; lines.into_inner().as_slice(), wanted.as_slice());
    assert_eq!(rt; calls, 0);
    assert!(rt; written.is_empty());
    Ok(())
}

#[test]
fn writes_nothing_where_the_text_does_not_parse(rt: HostRuntime) -> Result<(), Fail> {
    for (text, place) in [("(7", 2), ("(7))", 3), ("(y)", 1), ("", 0)] {
        let mut reader = Meter::new(text.as_bytes());
        let mut writer = Meter::new(Vec::<u8>::new(rt.alloc()));
        let outcome = parsed(rt.alloc(), GRAMMAR, &mut reader, &mut writer)?;
        let Err(BenchFault::ParseError(error)) = &outcome else {
            return Err(Fail::new("no parse error"));
        };
        assert_eq!(rt; error.place, place);
        assert!(rt; writer.into_inner().is_empty());
    }
    Ok(())
}

#[test]
fn writes_nothing_where_the_reader_fails(rt: HostRuntime) -> Result<(), Fail> {
    let registry = calculator(rt.alloc())?;
    let grammar = CALCULATOR.as_bytes();
    for fails_at in 1..8 {
        let mut reader = Meter::new(Drips {
            left: b"1+2*3".as_slice(),
            calls: 0,
            fails_at,
        });
        let mut writer = Meter::new(Vec::<u8>::new(rt.alloc()));
        let outcome = parsed_by(rt.alloc(), grammar, &registry, &mut reader, &mut writer)?;
        let written = writer.into_inner();
        if fails_at < 7 {
            assert!(rt;
                matches!(&outcome, Err(BenchFault::Reader)),
                "at call {fails_at}"
            );
            assert!(rt; written.is_empty(), "at call {fails_at}");
        } else {
            assert!(rt; outcome.is_ok());
            assert!(rt; written.as_slice() == SUM_FOREST.as_bytes());
        }
    }
    Ok(())
}

#[test]
fn writes_a_prefix_where_the_writer_fails(rt: HostRuntime) -> Result<(), Fail> {
    let registry = calculator(rt.alloc())?;
    let grammar = CALCULATOR.as_bytes();
    for most in 0..132 {
        for errs in [false, true] {
            let mut reader = Meter::new(b"1+2*3".as_slice());
            let mut writer = Meter::new(Narrow {
                taken: [0; 160],
                count: 0,
                most,
                errs,
            });
            let outcome = parsed_by(rt.alloc(), grammar, &registry, &mut reader, &mut writer)?;
            if most < 130 {
                assert!(rt; matches!(&outcome, Err(BenchFault::Writer)), "after {most}");
            } else {
                assert!(rt; outcome.is_ok());
            }
            let narrow = writer.into_inner();
            assert_eq!(rt; narrow.count, most.min(130));
            let same = narrow
                .taken
                .iter()
                .zip(SUM_FOREST.as_bytes())
                .take(most)
                .all(|(a, b)| a == b);
            assert!(rt; same, "after {most}");
        }
    }
    Ok(())
}

#[test]
fn parses_by_the_predicates_and_builders(rt: HostRuntime) -> Result<(), Fail> {
    let alloc = rt.alloc();
    let test = Box::new(alloc, |c: char| c == 'é' || c == 'x')?;
    let class = Class::from_ranges(alloc, &[('é', 'é'), ('x', 'x')])?;
    let either = Predicate::new(String::from_str(alloc, "either")?, class, test);
    let make = Box::new(
        alloc,
        |alloc: Global, symbol: &str, kids: Forest| Tree::node(alloc, symbol, kids),
    )?;
    let pair = Builder::new(String::from_str(alloc, "pair")?, Shape::Symbol, make);
    let registry = Registry::new(vec![in alloc; either]?, vec![in alloc; pair]?)?;
    let grammar = b"start a; a = build(pair, \"p\", seq(satisfy(either), satisfy(not either)));";
    let mut reader = Meter::new(b"\xc3\xa9y".as_slice());
    let mut writer = Meter::new(Vec::<u8>::new(alloc));
    match parse_bytes(alloc, grammar, &registry, &mut reader, &mut writer, false) {
        Err(fault) if is_memory(&fault) => Err(AllocError)?,
        outcome => assert!(rt; outcome.is_ok()),
    }
    let wanted = b"[{\"kids\":[\"\xc3\xa9\",\"y\"],\"node\":\"p\"}]\n".as_slice();
    assert!(rt; writer.into_inner().as_slice() == wanted);
    Ok(())
}

/// A registry with a single builder, whose function always fails. It joins, so a run makes its trees by the shape.
fn joining(alloc: Global) -> Result<Registry, Fail> {
    let make = Box::new(
        alloc,
        |_: Global, _: &str, _: Forest| -> Result<Tree, AllocError> { Err(AllocError) },
    )?;
    let never = Builder::new(String::from_str(alloc, "never")?, Shape::Join, make);
    Ok(Registry::new(Vec::new(alloc), vec![in alloc; never]?)?)
}

#[test]
fn makes_trees_without_a_call_of_their_builder(rt: HostRuntime) -> Result<(), Fail> {
    let alloc = rt.alloc();
    let registry = joining(alloc)?;
    let grammar = b"start a; a = build(never, seq(string(\"x\"), string(\"y\")));";
    let mut reader = Meter::new(b"xy".as_slice());
    let mut writer = Meter::new(Vec::<u8>::new(alloc));
    let outcome = parse_bytes(alloc, grammar, &registry, &mut reader, &mut writer, false);
    assert!(rt; outcome.is_ok());
    assert!(rt; writer.into_inner().as_slice() == b"[\"xy\"]\n".as_slice());
    Ok(())
}

#[test]
fn applies_operators_without_a_call_of_their_builder(rt: HostRuntime) -> Result<(), Fail> {
    let alloc = rt.alloc();
    let registry = joining(alloc)?;
    let grammar =
        b"operators \"+!\" gap \" \"; table infixl 6 \"+\"; table postfix 9 \"!\"; start a; a = expr(never, never, never, satisfy(\"1\"));";
    let mut reader = Meter::new(b"1+ 1!".as_slice());
    let mut writer = Meter::new(Vec::<u8>::new(alloc));
    let outcome = probe_bytes(
        alloc,
        grammar,
        &registry,
        "t",
        &mut reader,
        &mut writer,
        1000,
        Reading::Library,
    );
    assert!(rt; matches!(outcome, Ok(true)));
    let wanted = b"consumed ok\nplace 5\n[\"11\"]\n".as_slice();
    assert!(rt; writer.into_inner().as_slice() == wanted);
    Ok(())
}

#[test]
fn prints_the_canonical_form(rt: HostRuntime) -> Result<(), Fail> {
    let alloc = rt.alloc();
    let registry = Registry::new(Vec::new(alloc), Vec::new(alloc))?;
    let mut writer = Meter::new(Vec::<u8>::new(alloc));
    match print_bytes(alloc, b"a = many1(eof); start a;", &registry, &mut writer) {
        Err(fault) if is_memory(&fault) => Err(AllocError)?,
        outcome => assert!(rt; outcome.is_ok()),
    }
    let wanted = b"start a;\na = seq(eof, many(eof));\n".as_slice();
    assert!(rt; writer.into_inner().as_slice() == wanted);
    Ok(())
}

#[test]
fn parses_by_operators_of_the_table_and_of_the_text(rt: HostRuntime) -> Result<(), Fail> {
    let alloc = rt.alloc();
    let registry = calculator(alloc)?;
    let declared = "[{\"kids\":[\"infixl\",\"7\",\"<+>\"],\"node\":\"declare\"},\
        {\"kids\":[{\"kids\":[{\"kids\":[\"1\"],\"node\":\"num\"},{\"kids\":[\"2\"],\"node\":\"num\"}],\"node\":\"<+>\"},\
        {\"kids\":[\"3\"],\"node\":\"num\"}],\"node\":\"+\"}]\n";
    for (text, wanted) in [("1+2*3", SUM_FOREST), ("infixl 7 <+>; 1 <+> 2+3", declared)] {
        let mut reader = Meter::new(text.as_bytes());
        let mut writer = Meter::new(Vec::<u8>::new(alloc));
        let outcome = parsed_by(
            alloc,
            CALCULATOR.as_bytes(),
            &registry,
            &mut reader,
            &mut writer,
        )?;
        assert!(rt; outcome.is_ok(), "{text}");
        assert!(rt;
            writer.into_inner().as_slice() == wanted.as_bytes(),
            "{text}"
        );
    }
    let mut reader = Meter::new(b"".as_slice());
    let mut writer = Meter::new(Vec::<u8>::new(alloc));
    let outcome = parsed_by(
        alloc,
        CALCULATOR.as_bytes(),
        &registry,
        &mut reader,
        &mut writer,
    )?;
    let Err(BenchFault::ParseError(error)) = &outcome else {
        return Err(Fail::new("no parse error"));
    };
    assert_eq!(rt; error.place, 0);
    assert!(rt; writer.into_inner().is_empty());
    Ok(())
}

#[test]
fn tells_the_step_cost(rt: HostRuntime) -> Result<(), Fail> {
    let alloc = rt.alloc();
    let registry = calculator(alloc)?;
    let digits = b"start a; a = text(many(satisfy(digit)));";
    assert_eq!(rt; cost_of(alloc, digits, &registry)?, 6_000);
    assert_eq!(rt; cost_of(alloc, GRAMMAR, &registry)?, 6_000);
    assert_eq!(rt; cost_of(alloc, CALCULATOR.as_bytes(), &registry)?, 640_098);
    for (count, cost) in [(20, 192_937_984), (24, 3_623_878_656)] {
        let grammar = doublings(alloc, count)?;
        assert_eq!(rt;
            cost_of(alloc, grammar.as_bytes(), &registry)?,
            cost,
            "{count}"
        );
    }
    Ok(())
}

#[test]
fn keeps_within_the_step_cost(rt: HostRuntime) -> Result<(), Fail> {
    let alloc = rt.alloc();
    let registry = calculator(alloc)?;
    let grammar = CALCULATOR.as_bytes();
    let sum = done_of(alloc, grammar, &registry, "1+2*3")?;
    assert_eq!(rt; sum.cost, 640_098);
    assert!(rt; sum.steps <= 3_840_588);
    let mut text = String::new(alloc);
    for _ in 0..200 {
        text.push('(')?;
    }
    text.push('1')?;
    for _ in 0..200 {
        text.push(')')?;
    }
    let deep = done_of(alloc, grammar, &registry, text.as_str())?;
    assert!(rt; deep.steps <= 257_319_396);
    Ok(())
}

#[test]
fn tells_whether_a_registry_fits(rt: HostRuntime) -> Result<(), Fail> {
    let alloc = rt.alloc();
    let registry = calculator(alloc)?;
    let test = Box::new(alloc, |c: char| c == '0')?;
    let class = Class::from_ranges(alloc, &[('0', '0')])?;
    let zero = Predicate::new(String::from_str(alloc, "digit")?, class, test);
    let other = Registry::new(vec![in alloc; zero]?, Vec::new(alloc))?;
    let Ok(accepted) = accepted_of(alloc, b"start a; a = satisfy(digit);", &registry) else {
        return Err(Fail::new("not accepted"));
    };
    assert!(rt; accepted.checked.as_checked().grammar().fits(&registry));
    assert!(rt; !accepted.checked.as_checked().grammar().fits(&other));
    Ok(())
}

#[test]
fn replays_a_trail_or_tells_where_it_stops(rt: HostRuntime) -> Result<(), Fail> {
    let alloc = rt.alloc();
    let registry = calculator(alloc)?;
    let rest =
        "{\"ops\":[[\"infix\",\"+\"],[\"infix\",\"*\"]]},{\"alt\":1},{\"rounds\":0},{\"rounds\":0},\
        {\"alt\":1},{\"rounds\":0},{\"rounds\":0},{\"alt\":1},{\"rounds\":0},{\"rounds\":0}";
    for (text, first, more, wanted) in [
        ("1+2*3", "{\"rounds\":0}", "", SUM_FOREST),
        (
            "1+2*3",
            "{\"rounds\":1}",
            "",
            "t:1:1: Y2 text doesn't fit, item 2 of 11\n",
        ),
        (
            "1+2*3",
            "{\"alt\":1}",
            "",
            "t:1:1: Y1 item doesn't fit, item 1 of 11\n",
        ),
        (
            "1+2*3",
            "{\"rounds\":0}",
            ",{\"alt\":1}",
            "t:1:6: Y3 text or items left over, item 12 of 12\n",
        ),
        (
            "infixl 6 =; 1",
            "{\"rounds\":1}",
            "",
            "t:1:1: Y4 declaration not admitted, item 2 of 11\n",
        ),
    ] {
        let trail = format!(in alloc; "[{first},{rest}{more}]")?;
        let mut reader = Meter::new(text.as_bytes());
        let mut page = Meter::new(Vec::<u8>::new(alloc));
        let replayed = replay_bytes(
            alloc,
            CALCULATOR.as_bytes(),
            &registry,
            "t",
            &mut reader,
            trail.as_bytes(),
            &mut page,
        );
        match replayed {
            Err(fault) if is_memory(&fault) => Err(AllocError)?,
            outcome => assert!(rt; matches!(outcome, Ok(_)), "{wanted}"),
        }
        assert!(rt;
            page.into_inner().as_slice() == wanted.as_bytes(),
            "{wanted}"
        );
    }
    Ok(())
}

#[test]
fn probes_a_grammar_that_is_refused(rt: HostRuntime) -> Result<(), Fail> {
    let alloc = rt.alloc();
    let registry = Registry::new(Vec::new(alloc), Vec::new(alloc))?;
    let grammar = b"start a; a = choice(option(satisfy(\"x\")), satisfy(\"y\"));";
    let mut reader = Meter::new(b"y".as_slice());
    let mut writer = Meter::new(Vec::<u8>::new(alloc));
    let outcome = probe_bytes(
        alloc,
        grammar,
        &registry,
        "t",
        &mut reader,
        &mut writer,
        1000,
        Reading::Library,
    );
    match outcome {
        Err(fault) if is_memory(&fault) => Err(AllocError)?,
        outcome => assert!(rt; matches!(outcome, Ok(true))),
    }
    let wanted = b"empty ok\nplace 0\n[]\n".as_slice();
    assert!(rt; writer.into_inner().as_slice() == wanted);
    Ok(())
}

#[test]
fn writes_the_certificate(rt: HostRuntime) -> Result<(), Fail> {
    let alloc = rt.alloc();
    let registry = calculator(alloc)?;
    let grammar = b"start a; a = text(many(satisfy(digit)));";
    let mut writer = Meter::new(Vec::<u8>::new(alloc));
    match check_bytes(alloc, grammar, &registry, &mut writer, true) {
        Err(fault) if is_memory(&fault) => Err(AllocError)?,
        outcome => assert!(rt; matches!(outcome, Ok(true))),
    }
    let wanted =
        b"{\"rules\":[{\"first\":[{\"class\":[[48,57]]}],\"follow\":[\"end\"],\"h\":6,\"nullable\":true,\"rank\":0,\"rule\":\"a\"}]}\n".as_slice();
    assert!(rt; writer.into_inner().as_slice() == wanted);
    Ok(())
}

#[test]
fn prints_an_option(rt: HostRuntime) -> Result<(), Fail> {
    let alloc = rt.alloc();
    let registry = Registry::new(Vec::new(alloc), Vec::new(alloc))?;
    let mut writer = Meter::new(Vec::<u8>::new(alloc));
    match print_bytes(
        alloc,
        b"start a; a = option(satisfy(\"x\"));",
        &registry,
        &mut writer,
    ) {
        Err(fault) if is_memory(&fault) => Err(AllocError)?,
        outcome => assert!(rt; outcome.is_ok()),
    }
    let wanted = b"start a;\na = choice(satisfy(\"x\"), seq());\n".as_slice();
    assert!(rt; writer.into_inner().as_slice() == wanted);
    Ok(())
}
