//! Readers that give a byte at a time and fail, writers that accept a number of bytes, and builders that never have memory, for each call that has one.

ghost use Rattle.std.specs.Prelude.{◌≡◌, false};

use crate::parse::parse_bytes;
use crate::probe::probe_bytes;
use crate::replay::replay_bytes;
use crate::tests::{CALCULATOR, Drips, Narrow, SUM_FOREST, calculator, is_memory};
use pg_bench_grammar::{BenchFault, check_bytes, print_bytes, sets_bytes};
use pg_language::Reading;
use pg_pred::{Builder, Registry};
use pg_tree::{Forest, Label, Meter, Shape, Tree};
use std::alloc::{AllocError, Global};
use std::io::{Read, Write};
use std::test::Fail;

const SUM: &[u8] = b"1+2*3";

/// The trail of the sum.
const SUM_TRAIL: &str =
    "[{\"rounds\":0},{\"ops\":[[\"infix\",\"+\"],[\"infix\",\"*\"]]},{\"alt\":1},{\"rounds\":0},{\"rounds\":0},\
    {\"alt\":1},{\"rounds\":0},{\"rounds\":0},{\"alt\":1},{\"rounds\":0},{\"rounds\":0}]";

const DIGITS: &[u8] = b"start a; a = text(many(satisfy(digit)));";

/// The calls that write, by what they are asked for.
#[derive(Clone, Copy)]
enum Call {
    Parse,
    Probe,
    Replay,
    Certificate,
    Findings,
    Print,
    Sets,
}

/// The outcome of a call over the calculator, or over a small grammar where a call needs one. Running out of memory ends the test.
fn called<R: Read, W: Write>(
    alloc: Global,
    call: Call,
    registry: &Registry,
    reader: &mut Meter<R>,
    writer: &mut Meter<W>,
) -> Result<Result<bool, BenchFault>, AllocError>
    requires reader { reader.old.failed ≡ false }
    requires writer { writer.old.failed ≡ false }
{
    let grammar = CALCULATOR.as_bytes();
    let trail = SUM_TRAIL.as_bytes();
    let outcome = match call {
        Call::Parse => parse_bytes(alloc, grammar, registry, reader, writer, false).map(|_| true),
        Call::Probe => probe_bytes(
            alloc,
            grammar,
            registry,
            "t",
            reader,
            writer,
            1000,
            Reading::Library,
        ),
        Call::Replay => replay_bytes(alloc, grammar, registry, "t", reader, trail, writer),
        Call::Certificate => check_bytes(alloc, DIGITS, registry, writer, true),
        Call::Findings => check_bytes(alloc, b"start a; a = many(eof);", registry, writer, false),
        Call::Print => print_bytes(alloc, DIGITS, registry, writer).map(|_| true),
        Call::Sets => sets_bytes(alloc, b"start a; a = eof;", registry, writer).map(|_| true),
    };
    match outcome {
        Err(fault) if is_memory(&fault) => Err(AllocError),
        outcome => Ok(outcome),
    }
}

/// What a call writes where nothing fails.
fn wanted_of(alloc: Global, call: Call) -> Result<String, AllocError> {
    match call {
        Call::Parse | Call::Replay => String::from_str(alloc, SUM_FOREST),
        Call::Probe => format!(in alloc; "consumed ok\nplace 5\n{SUM_FOREST}"),
        Call::Certificate => String::from_str(
            alloc,
            "{\"rules\":[{\"first\":[{\"class\":[[48,57]]}],\"follow\":[\"end\"],\"h\":6,\"nullable\":true,\"rank\":0,\"rule\":\"a\"}]}\n",
        ),
        Call::Findings => String::from_str(alloc, "a:1: C2 repeated part can be empty\n"),
        Call::Print => String::from_str(alloc, "start a;\na = text(many(satisfy(digit)));\n"),
        Call::Sets => String::from_str(
            alloc,
            "a: heads [], rank 0\n  1 eof: nullable, first [], follow [end]\n",
        ),
    }
}

#[test]
fn fails_where_the_reader_does(rt: HostRuntime) -> Result<(), Fail> {
    let alloc = rt.alloc();
    let registry = calculator(alloc)?;
    for call in [Call::Parse, Call::Probe, Call::Replay] {
        let wanted = wanted_of(alloc, call)?;
        for fails_at in 1..8 {
            let mut reader = Meter::new(Drips {
                left: SUM,
                calls: 0,
                fails_at,
            });
            let mut writer = Meter::new(Vec::<u8>::new(alloc));
            let outcome = called(alloc, call, &registry, &mut reader, &mut writer)?;
            let written = writer.into_inner();
            if fails_at < 7 {
                assert!(rt;
                    matches!(&outcome, Err(BenchFault::Reader)),
                    "at call {fails_at}"
                );
                assert!(rt; written.is_empty(), "at call {fails_at}");
            } else {
                assert!(rt; matches!(outcome, Ok(true)));
                assert!(rt; written.as_slice() == wanted.as_bytes());
            }
        }
    }
    Ok(())
}

#[test]
fn fails_where_the_writer_does(rt: HostRuntime) -> Result<(), Fail> {
    let alloc = rt.alloc();
    let registry = calculator(alloc)?;
    for call in [
        Call::Parse,
        Call::Probe,
        Call::Replay,
        Call::Certificate,
        Call::Findings,
        Call::Print,
        Call::Sets,
    ] {
        let wanted = wanted_of(alloc, call)?;
        for most in 0..wanted.len() + 2 {
            for errs in [false, true] {
                let mut reader = Meter::new(SUM);
                let mut writer = Meter::new(Narrow {
                    taken: [0; 160],
                    count: 0,
                    most,
                    errs,
                });
                let outcome = called(alloc, call, &registry, &mut reader, &mut writer)?;
                let narrow = writer.into_inner();
                if most < wanted.len() {
                    assert!(rt; matches!(&outcome, Err(BenchFault::Writer)), "after {most}");
                } else {
                    assert!(rt; outcome.is_ok(), "{wanted}");
                }
                assert_eq!(rt; narrow.count, most.min(wanted.len()), "{wanted}");
                let same = narrow
                    .taken
                    .iter()
                    .zip(wanted.as_bytes())
                    .take(most)
                    .all(|(a, b)| a == b);
                assert!(rt; same, "after {most} of {wanted}");
            }
        }
    }
    Ok(())
}

/// A registry whose builders, one of each shape, never have memory.
fn starving(alloc: Global) -> Result<Registry, Fail> {
    let mut builders = Vec::new(alloc);
    for (name, shape) in [
        ("node", Shape::Symbol),
        (
            "num",
            Shape::Node(Label::new(String::from_str(alloc, "num")?)),
        ),
        (
            "flat",
            Shape::Flat(Label::new(String::from_str(alloc, "list")?)),
        ),
        ("join", Shape::Join),
    ] {
        let make = Box::new(
            alloc,
            |_: Global, _: &str, _: Forest| -> Result<Tree, AllocError> { Err(AllocError) },
        )?;
        builders.push(Builder::new(String::from_str(alloc, name)?, shape, make))?;
    }
    Ok(Registry::new(Vec::new(alloc), builders)?)
}

/// A run calls no builder, whatever its shape: it makes their trees by the shapes alone. So a builder that wants memory is never heard.
#[test]
fn calls_no_builder(rt: HostRuntime) -> Result<(), Fail> {
    let alloc = rt.alloc();
    let registry = starving(alloc)?;
    let grammar =
        b"operators \"+!-\" gap \" \"; table infixl 6 \"+\"; table postfix 9 \"!\"; table prefix 8 \"-\"; start a; \
        a = seq(build(flat, many(build(flat, satisfy(\"a\")))), build(join, seq(string(\"b\"), string(\"c\"))), \
        chainl1(join, build(num, string(\"d\")), string(\";\")), chainr1(flat, string(\"e\"), string(\"/\")), \
        expr(node, flat, join, string(\"1\")));";
    let text = b"aabcd;de/e-1+1!".as_slice();
    let forest =
        "[{\"kids\":[\"a\",\"a\"],\"node\":\"list\"},\"bc\",\"d;d\",{\"kids\":[\"e\",\"/\",\"e\"],\"node\":\"list\"},\
        {\"kids\":[{\"kids\":[\"1\"],\"node\":\"list\"},\"1\"],\"node\":\"+\"}]\n";
    let mut reader = Meter::new(text);
    let mut writer = Meter::new(Vec::<u8>::new(alloc));
    let parsed = parse_bytes(alloc, grammar, &registry, &mut reader, &mut writer, true);
    assert!(rt; parsed.is_ok());
    let written = writer.into_inner();
    let (trees, trail) = written.as_slice().split_at(forest.len());
    assert!(rt; trees == forest.as_bytes());
    let mut reader = Meter::new(text);
    let mut writer = Meter::new(Vec::<u8>::new(alloc));
    let replayed = replay_bytes(
        alloc,
        grammar,
        &registry,
        "t",
        &mut reader,
        trail,
        &mut writer,
    );
    assert!(rt; matches!(replayed, Ok(true)));
    assert!(rt; writer.into_inner().as_slice() == forest.as_bytes());
    Ok(())
}
