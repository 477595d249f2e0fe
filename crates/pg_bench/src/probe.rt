//! From the bytes of a grammar file and of a text to what the grammar's start rule answers, as Parsec would.

ghost use Rattle.std.specs.Prelude.{◌≡◌, ◌≤◌, ◌<◌, ◌+◌, ◌*◌, ◌⊎◌, false, true, length, IfOk, IfErr, OnOk, IsErrOf};
ghost use Rattle.std.specs.Str.{chars, IsUtf8};
ghost use Rattle.pg_pred.specs.Offer.{offer_of};
ghost use Rattle.pg_tree.specs.Meter.{saturating_sum};
ghost use Rattle.pg_grammar_value.specs.Fits.{Fits};
ghost use Rattle.pg_table.specs.Tables.{initial, whole};
ghost use Rattle.pg_bench_grammar.specs.Files.{IsFaultOfFile, SpellsAny};
ghost use Rattle.pg_bench.specs.Parsed.{ReadsText};
ghost use Rattle.pg_bench_grammar.specs.Faults.{IsAfterFile, IsAfterReading, IsFileFault, IfFile, IfParseError, IfRefused, IfNotATrail, IfNotVerified, IsMemory, IsBeforeWriting, IsWriteRefusal};
ghost use Rattle.pg_bench.specs.Probing.{IsProbed, IsProbedBy, IsPartlyProbed, IsPartlyProbedBy, IsTextProbed, IsTextPartlyProbed, IsShownOfText, is_ok_outcome, outcome_text};

use crate::outcome_page::{is_ok, page_of};
use crate::showing::{Shown, ShowsText, shown_of_reader, write_shown};
use pg_bench_grammar::{BenchFault, placed_of};
use pg_file_making::PlacedGrammar;
use pg_grammar_value::Grammar;
use pg_language::Reading;
use pg_machine::{Outcome, Run, Watcher, probe, probe_watched};
use pg_pred::Registry;
use pg_table::Table;
use pg_text::{LIMIT, Text};
use pg_tree::Meter;
use std::alloc::Global;
use std::io::{Read, Write};

/// Runs the start rule of the grammar that a file spells at the beginning of the text that a reader gives, and writes its answer. Answers whether that was
/// ok. These are written: `consumed ok` or `empty ok`, the place in characters and the forest's JSON; or `consumed error` or `empty error` and the error as
/// Text.Parsec prints it, but for the four differences in docs/PARSEC.md, with the text's `name` in it; or `P5 steps used up` if no answer comes within
/// `max_steps` turns; or `P6 empty repetition`, each on lines of its own. The registry has the predicates and builders that the file may name.
///
/// Neither meter must have failed yet. Any grammar is run. The faults come in the order of [`BenchFault`], without `Refused`, `ParseError`, `NotATrail` and
/// `NotVerified`: a fault of the file before the reader is asked at all, then the reader's, those of its bytes, and the writer's. Before the last, and where
/// memory runs out, nothing is written.
pub fn probe_bytes<R: Read, W: Write>(
    alloc: Global,
    grammar: &[u8],
    registry: &Registry,
    name: &str,
    reader: &mut Meter<R>,
    writer: &mut Meter<W>,
    max_steps: u64,
    reading: Reading,
) -> Result<bool, BenchFault>
    requires reader { reader.old.failed ≡ false }
    requires writer { writer.old.failed ≡ false }

    // The whole of the reader's bytes is a text, and what the start rule answers to it was written.
    ensures ok { IfOk result (IsProbed (offer_of registry.now) grammar.now (R.remaining reader.old.inner) (R.remaining reader.new.inner)
        name.now max_steps reading (W.contents writer.old.inner) (W.contents writer.new.inner)) }

    // A fault of the file comes first, and every other one only where the file spells a grammar.
    ensures file { IfErr result (IfFile (IsFaultOfFile (offer_of registry.now) grammar.now)) }
    ensures unread { IfErr result (λ fault. IsFileFault fault → reader.new ≡ reader.old) }
    ensures spelled { IfErr result (λ fault. IsAfterFile fault → SpellsAny (offer_of registry.now) grammar.now) }

    // The reader failed, or gave more than the limit.
    ensures reader { IsErrOf result BenchFault.Reader →
        (reader.new.failed ≡ true) ⊎ (saturating_sum reader.old.bytes (4 * LIMIT + 1) ≤ reader.new.bytes) }

    // What is wrong with the bytes that the reader gave, in this order.
    ensures not_utf8 { IsErrOf result BenchFault.NotUtf8 →
        ReadsText (R.remaining reader.old.inner) (R.remaining reader.new.inner) (λ bytes. ¬ (IsUtf8 bytes)) }
    ensures too_long { IsErrOf result BenchFault.TooLong →
        ReadsText (R.remaining reader.old.inner) (R.remaining reader.new.inner) (λ bytes. IsUtf8 bytes × (LIMIT < length (chars bytes))) }

    // No grammar is refused, and that a parser answers an error is no fault.
    ensures unchecked { IfErr result (IfRefused (λ findings. ⊥)) }
    ensures parsed { IfErr result (IfParseError (λ error. ⊥)) }
    ensures no_trail { IfErr result (IfNotATrail ⊥) }
    ensures no_certificate { IfErr result (IfNotVerified (λ verdict. ⊥)) }

    // In every other case the reader didn't fail, and didn't give more.
    ensures reader_stays { OnOk result (reader.new.failed ≡ false) }
    ensures reader_well { IfErr result (λ fault. IsAfterReading fault → reader.new.failed ≡ false) }
    ensures short { OnOk result (reader.new.bytes ≤ saturating_sum reader.old.bytes (4 * LIMIT)) }
    ensures short_too { IfErr result (λ fault. IsAfterReading fault → reader.new.bytes ≤ saturating_sum reader.old.bytes (4 * LIMIT)) }

    // The writer failed after a prefix of what it was to be given, and in every other case was given nothing.
    ensures writer { IsErrOf result BenchFault.Writer → writer.new.failed ≡ true }
    ensures prefix { IsErrOf result BenchFault.Writer → IsPartlyProbed (offer_of registry.now) grammar.now (R.remaining reader.old.inner)
        (R.remaining reader.new.inner) name.now max_steps reading (W.contents writer.old.inner) (W.contents writer.new.inner) }
    ensures writer_stays { OnOk result (writer.new.failed ≡ false) }
    ensures unwritten { IfErr result (λ fault. IsBeforeWriting fault → writer.new ≡ writer.old) }

    ensures asked { reader.new.calls ≤ saturating_sum reader.old.calls (4 * LIMIT + 1) }
{
    let placed = placed_of(alloc, grammar, registry)?;
    let probed = probe_grammar(
        alloc, &placed, registry, name, reader, writer, max_steps, reading,
    );
    drop(placed);
    probed
}

/// As [`probe_bytes`], for a grammar that is read already. The caller ensures that the registry has what the grammar names in it, and that the table is its
/// own. Faults of a file don't occur.
pub fn probe_grammar<R: Read, W: Write>(
    alloc: Global,
    placed: &PlacedGrammar,
    registry: &Registry,
    name: &str,
    reader: &mut Meter<R>,
    writer: &mut Meter<W>,
    max_steps: u64,
    reading: Reading,
) -> Result<bool, BenchFault>
    requires fits { Fits (offer_of registry.now) placed.now.grammar }
    requires table { initial placed.now.grammar ≡ whole placed.now.table }
    requires reader { reader.old.failed ≡ false }
    requires writer { writer.old.failed ≡ false }

    // The whole of the reader's bytes is a text, and what the start rule answers to it was written.
    ensures ok { IfOk result (IsProbedBy placed.now.grammar (R.remaining reader.old.inner) (R.remaining reader.new.inner)
        name.now max_steps reading (W.contents writer.old.inner) (W.contents writer.new.inner)) }

    // No file is read.
    ensures no_file { IfErr result (IfFile (λ fault. ⊥)) }

    // The reader failed, or gave more than the limit.
    ensures reader { IsErrOf result BenchFault.Reader →
        (reader.new.failed ≡ true) ⊎ (saturating_sum reader.old.bytes (4 * LIMIT + 1) ≤ reader.new.bytes) }

    // What is wrong with the bytes that the reader gave, in this order.
    ensures not_utf8 { IsErrOf result BenchFault.NotUtf8 →
        ReadsText (R.remaining reader.old.inner) (R.remaining reader.new.inner) (λ bytes. ¬ (IsUtf8 bytes)) }
    ensures too_long { IsErrOf result BenchFault.TooLong →
        ReadsText (R.remaining reader.old.inner) (R.remaining reader.new.inner) (λ bytes. IsUtf8 bytes × (LIMIT < length (chars bytes))) }

    // No grammar is refused, and that a parser answers an error is no fault.
    ensures unchecked { IfErr result (IfRefused (λ findings. ⊥)) }
    ensures parsed { IfErr result (IfParseError (λ error. ⊥)) }
    ensures no_trail { IfErr result (IfNotATrail ⊥) }
    ensures no_certificate { IfErr result (IfNotVerified (λ verdict. ⊥)) }

    // In every other case the reader didn't fail, and didn't give more.
    ensures reader_stays { OnOk result (reader.new.failed ≡ false) }
    ensures reader_well { IfErr result (λ fault. IsAfterReading fault → reader.new.failed ≡ false) }
    ensures short { OnOk result (reader.new.bytes ≤ saturating_sum reader.old.bytes (4 * LIMIT)) }
    ensures short_too { IfErr result (λ fault. IsAfterReading fault → reader.new.bytes ≤ saturating_sum reader.old.bytes (4 * LIMIT)) }

    // The writer failed after a prefix of what it was to be given, and in every other case was given nothing.
    ensures writer { IsErrOf result BenchFault.Writer → writer.new.failed ≡ true }
    ensures prefix { IsErrOf result BenchFault.Writer → IsPartlyProbedBy placed.now.grammar (R.remaining reader.old.inner)
        (R.remaining reader.new.inner) name.now max_steps reading (W.contents writer.old.inner) (W.contents writer.new.inner) }
    ensures writer_stays { OnOk result (writer.new.failed ≡ false) }
    ensures unwritten { IfErr result (λ fault. IsBeforeWriting fault → writer.new ≡ writer.old) }

    ensures asked { reader.new.calls ≤ saturating_sum reader.old.calls (4 * LIMIT + 1) }
{
    let probing = Probing {
        name,
        max_steps,
        reading,
    };
    match shown_of_reader(alloc, placed, registry, &probing, reader) {
        Ok(shown) => write_shown(&shown, writer),
        Err(fault) => Err(fault),
    }
}

/// As [`probe_grammar`], for a text that is read already. A watcher sees the run that is answered, so that what it reports is about that run. The only faults
/// are the writer's, and running out of memory for the run or the watcher, which comes before anything is written.
#[tactic(auto, using(crate::proofs::Watched::written_text, crate::proofs::Watched::partly_written_text))]
pub fn probe_text<O: Watcher, W: Write>(
    alloc: Global,
    placed: &PlacedGrammar,
    registry: &Registry,
    text: &Text,
    probing: &Probing,
    watcher: &mut O,
    writer: &mut Meter<W>,
) -> Result<bool, BenchFault>
    requires fits { Fits (offer_of registry.now) placed.now.grammar }
    requires table { initial placed.now.grammar ≡ whole placed.now.table }
    requires writer { writer.old.failed ≡ false }
    ensures ok { IfOk result (IsTextProbed placed.now.grammar text.now probing.now.name.now probing.now.max_steps probing.now.reading
        (W.contents writer.old.inner) (W.contents writer.new.inner)) }
    ensures err { IfErr result IsWriteRefusal }
    ensures writer { IsErrOf result BenchFault.Writer → writer.new.failed ≡ true }
    ensures prefix { IsErrOf result BenchFault.Writer → IsTextPartlyProbed placed.now.grammar text.now probing.now.name.now probing.now.max_steps
        probing.now.reading (W.contents writer.old.inner) (W.contents writer.new.inner) }
    ensures writer_stays { OnOk result (writer.new.failed ≡ false) }
    ensures unwritten { IsErrOf result BenchFault.Memory → writer.new ≡ writer.old }
{
    let shown = shown_of_watched(alloc, placed, registry, text, probing, watcher)?;
    write_shown(&shown, writer)
}

/// The page about a text, made while the run is watched.
#[tactic(auto, using(crate::proofs::Shown::shown_text))]
fn shown_of_watched<O: Watcher>(
    alloc: Global,
    placed: &PlacedGrammar,
    registry: &Registry,
    text: &Text,
    probing: &Probing,
    watcher: &mut O,
) -> Result<Shown, BenchFault>
    requires fits { Fits (offer_of registry.now) placed.now.grammar }
    requires table { initial placed.now.grammar ≡ whole placed.now.table }
    ensures ok { IfOk result (λ shown. IsShownOfText placed.now.grammar probing.now.name.now probing.now.max_steps probing.now.reading text.now shown.accepted shown.page.items) }
    ensures err { IfErr result IsMemory }
{
    let run = Run {
        grammar: &placed.grammar,
        text,
        registry,
        reading: probing.reading,
    };
    match probe_watched(alloc, &run, &placed.table, probing.max_steps, watcher) {
        Ok(outcome) => {
            let shown = shown_of_outcome(alloc, &outcome, probing.name);
            drop(outcome);
            shown
        }
        Err(_) => Err(BenchFault::Memory),
    }
}

/// A probe of a text with this name, in at most this many steps, in this reading.
#[derive(Clone, Copy)]
pub struct Probing<'a> {
    pub name: &'a str,
    pub max_steps: u64,
    pub reading: Reading,
}

impl ShowsText for Probing<'_> {
    ghost use Rattle.pg_bench.specs.Probing.{IsShownOfText};

    ghost Shows = { λ probing g. IsShownOfText g probing.name.now probing.max_steps probing.reading };

    ghost NoTrail = { λ probing. ⊥ };

    #[tactic(auto, using(crate::proofs::Shown::shown_text))]
    fn show(
        &self,
        alloc: Global,
        grammar: &Grammar,
        registry: &Registry,
        text: &Text,
        table: &Table,
    ) -> Result<Shown, BenchFault> {
        match probe(
            alloc,
            grammar,
            text,
            table,
            registry,
            self.max_steps,
            self.reading,
        ) {
            Ok(outcome) => {
                let shown = shown_of_outcome(alloc, &outcome, self.name);
                drop(outcome);
                shown
            }
            Err(_) => Err(BenchFault::Memory),
        }
    }
}

/// The page about an outcome.
fn shown_of_outcome(alloc: Global, outcome: &Outcome, name: &str) -> Result<Shown, BenchFault>
    ensures accepted { IfOk result (λ shown. shown.accepted ≡ is_ok_outcome outcome.now) }
    ensures page { IfOk result (λ shown. shown.page.items ≡ outcome_text outcome.now name.now) }
    ensures err { IfErr result IsMemory }
{
    let accepted = is_ok(outcome);
    match page_of(alloc, outcome, name) {
        Ok(page) => Ok(Shown { accepted, page }),
        Err(_) => Err(BenchFault::Memory),
    }
}
