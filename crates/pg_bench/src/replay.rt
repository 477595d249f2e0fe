//! From the bytes of a grammar file, of a text and of a trail to the forest along the trail, or to where the trail stops.

ghost use Rattle.std.specs.Prelude.{◌≡◌, ◌≤◌, ◌<◌, ◌+◌, ◌*◌, ◌⊎◌, ◌++◌, false, true, length, codes, IfOk, IfErr, OnOk, IsErrOf};
ghost use Rattle.std.specs.Str.{chars, IsUtf8};
ghost use Rattle.pg_pred.specs.Offer.{offer_of};
ghost use Rattle.pg_tree.specs.Meter.{saturating_sum};
ghost use Rattle.pg_bench_grammar.specs.Files.{IsFaultOfFile, SpellsAny};
ghost use Rattle.pg_bench_grammar.specs.Faults.{IsAfterFile, IsAfterReading, IsFileFault, IfFile, IfNotVerified, IfParseError, IfRefused, IsMemory, IsBeforeWriting};
ghost use Rattle.pg_bench.specs.Parsed.{ReadsText};
ghost use Rattle.pg_bench.specs.Replaying.{IsReplayed, IsPartlyReplayed, IsNoTrail, Replays, stop_text};
ghost use Rattle.pg_tree.specs.Json.{json};
ghost use Rattle.pg_table.specs.Tables.{ComesFrom};

use crate::outcome_page::{forest_page, stop_page};
use crate::showing::{Shown, ShowsText, shown_of_files, write_shown};
use pg_bench_grammar::BenchFault;
use pg_grammar_value::{Grammar, Trail};
use pg_pred::Registry;
use pg_table::Table;
use pg_text::{LIMIT, Text};
use pg_trail::{TrailFault, read_trail};
use pg_trail_replay::{ReplayFault, Stop, replay};
use pg_tree::{Forest, Meter};
use std::alloc::Global;
use std::io::{Read, Write};

/// Replays a trail over the text that a reader gives, by the grammar that a file spells, and writes the result: the JSON of the forest that the grammar
/// derives along this trail, and a line feed; or a line that says where and why the trail stops, and then nothing is derived along it. Answers whether there
/// is a forest. All choices come from the trail, no set is used, and the grammar need not be accepted (ours).
///
/// The line has the text's `name`, the line and the column, the fault and the number of the next item: `t:1:4: Y2 text doesn't fit, item 3 of 11`. The faults
/// are: Y1, the item doesn't fit what the grammar has there, its operators belong to no tree, or a rule is entered again before anything was consumed; Y2,
/// the text doesn't fit; Y3, characters or items are left over; Y4, the operator table doesn't admit a declaration.
///
/// Neither meter must have failed yet. Any grammar is replayed. The faults come in the order of [`BenchFault`], without `Refused`, `NotVerified` and
/// `ParseError`: a fault of the file before the reader is asked at all, then the reader's, those of its bytes, `NotATrail` if the trail's bytes aren't a
/// trail's JSON, and the writer's. Before the last, and where memory runs out, nothing is written.
pub fn replay_bytes<R: Read, W: Write>(
    alloc: Global,
    grammar: &[u8],
    registry: &Registry,
    name: &str,
    reader: &mut Meter<R>,
    trail: &[u8],
    writer: &mut Meter<W>,
) -> Result<bool, BenchFault>
    requires reader { reader.old.failed ≡ false }
    requires writer { writer.old.failed ≡ false }

    // The whole of the reader's bytes is a text, and the result of the replay was written.
    ensures ok { IfOk result (IsReplayed (offer_of registry.now) grammar.now (R.remaining reader.old.inner) (R.remaining reader.new.inner)
        name.now trail.now (W.contents writer.old.inner) (W.contents writer.new.inner)) }

    // A fault of the file comes first, and every other one only where the file spells a grammar.
    ensures file { IfErr result (IfFile (IsFaultOfFile (offer_of registry.now) grammar.now)) }
    ensures unread { IfErr result (λ fault. IsFileFault fault → reader.new ≡ reader.old) }
    ensures spelled { IfErr result (λ fault. IsAfterFile fault → SpellsAny (offer_of registry.now) grammar.now) }

    // The reader failed, or gave more than the limit.
    ensures reader { IsErrOf result BenchFault.Reader →
        (reader.new.failed ≡ true) ⊎ (saturating_sum reader.old.bytes (4 * LIMIT + 1) ≤ reader.new.bytes) }

    // What is wrong with the bytes that the reader gave, in this order, and with those of the trail.
    ensures not_utf8 { IsErrOf result BenchFault.NotUtf8 →
        ReadsText (R.remaining reader.old.inner) (R.remaining reader.new.inner) (λ bytes. ¬ (IsUtf8 bytes)) }
    ensures too_long { IsErrOf result BenchFault.TooLong →
        ReadsText (R.remaining reader.old.inner) (R.remaining reader.new.inner) (λ bytes. IsUtf8 bytes × (LIMIT < length (chars bytes))) }
    ensures not_a_trail { IsErrOf result BenchFault.NotATrail → IsNoTrail trail.now }

    // No grammar is refused and no certificate judged, and a trail that stops is no fault.
    ensures unchecked { IfErr result (IfRefused (λ findings. ⊥)) }
    ensures parsed { IfErr result (IfParseError (λ error. ⊥)) }
    ensures no_certificate { IfErr result (IfNotVerified (λ verdict. ⊥)) }

    // In every other case the reader didn't fail, and didn't give more.
    ensures reader_stays { OnOk result (reader.new.failed ≡ false) }
    ensures reader_well { IfErr result (λ fault. IsAfterReading fault → reader.new.failed ≡ false) }
    ensures short { OnOk result (reader.new.bytes ≤ saturating_sum reader.old.bytes (4 * LIMIT)) }
    ensures short_too { IfErr result (λ fault. IsAfterReading fault → reader.new.bytes ≤ saturating_sum reader.old.bytes (4 * LIMIT)) }

    // The writer failed after a prefix of what it was to be given, and in every other case was given nothing.
    ensures writer { IsErrOf result BenchFault.Writer → writer.new.failed ≡ true }
    ensures prefix { IsErrOf result BenchFault.Writer → IsPartlyReplayed (offer_of registry.now) grammar.now (R.remaining reader.old.inner)
        (R.remaining reader.new.inner) name.now trail.now (W.contents writer.old.inner) (W.contents writer.new.inner) }
    ensures writer_stays { OnOk result (writer.new.failed ≡ false) }
    ensures unwritten { IfErr result (λ fault. IsBeforeWriting fault → writer.new ≡ writer.old) }

    ensures asked { reader.new.calls ≤ saturating_sum reader.old.calls (4 * LIMIT + 1) }
{
    let replaying = Replaying { name, trail };
    match shown_of_files(alloc, grammar, registry, &replaying, reader) {
        Ok(shown) => write_shown(&shown, writer),
        Err(fault) => Err(fault),
    }
}

/// The trail with these bytes, and the name of a text.
#[derive(Drop)]
struct Replaying<'a> {
    name: &'a str,
    trail: &'a [u8],
}

impl ShowsText for Replaying<'_> {
    ghost use Rattle.pg_bench.specs.Replaying.{IsReplayOfText, IsNoTrail};

    ghost Shows = { λ replaying g. IsReplayOfText g replaying.name.now replaying.trail.now };

    ghost NoTrail = { λ replaying. IsNoTrail replaying.trail.now };

    #[tactic(auto, using(crate::proofs::Replayed::shown_replay))]
    fn show(
        &self,
        alloc: Global,
        grammar: &Grammar,
        _registry: &Registry,
        text: &Text,
        table: &Table,
    ) -> Result<Shown, BenchFault> {
        match read_trail(alloc, self.trail) {
            Ok(trail) => shown_along(alloc, grammar, text, table, &trail, self.name),
            Err(TrailFault::NotATrail) => Err(BenchFault::NotATrail),
            Err(TrailFault::Memory) => Err(BenchFault::Memory),
        }
    }
}

/// The page about the replay over the text.
fn shown_along(
    alloc: Global,
    grammar: &Grammar,
    text: &Text,
    table: &Table,
    trail: &Trail,
    name: &str,
) -> Result<Shown, BenchFault>
    requires { ComesFrom grammar.now table.now }
    ensures ok { IfOk result (λ shown. Replays grammar.now text.now table.now trail.now name.now shown.accepted shown.page.items) }
    ensures err { IfErr result IsMemory }
{
    match replay(alloc, grammar, text, table, trail) {
        Ok(forest) => shown_forest(alloc, &forest),
        Err(ReplayFault::Stopped(stop)) => {
            shown_stop(alloc, text, trail.items().len(), &stop, name)
        }
        Err(ReplayFault::Memory) => Err(BenchFault::Memory),
    }
}

/// The page of a forest that a trail leads to.
fn shown_forest(alloc: Global, forest: &Forest) -> Result<Shown, BenchFault>
    ensures ok { IfOk result (λ shown. (shown.accepted ≡ true) × (shown.page.items ≡ json forest.now ++ codes "\n")) }
    ensures err { IfErr result IsMemory }
{
    match forest_page(alloc, forest) {
        Ok(page) => Ok(Shown {
            accepted: true,
            page,
        }),
        Err(_) => Err(BenchFault::Memory),
    }
}

/// The page about the stop of a trail; `all` is the number of its items.
fn shown_stop(
    alloc: Global,
    text: &Text,
    items: usize,
    stop: &Stop,
    name: &str,
) -> Result<Shown, BenchFault>
    ensures ok { IfOk result (λ shown. (shown.accepted ≡ false) × (shown.page.items ≡ stop_text name.now text.now items stop.now)) }
    ensures err { IfErr result IsMemory }
{
    match stop_page(alloc, text, items, stop, name) {
        Ok(page) => Ok(Shown {
            accepted: false,
            page,
        }),
        Err(_) => Err(BenchFault::Memory),
    }
}
