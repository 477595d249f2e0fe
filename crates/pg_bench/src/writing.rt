//! Parsing a text and writing what is wanted of it.
//!
//! Whatever takes memory is done before the first byte is written. The text lives until that is done, since its pieces may borrow it.

ghost use Rattle.std.specs.Prelude.{◌≡◌, ◌≤◌, ◌+◌, ◌*◌, ◌++◌, false, true, IfOk, IfErr, OnOk, OnErr, IsErrOf};
ghost use Rattle.std.specs.Io.KnownBytes.{Appends};
ghost use Rattle.pg_pred.specs.Offer.{offer_of};
ghost use Rattle.pg_grammar_value.specs.Fits.{Fits};
ghost use Rattle.pg_tree.specs.Meter.{saturating_sum};
ghost use Rattle.pg_tree.specs.Bytes.{AppendsPrefix};
ghost use Rattle.pg_table.specs.Tables.{initial, whole};
ghost use Rattle.pg_bench_grammar.specs.Faults.{IsBeforeWriting};
ghost use Rattle.pg_bench.specs.Parsed.{IsParsedBy, IsPartlyParsedBy};
ghost use Rattle.pg_bench.specs.Pieces.{IsParsedText, IsPartlyParsedText, json_bytes};
ghost use Rattle.pg_bench.specs.Refusals.{IsWell, IsWritingFault, IsWritingRefusal};

use crate::done::Done;
use crate::input::text_from;
use crate::json::Json;
use crate::pieces::{Pieces, pieces_of_text};
use pg_bench_grammar::{AcceptedGrammar, BenchFault, write_page};
use pg_pred::Registry;
use pg_text::{LIMIT, Text};
use pg_tree::Meter;
use std::alloc::Global;
use std::io::{Read, Write};

/// As `parse_checked`, whose callers see more of each fault.
#[tactic(auto, using(crate::proofs::ReadTexts::parsed_read, crate::proofs::ReadTexts::partly_read, crate::proofs::ReadTexts::unspelled_unwritten, crate::proofs::ReadTexts::writing_refused))]
pub(crate) fn write_parse<R: Read, W: Write>(
    alloc: Global,
    accepted: &AcceptedGrammar,
    registry: &Registry,
    reader: &mut Meter<R>,
    writer: &mut Meter<W>,
    with_trail: bool,
) -> Result<Done, BenchFault>
    requires fits { Fits (offer_of registry.now) accepted.now.checked.grammar }
    requires table { initial accepted.now.checked.grammar ≡ whole accepted.now.table }
    requires reader { reader.old.failed ≡ false }
    requires writer { writer.old.failed ≡ false }
    ensures ok { IfOk result (IsParsedBy accepted.now.checked.grammar (R.remaining reader.old.inner) (R.remaining reader.new.inner) with_trail
        (W.contents writer.old.inner) (W.contents writer.new.inner)) }
    ensures well { OnOk result (IsWell reader.old reader.new) }
    ensures err { IfErr result (IsWritingFault accepted.now.checked.grammar reader.old reader.new (R.remaining reader.old.inner) (R.remaining reader.new.inner)) }
    ensures writer { IsErrOf result BenchFault.Writer → writer.new.failed ≡ true }
    ensures prefix { IsErrOf result BenchFault.Writer → IsPartlyParsedBy accepted.now.checked.grammar (R.remaining reader.old.inner) (R.remaining reader.new.inner) with_trail
        (W.contents writer.old.inner) (W.contents writer.new.inner) }
    ensures stays { OnOk result (writer.new.failed ≡ false) }
    ensures unwritten { IfErr result (λ fault. IsBeforeWriting fault → writer.new ≡ writer.old) }
    ensures asked { reader.new.calls ≤ saturating_sum reader.old.calls (4 * LIMIT + 1) }
{
    match text_from(alloc, reader) {
        Ok(text) => {
            let done = write_parse_of_text(alloc, accepted, registry, &text, writer, with_trail);
            drop(text);
            done
        }
        Err(fault) => Err(fault),
    }
}

/// Parses a text, and writes its forest, and its trail if that is wanted.
#[tactic(auto, using(crate::proofs::PiecesLemmas::parsed_pieces, crate::proofs::PiecesLemmas::partly_pieces, crate::proofs::ReadTexts::run_unwritten))]
fn write_parse_of_text<W: Write>(
    alloc: Global,
    accepted: &AcceptedGrammar,
    registry: &Registry,
    text: &Text,
    writer: &mut Meter<W>,
    with_trail: bool,
) -> Result<Done, BenchFault>
    requires fits { Fits (offer_of registry.now) accepted.now.checked.grammar }
    requires table { initial accepted.now.checked.grammar ≡ whole accepted.now.table }
    requires writer { writer.old.failed ≡ false }
    ensures ok { IfOk result (IsParsedText accepted.now.checked.grammar text.now with_trail (W.contents writer.old.inner) (W.contents writer.new.inner)) }
    ensures err { IfErr result (IsWritingRefusal accepted.now.checked.grammar text.now) }
    ensures writer { IsErrOf result BenchFault.Writer → writer.new.failed ≡ true }
    ensures prefix { IsErrOf result BenchFault.Writer →
        IsPartlyParsedText accepted.now.checked.grammar text.now with_trail (W.contents writer.old.inner) (W.contents writer.new.inner) }
    ensures stays { OnOk result (writer.new.failed ≡ false) }
    ensures unwritten { IfErr result (λ fault. IsBeforeWriting fault → writer.new ≡ writer.old) }
{
    match pieces_of_text(alloc, accepted, registry, text, true, with_trail) {
        Ok(pieces) => {
            let Pieces { json, rest, done } = pieces;
            let written = write_lines(json, rest.as_slice(), writer);
            drop(rest);
            match written {
                Ok(()) => Ok(done),
                Err(fault) => Err(fault),
            }
        }
        Err(fault) => Err(fault),
    }
}

/// Writes the forest's JSON, and then the rest. The only fault is the writer's.
#[tactic(auto, using(pg_text_pieces::proofs::Puts::appends_both, pg_text_pieces::proofs::Puts::prefix_longer, crate::proofs::PiecesLemmas::prefix_of_both))]
pub(crate) fn write_lines<W: Write>(
    json: Json<'_>,
    rest: &[u8],
    writer: &mut Meter<W>,
) -> Result<(), BenchFault>
    requires { writer.old.failed ≡ false }
    ensures ok { OnOk result (Appends (W.contents writer.old.inner) (W.contents writer.new.inner) (json_bytes json.entry ++ rest.now)) }
    ensures stays { OnOk result (writer.new.failed ≡ false) }
    ensures only { OnErr result (IsErrOf result BenchFault.Writer) }
    ensures failed { OnErr result (writer.new.failed ≡ true) }
    ensures prefix { OnErr result
        (AppendsPrefix (W.contents writer.old.inner) (W.contents writer.new.inner) (json_bytes json.entry ++ rest.now)) }
{
    match json.write(writer) {
        Ok(()) => write_page(rest, writer),
        Err(_) => Err(BenchFault::Writer),
    }
}
