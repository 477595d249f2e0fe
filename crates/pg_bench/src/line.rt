//! A line of JSON for each text: its trees, or why it has none. A text always gets its line, so lines and texts stay in step.

ghost use Rattle.std.specs.Prelude.{◌≡◌, ◌≤◌, ◌+◌, ◌*◌, ◌++◌, codes, false, true, IfOk, IfErr, OnOk, OnErr, IsErrOf, string_bytes};
ghost use Rattle.std.specs.Io.KnownBytes.{Appends};
ghost use Rattle.pg_pred.specs.Offer.{offer_of};
ghost use Rattle.pg_grammar_value.specs.Fits.{Fits};
ghost use Rattle.pg_tree.specs.Json.{quoted};
ghost use Rattle.pg_tree.specs.Meter.{saturating_sum};
ghost use Rattle.pg_tree.specs.Bytes.{AppendsPrefix};
ghost use Rattle.pg_table.specs.Tables.{initial, whole};
ghost use Rattle.pg_bench.specs.Parsed.{IsLineBy, IsPartlyLineBy, line_front, error_line_text};
ghost use Rattle.pg_bench.specs.Pieces.{IsLineOfText, IsPartlyLineOfText, json_bytes};
ghost use Rattle.pg_bench.specs.Refusals.{IsTextFault, IsWritingRefusal};
ghost use Rattle.pg_bench_grammar.specs.Faults.{IsWriteRefusal, IsBeforeWriting};

use crate::done::Done;
use crate::input::text_from;
use crate::json::Json;
use crate::pieces::{Pieces, pieces_of_text};
use crate::writing::write_lines;
use pg_bench_grammar::{AcceptedGrammar, BenchFault, write_page};
use pg_pred::Registry;
use pg_text::{LIMIT, Text};
use pg_tree::Meter;
use serde_json::Value;
use std::alloc::{AllocError, Global};
use std::io::{Read, Write};

/// As `parse_checked` without a trail, but writes the trees after the text's name: `{"file":NAME,"trees":TREES}` and a line feed (ours). Whatever takes
/// memory is done before its first byte is written.
#[tactic(auto, using(crate::proofs::ReadTexts::line_read, crate::proofs::ReadTexts::partly_line_read, crate::proofs::ReadTexts::unspelled_refused, crate::proofs::ReadTexts::line_refused))]
pub fn parse_line<R: Read, W: Write>(
    alloc: Global,
    accepted: &AcceptedGrammar,
    registry: &Registry,
    reader: &mut Meter<R>,
    writer: &mut Meter<W>,
    name: &str,
) -> Result<Done, BenchFault>
    requires fits { Fits (offer_of registry.now) accepted.now.checked.grammar }
    requires table { initial accepted.now.checked.grammar ≡ whole accepted.now.table }
    requires reader { reader.old.failed ≡ false }
    requires writer { writer.old.failed ≡ false }

    // The whole of the reader's bytes is a text that the grammar derives in one way, and the line of its forest was written.
    ensures ok { IfOk result (IsLineBy accepted.now.checked.grammar (R.remaining reader.old.inner) (R.remaining reader.new.inner) name.now
        (W.contents writer.old.inner) (W.contents writer.new.inner)) }

    // Every fault but the writer's is one of the reader or the text, as for `parsed_text`.
    ensures err { IfErr result (λ fault. IsBeforeWriting fault →
        IsTextFault accepted.now.checked.grammar reader.old reader.new (R.remaining reader.old.inner) (R.remaining reader.new.inner) fault) }

    // The writer failed after a prefix of the line, and in every other case was given nothing.
    ensures writer { IsErrOf result BenchFault.Writer → writer.new.failed ≡ true }
    ensures prefix { IsErrOf result BenchFault.Writer → IsPartlyLineBy accepted.now.checked.grammar (R.remaining reader.old.inner) (R.remaining reader.new.inner) name.now
        (W.contents writer.old.inner) (W.contents writer.new.inner) }
    ensures writer_stays { OnOk result (writer.new.failed ≡ false) }
    ensures unwritten { IfErr result (λ fault. IsBeforeWriting fault → writer.new ≡ writer.old) }

    ensures asked { reader.new.calls ≤ saturating_sum reader.old.calls (4 * LIMIT + 1) }
{
    match text_from(alloc, reader) {
        Ok(text) => {
            let done = write_line_of_text(alloc, accepted, registry, &text, writer, name);
            drop(text);
            done
        }
        Err(fault) => Err(fault),
    }
}

/// Parses a text, and writes its line with this name.
#[tactic(auto, using(crate::proofs::PiecesLemmas::line_pieces, crate::proofs::PiecesLemmas::partly_line_pieces, crate::proofs::ReadTexts::run_unwritten))]
fn write_line_of_text<W: Write>(
    alloc: Global,
    accepted: &AcceptedGrammar,
    registry: &Registry,
    text: &Text,
    writer: &mut Meter<W>,
    name: &str,
) -> Result<Done, BenchFault>
    requires fits { Fits (offer_of registry.now) accepted.now.checked.grammar }
    requires table { initial accepted.now.checked.grammar ≡ whole accepted.now.table }
    requires writer { writer.old.failed ≡ false }
    ensures ok { IfOk result (IsLineOfText accepted.now.checked.grammar text.now name.now (W.contents writer.old.inner) (W.contents writer.new.inner)) }
    ensures err { IfErr result (IsWritingRefusal accepted.now.checked.grammar text.now) }
    ensures writer { IsErrOf result BenchFault.Writer → writer.new.failed ≡ true }
    ensures prefix { IsErrOf result BenchFault.Writer →
        IsPartlyLineOfText accepted.now.checked.grammar text.now name.now (W.contents writer.old.inner) (W.contents writer.new.inner) }
    ensures stays { OnOk result (writer.new.failed ≡ false) }
    ensures unwritten { IfErr result (λ fault. IsBeforeWriting fault → writer.new ≡ writer.old) }
{
    match pieces_of_text(alloc, accepted, registry, text, true, false) {
        Ok(pieces) => {
            let Pieces { json, rest, done } = pieces;
            drop(rest);
            match write_line(alloc, json, name, writer) {
                Ok(()) => Ok(done),
                Err(fault) => Err(fault),
            }
        }
        Err(fault) => Err(fault),
    }
}

/// Writes the line of a text with this name and the JSON of its forest.
fn write_line<W: Write>(
    alloc: Global,
    json: Json<'_>,
    name: &str,
    writer: &mut Meter<W>,
) -> Result<(), BenchFault>
    requires { writer.old.failed ≡ false }
    ensures ok { OnOk result (Appends (W.contents writer.old.inner) (W.contents writer.new.inner) (line_front name.now ++ (json_bytes json.entry ++ codes "}\n"))) }
    ensures stays { OnOk result (writer.new.failed ≡ false) }
    ensures err { IfErr result IsWriteRefusal }
    ensures failed { IsErrOf result BenchFault.Writer → writer.new.failed ≡ true }
    ensures prefix { IsErrOf result BenchFault.Writer →
        AppendsPrefix (W.contents writer.old.inner) (W.contents writer.new.inner) (line_front name.now ++ (json_bytes json.entry ++ codes "}\n")) }
    ensures memory { IsErrOf result BenchFault.Memory → writer.new ≡ writer.old }
{
    match line_front(alloc, name) {
        Ok(front) => {
            let written = write_after(front.as_slice(), json, writer);
            drop(front);
            written
        }
        Err(_) => {
            drop(json);
            Err(BenchFault::Memory)
        }
    }
}

/// Writes the front of a line, and then the JSON of a forest and the end of the line.
#[tactic(auto, using(pg_text_pieces::proofs::Puts::appends_both, pg_text_pieces::proofs::Puts::prefix_longer, crate::proofs::PiecesLemmas::prefix_of_both))]
fn write_after<W: Write>(
    front: &[u8],
    json: Json<'_>,
    writer: &mut Meter<W>,
) -> Result<(), BenchFault>
    requires { writer.old.failed ≡ false }
    ensures ok { OnOk result (Appends (W.contents writer.old.inner) (W.contents writer.new.inner) (front.now ++ (json_bytes json.entry ++ codes "}\n"))) }
    ensures stays { OnOk result (writer.new.failed ≡ false) }
    ensures only { OnErr result (IsErrOf result BenchFault.Writer) }
    ensures failed { OnErr result (writer.new.failed ≡ true) }
    ensures prefix { OnErr result
        (AppendsPrefix (W.contents writer.old.inner) (W.contents writer.new.inner) (front.now ++ (json_bytes json.entry ++ codes "}\n"))) }
{
    match write_page(front, writer) {
        Ok(()) => write_lines(json, b"}\n", writer),
        Err(fault) => {
            drop(json);
            Err(fault)
        }
    }
}

/// The part of a line before the trees of a text with this name.
fn line_front(alloc: Global, name: &str) -> Result<Vec<u8>, AllocError>
    ensures { IfOk result (λ front. front.items ≡ line_front name.now) }
{
    let name = quoted(alloc, name)?;
    let front = format!(in alloc; "{{\"file\":{name},\"trees\":")?;
    Ok(front.into_bytes())
}

/// The line of a text with this name that has no trees. `said` is the reason (ours). Fails where memory runs out.
pub fn error_line(alloc: Global, name: &str, said: &str) -> Result<String, AllocError>
    ensures { IfOk result (λ line. string_bytes line ≡ error_line_text name.now said.now) }
{
    let name = quoted(alloc, name)?;
    let said = quoted(alloc, said)?;
    let line = format!(in alloc; "{{\"file\":{name},\"error\":{said}}}\n")?;
    Ok(line)
}

/// The text in double quotes, with the escapes of JSON.
fn quoted(alloc: Global, text: &str) -> Result<String, AllocError>
    ensures { IfOk result (λ json. string_bytes json ≡ quoted text.now) }
{
    let text = String::from_str(alloc, text)?;
    Value::String(text).to_string(alloc)
}
