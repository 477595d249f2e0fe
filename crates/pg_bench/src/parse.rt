//! From the bytes of a grammar file and of a text to the bytes of the text's forest, and of the trail of its derivation.
//!
//! The steps come one after another: the grammar file is read and its grammar checked, then the text is read, then it is parsed, and only then is anything
//! written. So if a step fails, nothing has been read or written that belongs to a later one. `parse_checked` does the steps after the first, for a grammar
//! that is read once for many texts, and `parsed_text` does these without the last.

ghost use Rattle.std.specs.Prelude.{◌≡◌, ◌≤◌, ◌<◌, ◌+◌, ◌*◌, ◌⊎◌, false, true, length, Some, IfOk, IfErr, OnOk, IsErrOf};
ghost use Rattle.std.specs.Str.{chars, IsUtf8};
ghost use Rattle.pg_pred.specs.Offer.{offer_of};
ghost use Rattle.pg_grammar_value.specs.Fits.{Fits};
ghost use Rattle.pg_tree.specs.Meter.{saturating_sum};
ghost use Rattle.pg_table.specs.Tables.{initial, whole};
ghost use Rattle.pg_bench.specs.Promise.{IsAccepted, IsForestOfText, most_steps};
ghost use Rattle.pg_bench_grammar.specs.Files.{AreFindingsOf, IsFaultOfFile, SpellsSome};
ghost use Rattle.pg_bench.specs.Parsed.{IsParsed, IsParsedBy, IsForestBy, HasForestBy, IsForestOfBytes, IsErrorOf, IsErrorBy, IsSpelledBy, ReadsText, IsPartlyWritten, IsPartlyParsedBy, after_forest, IfRead};
ghost use Rattle.pg_bench_grammar.specs.Faults.{IfRefused, IfParseError, IfNotATrail, IfNotVerified, IsBeforeReading, IsAfterFile, IsAfterReading, IfFile, IsBeforeWriting};
ghost use Rattle.pg_bench.specs.Pieces.{IsCostOfText};
ghost use Rattle.pg_bench.specs.Refusals.{IsErrorOfAnswer, IsTextFault, IsParseRefusal, IsRunRefusal, IsWell};

use crate::done::Done;
use crate::input::{read_text, text_from, text_of};
use crate::pieces::pieces_of_text;
use crate::writing::write_parse;
use pg_bench_grammar::{AcceptedGrammar, BenchFault, accepted_of};
use pg_grammar_value::Trail;
use pg_machine::{Answer, Success, run};
use pg_pred::Registry;
use pg_predict::Checked;
use pg_table::Table;
use pg_text::{LIMIT, Text};
use pg_trail::write_trail;
use pg_tree::Meter;
use std::alloc::{AllocError, Global};
use std::io::{Read, Write};

/// What a run of a text returns, and its cost.
#[derive(Drop)]
pub struct Parse {
    /// What the run returns.
    pub success: Success,
    /// The cost of the run.
    pub done: Done,
}

/// A text with its parse.
#[derive(Drop)]
pub struct ParsedText {
    /// The text.
    pub text: Text,
    /// Its parse.
    pub parse: Parse,
}

/// Parses the text that a reader gives by the grammar that a file spells, and writes the forest's JSON and a line feed; `with_trail` also the JSON of the
/// derivation's trail and a line feed. Whatever takes memory is done before the first byte is written. Only a grammar without findings is run. Then a text
/// has a forest exactly where the grammar derives it under its initial table. That forest is written, and there is no second derivation. The answer has the
/// steps of the run and the grammar's step cost: for a text of n characters, the steps are at most the cost times n + 1. The registry has the predicates and
/// builders that the file may name.
///
/// Neither meter must have failed yet. The faults come in the order of [`BenchFault`]. A fault of the file, and `Refused` with all findings of its grammar,
/// come before the reader is asked at all. Then come the reader's fault, those of its bytes, `ParseError` if the grammar doesn't derive the text, and the
/// writer's. Up to `ParseError`, and where memory runs out, nothing is written. A text of over 4,194,304 bytes can't have only 1,048,576 characters, so no
/// more is read of it.
pub fn parse_bytes<R: Read, W: Write>(
    alloc: Global,
    grammar: &[u8],
    registry: &Registry,
    reader: &mut Meter<R>,
    writer: &mut Meter<W>,
    with_trail: bool,
) -> Result<Done, BenchFault>
    requires reader { reader.old.failed ≡ false }
    requires writer { writer.old.failed ≡ false }

    // The whole of the reader's bytes is a text that the grammar derives, in one way, and its forest was written, with the trail
    // where it is asked for. The steps that it took are within the grammar's step cost for each character and for the end.
    ensures ok { IfOk result (IsParsed (offer_of registry.now) grammar.now (R.remaining reader.old.inner) (R.remaining reader.new.inner) with_trail
        (W.contents writer.old.inner) (W.contents writer.new.inner)) }

    // A fault of the file comes first, and every other one only where the file spells a grammar: one that is refused with all
    // its findings, or else an accepted one.
    ensures file { IfErr result (IfFile (IsFaultOfFile (offer_of registry.now) grammar.now)) }
    ensures refused { IfErr result (IfRefused (AreFindingsOf (offer_of registry.now) grammar.now)) }
    ensures unread { IfErr result (λ fault. IsBeforeReading fault → reader.new ≡ reader.old) }
    ensures accepted { IfErr result (λ fault. IsAfterFile fault → SpellsSome IsAccepted (offer_of registry.now) grammar.now) }

    // The reader failed, or gave more than the limit.
    ensures reader { IsErrOf result BenchFault.Reader →
        (reader.new.failed ≡ true) ⊎ (saturating_sum reader.old.bytes (4 * LIMIT + 1) ≤ reader.new.bytes) }

    // What is wrong with the bytes that the reader gave, in this order.
    ensures not_utf8 { IsErrOf result BenchFault.NotUtf8 →
        ReadsText (R.remaining reader.old.inner) (R.remaining reader.new.inner) (λ bytes. ¬ (IsUtf8 bytes)) }
    ensures too_long { IsErrOf result BenchFault.TooLong →
        ReadsText (R.remaining reader.old.inner) (R.remaining reader.new.inner) (λ bytes. IsUtf8 bytes × (LIMIT < length (chars bytes))) }

    // Nothing derives the text, and the error is the start rule's, or that of the end after it.
    ensures parse_error { IfErr result (IfParseError (IsErrorOf (offer_of registry.now) grammar.now
        (R.remaining reader.old.inner) (R.remaining reader.new.inner))) }

    // No trail is read.
    ensures no_trail { IfErr result (IfNotATrail ⊥) }
    ensures no_certificate { IfErr result (IfNotVerified (λ verdict. ⊥)) }

    // In every other case the reader didn't fail, and didn't give more.
    ensures reader_stays { OnOk result (reader.new.failed ≡ false) }
    ensures reader_well { IfErr result (λ fault. IsAfterReading fault → reader.new.failed ≡ false) }
    ensures short { OnOk result (reader.new.bytes ≤ saturating_sum reader.old.bytes (4 * LIMIT)) }
    ensures short_too { IfErr result (λ fault. IsAfterReading fault → reader.new.bytes ≤ saturating_sum reader.old.bytes (4 * LIMIT)) }

    // The writer failed after a prefix of what it was to be given, and in every other case was given nothing.
    ensures writer { IsErrOf result BenchFault.Writer → writer.new.failed ≡ true }
    ensures prefix { IsErrOf result BenchFault.Writer → IsPartlyWritten (offer_of registry.now) grammar.now (R.remaining reader.old.inner) (R.remaining reader.new.inner) with_trail
        (W.contents writer.old.inner) (W.contents writer.new.inner) }
    ensures writer_stays { OnOk result (writer.new.failed ≡ false) }
    ensures unwritten { IfErr result (λ fault. IsBeforeWriting fault → writer.new ≡ writer.old) }

    ensures asked { reader.new.calls ≤ saturating_sum reader.old.calls (4 * LIMIT + 1) }
{
    let accepted = accepted_of(alloc, grammar, registry)?;
    let done = parse_checked(alloc, &accepted, registry, reader, writer, with_trail);
    drop(accepted);
    done
}

/// As [`parse_bytes`], for a grammar that is loaded already, so that it is read and checked once for many texts. The caller ensures that the registry has
/// what the grammar names in it, and that the table is its own. Faults of a file and findings don't occur.
pub fn parse_checked<R: Read, W: Write>(
    alloc: Global,
    accepted: &AcceptedGrammar,
    registry: &Registry,
    reader: &mut Meter<R>,
    writer: &mut Meter<W>,
    with_trail: bool,
) -> Result<Done, BenchFault>
    requires fits { Fits (offer_of registry.now) accepted.now.checked.grammar }
    requires table { initial accepted.now.checked.grammar ≡ whole accepted.now.table }
    requires reader { reader.old.failed ≡ false }
    requires writer { writer.old.failed ≡ false }

    // The whole of the reader's bytes is a text that the grammar derives, in one way, and its forest was written, with the trail
    // where it is asked for. The steps that it took are within the grammar's step cost for each character and for the end.
    ensures ok { IfOk result (IsParsedBy accepted.now.checked.grammar (R.remaining reader.old.inner) (R.remaining reader.new.inner) with_trail
        (W.contents writer.old.inner) (W.contents writer.new.inner)) }

    // No file is read, and no grammar is refused.
    ensures no_file { IfErr result (IfFile (λ fault. ⊥)) }
    ensures unchecked { IfErr result (IfRefused (λ findings. ⊥)) }

    // The reader failed, or gave more than the limit.
    ensures reader { IsErrOf result BenchFault.Reader →
        (reader.new.failed ≡ true) ⊎ (saturating_sum reader.old.bytes (4 * LIMIT + 1) ≤ reader.new.bytes) }

    // What is wrong with the bytes that the reader gave, in this order.
    ensures not_utf8 { IsErrOf result BenchFault.NotUtf8 →
        ReadsText (R.remaining reader.old.inner) (R.remaining reader.new.inner) (λ bytes. ¬ (IsUtf8 bytes)) }
    ensures too_long { IsErrOf result BenchFault.TooLong →
        ReadsText (R.remaining reader.old.inner) (R.remaining reader.new.inner) (λ bytes. IsUtf8 bytes × (LIMIT < length (chars bytes))) }

    // Nothing derives the text, and the error is the start rule's, or that of the end after it.
    ensures parse_error { IfErr result (IfParseError (IsErrorBy accepted.now.checked.grammar
        (R.remaining reader.old.inner) (R.remaining reader.new.inner))) }

    // No trail is read.
    ensures no_trail { IfErr result (IfNotATrail ⊥) }
    ensures no_certificate { IfErr result (IfNotVerified (λ verdict. ⊥)) }

    // In every other case the reader didn't fail, and didn't give more.
    ensures reader_stays { OnOk result (reader.new.failed ≡ false) }
    ensures reader_well { IfErr result (λ fault. IsAfterReading fault → reader.new.failed ≡ false) }
    ensures short { OnOk result (reader.new.bytes ≤ saturating_sum reader.old.bytes (4 * LIMIT)) }
    ensures short_too { IfErr result (λ fault. IsAfterReading fault → reader.new.bytes ≤ saturating_sum reader.old.bytes (4 * LIMIT)) }

    // The writer failed after a prefix of what it was to be given, and in every other case was given nothing.
    ensures writer { IsErrOf result BenchFault.Writer → writer.new.failed ≡ true }
    ensures prefix { IsErrOf result BenchFault.Writer → IsPartlyParsedBy accepted.now.checked.grammar (R.remaining reader.old.inner) (R.remaining reader.new.inner) with_trail
        (W.contents writer.old.inner) (W.contents writer.new.inner) }
    ensures writer_stays { OnOk result (writer.new.failed ≡ false) }
    ensures unwritten { IfErr result (λ fault. IsBeforeWriting fault → writer.new ≡ writer.old) }

    ensures asked { reader.new.calls ≤ saturating_sum reader.old.calls (4 * LIMIT + 1) }
{
    match write_parse(alloc, accepted, registry, reader, writer, with_trail) {
        Ok(done) => Ok(done),
        Err(fault) => Err(fault),
    }
}

/// The cost of a parse of the text that a reader gives, for whoever writes nothing of its trees (ours). The caller ensures the same as for [`parsed_text`], and
/// the faults are the same.
#[tactic(auto, using(crate::proofs::ReadTexts::cost_read, crate::proofs::ReadTexts::unspelled_refused, crate::proofs::ReadTexts::run_refused))]
pub fn parse_cost<R: Read>(
    alloc: Global,
    accepted: &AcceptedGrammar,
    registry: &Registry,
    reader: &mut Meter<R>,
) -> Result<Done, BenchFault>
    requires fits { Fits (offer_of registry.now) accepted.now.checked.grammar }
    requires table { initial accepted.now.checked.grammar ≡ whole accepted.now.table }
    requires reader { reader.old.failed ≡ false }
    ensures ok { IfOk result (HasForestBy accepted.now.checked.grammar (R.remaining reader.old.inner) (R.remaining reader.new.inner)) }
    ensures err { IfErr result (IsTextFault accepted.now.checked.grammar reader.old reader.new (R.remaining reader.old.inner) (R.remaining reader.new.inner)) }
    ensures asked { reader.new.calls ≤ saturating_sum reader.old.calls (4 * LIMIT + 1) }
{
    match text_from(alloc, reader) {
        Ok(text) => {
            let done = cost_of_text(alloc, accepted, registry, &text);
            drop(text);
            done
        }
        Err(fault) => Err(fault),
    }
}

/// The cost of a parse of a text. Nothing is made of its JSON.
#[tactic(auto, using(crate::proofs::PiecesLemmas::cost_of_pieces))]
fn cost_of_text(
    alloc: Global,
    accepted: &AcceptedGrammar,
    registry: &Registry,
    text: &Text,
) -> Result<Done, BenchFault>
    requires fits { Fits (offer_of registry.now) accepted.now.checked.grammar }
    requires table { initial accepted.now.checked.grammar ≡ whole accepted.now.table }
    ensures ok { IfOk result (IsCostOfText accepted.now.checked.grammar text.now) }
    ensures err { IfErr result (IsRunRefusal accepted.now.checked.grammar text.now) }
{
    match pieces_of_text(alloc, accepted, registry, text, false, false) {
        Ok(pieces) => {
            let done = pieces.done;
            drop(pieces);
            Ok(done)
        }
        Err(fault) => Err(fault),
    }
}

/// The text that a reader gives, with its parse by a grammar that is loaded already. The meter must not have failed yet, and the caller ensures the same as
/// for [`parse_checked`]. The faults are the reader's, those of its bytes, and `ParseError` if the grammar doesn't derive the text. A text of over 4,194,304
/// bytes can't have only 1,048,576 characters, so no more is read of it.
#[tactic(auto, using(crate::proofs::Parses::read_refused, crate::proofs::Parses::parse_refused))]
pub fn parsed_text<R: Read>(
    alloc: Global,
    accepted: &AcceptedGrammar,
    registry: &Registry,
    reader: &mut Meter<R>,
) -> Result<ParsedText, BenchFault>
    requires fits { Fits (offer_of registry.now) accepted.now.checked.grammar }
    requires table { initial accepted.now.checked.grammar ≡ whole accepted.now.table }
    requires reader { reader.old.failed ≡ false }

    // The whole of the reader's bytes is this text, which the grammar derives, in one way, to this forest.
    ensures ok { IfOk result (λ p. IsForestBy accepted.now.checked.grammar (R.remaining reader.old.inner) (R.remaining reader.new.inner)
        p.parse.success.forest p.parse.success.trail p.parse.done) }
    ensures text { IfOk result (λ p. ReadsText (R.remaining reader.old.inner) (R.remaining reader.new.inner) (λ bytes. IsSpelledBy bytes p.text)) }

    // The reader didn't fail, and didn't give more than the limit.
    ensures well { OnOk result (IsWell reader.old reader.new) }
    ensures err { IfErr result (IsTextFault accepted.now.checked.grammar reader.old reader.new (R.remaining reader.old.inner) (R.remaining reader.new.inner)) }
    ensures asked { reader.new.calls ≤ saturating_sum reader.old.calls (4 * LIMIT + 1) }
{
    let bytes = read_text(alloc, reader)?;
    parse_of(alloc, accepted, registry, bytes.as_slice())
}

/// The text that bytes spell, with its parse.
#[tactic(auto, using(crate::proofs::Parses::bytes_forest, crate::proofs::Parses::bytes_refused, crate::proofs::Parses::text_refused))]
fn parse_of(
    alloc: Global,
    accepted: &AcceptedGrammar,
    registry: &Registry,
    bytes: &[u8],
) -> Result<ParsedText, BenchFault>
    requires fits { Fits (offer_of registry.now) accepted.now.checked.grammar }
    requires table { initial accepted.now.checked.grammar ≡ whole accepted.now.table }
    ensures ok { IfOk result (λ p. IsForestOfBytes accepted.now.checked.grammar bytes.now p.parse.success.forest p.parse.success.trail p.parse.done) }
    ensures text { IfOk result (λ p. IsSpelledBy bytes.now p.text) }
    ensures err { IfErr result (IsParseRefusal accepted.now.checked.grammar bytes.now) }
{
    let text = text_of(alloc, bytes)?;
    match parse_of_text(alloc, accepted, registry, &text) {
        Ok(parse) => Ok(ParsedText { text, parse }),
        Err(fault) => {
            drop(text);
            Err(fault)
        }
    }
}

/// The parse of a text.
pub(crate) fn parse_of_text(
    alloc: Global,
    accepted: &AcceptedGrammar,
    registry: &Registry,
    text: &Text,
) -> Result<Parse, BenchFault>
    requires fits { Fits (offer_of registry.now) accepted.now.checked.grammar }
    requires table { initial accepted.now.checked.grammar ≡ whole accepted.now.table }
    ensures ok { IfOk result (λ p. IsForestOfText accepted.now.checked.grammar text.now p.success.forest p.success.trail p.done) }
    ensures err { IfErr result (IsRunRefusal accepted.now.checked.grammar text.now) }
{
    let checked = accepted.checked.as_checked();
    run_of_text(alloc, checked, &accepted.table, registry, text)
}

/// The parse of a text by a checked grammar, with its initial table.
#[tactic(auto, using(crate::proofs::Parses::found_forest, crate::proofs::Parses::found_refused, pg_table::proofs::Added::own_table))]
fn run_of_text(
    alloc: Global,
    checked: &Checked,
    table: &Table,
    registry: &Registry,
    text: &Text,
) -> Result<Parse, BenchFault>
    requires fits { Fits (offer_of registry.now) checked.now.grammar }
    requires table { initial checked.now.grammar ≡ whole table.now }
    ensures ok { IfOk result (λ p. IsForestOfText checked.now.grammar text.now p.success.forest p.success.trail p.done) }
    ensures err { IfErr result (IsRunRefusal checked.now.grammar text.now) }
{
    match run(alloc, checked, text, table, registry) {
        Ok(answer) => parse_of_answer(answer, checked.cost(), text.len() + 1),
        Err(_) => Err(BenchFault::Memory),
    }
}

/// The parse from an ok answer to a text with this many places, its end among them, with its steps, or the error of another answer.
fn parse_of_answer(answer: Answer, cost: u64, places: usize) -> Result<Parse, BenchFault>
    ensures ok { IfOk result (λ p. answer.success ≡ Some p.success) }
    ensures done { IfOk result (λ p. p.done ≡ record { steps = answer.steps; cost = cost; most = most_steps cost places; planned = false }) }
    ensures err { IfErr result (IsErrorOfAnswer answer) }
{
    let Answer {
        error,
        steps,
        success,
        ..
    } = answer;
    match success {
        Some(success) => {
            drop(error);
            let most = cost.saturating_mul(places as u64);
            let planned = false;
            let done = Done {
                steps,
                cost,
                most,
                planned,
            };
            Ok(Parse { success, done })
        }
        None => Err(BenchFault::ParseError(error)),
    }
}

/// What is written after the forest's JSON: a line feed, and the trail on a line of its own if it is wanted.
pub(crate) fn after_forest(
    alloc: Global,
    trail: &Trail,
    with_trail: bool,
) -> Result<Vec<u8>, AllocError>
    ensures text { IfOk result (λ rest. rest.items ≡ after_forest with_trail trail.now) }
    ensures read { OnOk result (IfRead with_trail trail.now) }
{
    let mut rest = Vec::from_slice(alloc, b"\n")?;
    if with_trail {
        let trail = write_trail(alloc, trail)?;
        rest.extend_from_slice(trail.as_slice())?;
        rest.push(b'\n')?;
    }
    Ok(rest)
}
