//! What is shown of a text: a page, and whether the answer is yes.
//!
//! Probing and replaying only differ in what they show of a text. The steps before that are here: the grammar file is read, then the text, and only then is
//! anything shown.

ghost use Rattle.std.specs.Prelude.{◌≡◌, ◌≤◌, ◌<◌, ◌+◌, ◌*◌, ℕ, List, Bool, false, true, length, IfOk, IfErr, OnOk, OnErr, IsErrOf};
ghost use Rattle.std.specs.Str.{chars, IsUtf8};
ghost use Rattle.std.specs.Io.KnownBytes.{Appends};
ghost use Rattle.pg_pred.specs.Offer.{offer_of};
ghost use Rattle.pg_grammar_value.specs.Fits.{Fits};
ghost use Rattle.pg_grammar_value.specs.Grammar.{Grammar};
ghost use Rattle.pg_table.specs.Tables.{initial, whole, ComesFrom};
ghost use Rattle.pg_tree.specs.Bytes.{AppendsPrefix};
ghost use Rattle.pg_tree.specs.Meter.{saturating_sum};
ghost use Rattle.pg_bench.specs.Parsed.{ReadsText};
ghost use Rattle.pg_bench.specs.Refusals.{IsShowRefusal, IsBytesRefusal, IsShowFault, IsShownRefusal, IsWell};
ghost use Rattle.pg_bench.specs.Showing.{IsShownBy, IsShownOf};

use crate::input::{read_text, text_of};
use pg_bench_grammar::{BenchFault, placed_of, write_page};
use pg_file_making::PlacedGrammar;
use pg_grammar_value::Grammar;
use pg_pred::Registry;
use pg_table::Table;
use pg_text::{LIMIT, Text};
use pg_tree::Meter;
use std::alloc::Global;
use std::io::{Read, Write};

/// The page about a text, and whether the answer is yes.
#[derive(Drop)]
pub struct Shown {
    pub accepted: bool,
    pub page: Vec<u8>,
}

/// A way to show texts.
pub trait ShowsText {
    /// What it may show of a text with a grammar, and whether the answer is yes.
    ghost Shows: { Self → Grammar → List ℕ → Bool → List ℕ → Type 0 };

    /// When it may fail because there is no trail.
    ghost NoTrail: { Self → Type 0 };

    /// Shows the text with the grammar under its initial table. Running out of memory is the only other fault.
    fn show(
        &self,
        alloc: Global,
        grammar: &Grammar,
        registry: &Registry,
        text: &Text,
        table: &Table,
    ) -> Result<Shown, BenchFault>
        requires fits { Fits (offer_of registry.now) grammar.now }
        requires initial { initial grammar.now ≡ whole table.now }
        requires comes { ComesFrom grammar.now table.now }
        ensures ok { IfOk result (λ shown. Shows self.now grammar.now text.now shown.accepted shown.page.items) }
        ensures err { IfErr result (IsShowRefusal (NoTrail self.now)) };
}

/// Writes the page about a text, and answers whether it says yes.
pub fn write_shown<W: Write>(shown: &Shown, writer: &mut Meter<W>) -> Result<bool, BenchFault>
    requires { writer.old.failed ≡ false }
    ensures accepted { IfOk result (λ accepted. accepted ≡ shown.now.accepted) }
    ensures ok { OnOk result (Appends (W.contents writer.old.inner) (W.contents writer.new.inner) shown.now.page.items) }
    ensures stays { OnOk result (writer.new.failed ≡ false) }
    ensures only { OnErr result (IsErrOf result BenchFault.Writer) }
    ensures failed { OnErr result (writer.new.failed ≡ true) }
    ensures prefix { OnErr result (AppendsPrefix (W.contents writer.old.inner) (W.contents writer.new.inner) shown.now.page.items) }
{
    match write_page(shown.page.as_slice(), writer) {
        Ok(()) => Ok(shown.accepted),
        Err(fault) => Err(fault),
    }
}

/// The page about the text that a reader gives, with the grammar that a file spells.
#[tactic(auto, using(crate::proofs::ShownTexts::file_refused))]
pub fn shown_of_files<S: ShowsText, R: Read>(
    alloc: Global,
    grammar: &[u8],
    registry: &Registry,
    shower: &S,
    reader: &mut Meter<R>,
) -> Result<Shown, BenchFault>
    requires { reader.old.failed ≡ false }
    ensures ok { IfOk result (λ shown. IsShownBy (S.Shows shower.now) (offer_of registry.now) grammar.now
        (R.remaining reader.old.inner) (R.remaining reader.new.inner) shown.accepted shown.page.items) }
    ensures well { OnOk result (IsWell reader.old reader.new) }
    ensures err { IfErr result (IsShownRefusal (S.NoTrail shower.now) (offer_of registry.now) grammar.now reader.old reader.new
        (R.remaining reader.old.inner) (R.remaining reader.new.inner)) }
    ensures asked { reader.new.calls ≤ saturating_sum reader.old.calls (4 * LIMIT + 1) }
{
    let placed = placed_of(alloc, grammar, registry)?;
    let shown = shown_of_reader(alloc, &placed, registry, shower, reader);
    drop(placed);
    shown
}

/// The page about the text that a reader gives.
#[tactic(auto, using(crate::proofs::ShownTexts::read_unshown, crate::proofs::ShownTexts::bytes_unshown))]
pub fn shown_of_reader<S: ShowsText, R: Read>(
    alloc: Global,
    placed: &PlacedGrammar,
    registry: &Registry,
    shower: &S,
    reader: &mut Meter<R>,
) -> Result<Shown, BenchFault>
    requires fits { Fits (offer_of registry.now) placed.now.grammar }
    requires table { initial placed.now.grammar ≡ whole placed.now.table }
    requires reader { reader.old.failed ≡ false }
    ensures ok { IfOk result (λ shown. ReadsText (R.remaining reader.old.inner) (R.remaining reader.new.inner)
        (λ bytes. IsShownOf (S.Shows shower.now placed.now.grammar) bytes shown.accepted shown.page.items)) }
    ensures well { OnOk result (IsWell reader.old reader.new) }
    ensures err { IfErr result (IsShowFault (S.NoTrail shower.now) reader.old reader.new (R.remaining reader.old.inner) (R.remaining reader.new.inner)) }
    ensures asked { reader.new.calls ≤ saturating_sum reader.old.calls (4 * LIMIT + 1) }
{
    let bytes = read_text(alloc, reader)?;
    shown_of(alloc, placed, registry, shower, bytes.as_slice())
}

/// The page about the text that the bytes spell.
#[tactic(auto, using(crate::proofs::ShownTexts::shown_bytes, crate::proofs::ShownTexts::text_unshown, crate::proofs::ShownTexts::show_unshown))]
fn shown_of<S: ShowsText>(
    alloc: Global,
    placed: &PlacedGrammar,
    registry: &Registry,
    shower: &S,
    bytes: &[u8],
) -> Result<Shown, BenchFault>
    requires fits { Fits (offer_of registry.now) placed.now.grammar }
    requires table { initial placed.now.grammar ≡ whole placed.now.table }
    ensures ok { IfOk result (λ shown. IsShownOf (S.Shows shower.now placed.now.grammar) bytes.now shown.accepted shown.page.items) }
    ensures err { IfErr result (IsBytesRefusal (S.NoTrail shower.now) bytes.now) }
{
    let text = text_of(alloc, bytes)?;
    shown_of_text(alloc, placed, registry, shower, &text)
}

/// The page about a text.
fn shown_of_text<S: ShowsText>(
    alloc: Global,
    placed: &PlacedGrammar,
    registry: &Registry,
    shower: &S,
    text: &Text,
) -> Result<Shown, BenchFault>
    requires fits { Fits (offer_of registry.now) placed.now.grammar }
    requires table { initial placed.now.grammar ≡ whole placed.now.table }
    ensures ok { IfOk result (λ shown. S.Shows shower.now placed.now.grammar text.now shown.accepted shown.page.items) }
    ensures err { IfErr result (IsShowRefusal (S.NoTrail shower.now)) }
{
    shower.show(alloc, &placed.grammar, registry, text, &placed.table)
}
