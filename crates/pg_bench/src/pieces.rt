//! What is written of a text: its forest, and what comes after the forest's JSON.
//!
//! Where no trail is wanted, the quick run is asked first, and the machine only where that says nothing. So on this way nobody sees a trail that isn't written.
//! The pieces borrow the text, since the JSON of a quick run's forest is made of it while it is written.

ghost use Rattle.std.specs.Prelude.{◌≡◌, false, codes, IfOk, IfErr, OnOk};
ghost use Rattle.pg_pred.specs.Offer.{offer_of};
ghost use Rattle.pg_grammar_value.specs.Fits.{Fits};
ghost use Rattle.pg_table.specs.Tables.{initial, whole};
ghost use Rattle.pg_bench.specs.Promise.{IsForestOfText};
ghost use Rattle.pg_bench.specs.Parsed.{AreJsonPieces, json_if, IfRead, after_forest};
ghost use Rattle.pg_bench.specs.Pieces.{json_bytes};
ghost use Rattle.pg_bench.specs.Refusals.{IsRunRefusal};

use crate::done::Done;
use crate::json::Json;
use crate::outcome_page::json_page;
use crate::parse::{Parse, after_forest, parse_of_text};
use crate::quick::{ForestParse, quick_parse};
use crate::refused::unplanned_refusal;
use pg_bench_grammar::{AcceptedGrammar, BenchFault};
use pg_pred::Registry;
use pg_text::Text;
use pg_tree::Forest;
use pg_tree_placed::{PlacedForest, PlacedText};
use std::alloc::{AllocError, Global};

/// What is written of a text, and the cost of its parse.
#[derive(Drop)]
pub(crate) struct Pieces<'a> {
    /// The JSON of the forest, if it is wanted; otherwise nothing.
    pub json: Json<'a>,
    /// What is written after it.
    pub rest: Vec<u8>,
    /// The cost of the parse.
    pub done: Done,
}

/// The pieces of a text. The caller ensures the same as for `parse_checked`.
pub(crate) fn pieces_of_text<'a>(
    alloc: Global,
    accepted: &AcceptedGrammar,
    registry: &Registry,
    text: &'a Text,
    with_json: bool,
    with_trail: bool,
) -> Result<Pieces<'a>, BenchFault>
    requires fits { Fits (offer_of registry.now) accepted.now.checked.grammar }
    requires table { initial accepted.now.checked.grammar ≡ whole accepted.now.table }
    ensures ok { IfOk result (λ p. AreJsonPieces (IsForestOfText accepted.now.checked.grammar text.now) with_json with_trail (json_bytes p.json) p.rest.items p.done) }
    ensures err { IfErr result (IsRunRefusal accepted.now.checked.grammar text.now) }
{
    if with_trail {
        all_pieces(alloc, accepted, registry, text, with_json, true)
    } else {
        bare_pieces(alloc, accepted, registry, text, with_json)
    }
}

/// Those of a text whose trail isn't wanted.
#[tactic(auto, using(crate::proofs::PiecesLemmas::quick_pieces))]
fn bare_pieces<'a>(
    alloc: Global,
    accepted: &AcceptedGrammar,
    registry: &Registry,
    text: &'a Text,
    with_json: bool,
) -> Result<Pieces<'a>, BenchFault>
    requires fits { Fits (offer_of registry.now) accepted.now.checked.grammar }
    requires table { initial accepted.now.checked.grammar ≡ whole accepted.now.table }
    ensures ok { IfOk result (λ p. AreJsonPieces (IsForestOfText accepted.now.checked.grammar text.now) with_json false (json_bytes p.json) p.rest.items p.done) }
    ensures err { IfErr result (IsRunRefusal accepted.now.checked.grammar text.now) }
{
    match quick_parse(alloc, accepted, text) {
        Ok(Some(parse)) => pieces_of_forest(alloc, parse, with_json),
        Ok(None) => unplanned_pieces(alloc, accepted, registry, text, with_json),
        Err(_) => Err(BenchFault::Memory),
    }
}

/// Those of a text whose trail isn't wanted, and of which no plan said anything.
fn unplanned_pieces<'a>(
    alloc: Global,
    accepted: &AcceptedGrammar,
    registry: &Registry,
    text: &'a Text,
    with_json: bool,
) -> Result<Pieces<'a>, BenchFault>
    requires fits { Fits (offer_of registry.now) accepted.now.checked.grammar }
    requires table { initial accepted.now.checked.grammar ≡ whole accepted.now.table }
    ensures ok { IfOk result (λ p. AreJsonPieces (IsForestOfText accepted.now.checked.grammar text.now) with_json false (json_bytes p.json) p.rest.items p.done) }
    ensures err { IfErr result (IsRunRefusal accepted.now.checked.grammar text.now) }
{
    match unplanned_refusal(alloc, accepted, registry, text) {
        Ok(()) => all_pieces(alloc, accepted, registry, text, with_json, false),
        Err(fault) => Err(fault),
    }
}

/// Those of a forest with no trail: a line feed comes after its JSON.
fn pieces_of_forest<'a>(
    alloc: Global,
    parse: ForestParse<'a>,
    with_json: bool,
) -> Result<Pieces<'a>, BenchFault>
    ensures ok { IfOk result (λ p. (json_bytes p.json ≡ json_if with_json parse.entry.forest) × (p.rest.items ≡ codes "\n") × (p.done ≡ parse.entry.done)) }
    ensures err { IfErr result (λ fault. fault ≡ BenchFault.Memory) }
{
    match made_quickly(alloc, parse, with_json) {
        Ok(pieces) => Ok(pieces),
        Err(_) => Err(BenchFault::Memory),
    }
}

/// The same, where the only error is running out of memory.
fn made_quickly<'a>(
    alloc: Global,
    parse: ForestParse<'a>,
    with_json: bool,
) -> Result<Pieces<'a>, AllocError>
    ensures { IfOk result (λ p. (json_bytes p.json ≡ json_if with_json parse.entry.forest) × (p.rest.items ≡ codes "\n") × (p.done ≡ parse.entry.done)) }
{
    let ForestParse { forest, done } = parse;
    let json = quick_json(alloc, forest, with_json)?;
    let rest = Vec::from_slice(alloc, b"\n")?;
    Ok(Pieces { json, rest, done })
}

/// The JSON of a forest over its text, if it is wanted.
fn quick_json<'a>(
    alloc: Global,
    forest: PlacedForest<'a>,
    with_json: bool,
) -> Result<Json<'a>, AllocError>
    ensures { IfOk result (λ json. json_bytes json ≡ json_if with_json forest.entry) }
{
    if with_json {
        let text = PlacedText::new(alloc, forest)?;
        Ok(Json::Placed(text))
    } else {
        drop(forest);
        Ok(Json::Whole(Vec::new(alloc)))
    }
}

/// Those of a text by the machine.
#[tactic(auto, using(crate::proofs::PiecesLemmas::run_pieces))]
fn all_pieces<'a>(
    alloc: Global,
    accepted: &AcceptedGrammar,
    registry: &Registry,
    text: &'a Text,
    with_json: bool,
    with_trail: bool,
) -> Result<Pieces<'a>, BenchFault>
    requires fits { Fits (offer_of registry.now) accepted.now.checked.grammar }
    requires table { initial accepted.now.checked.grammar ≡ whole accepted.now.table }
    ensures ok { IfOk result (λ p. AreJsonPieces (IsForestOfText accepted.now.checked.grammar text.now) with_json with_trail (json_bytes p.json) p.rest.items p.done) }
    ensures err { IfErr result (IsRunRefusal accepted.now.checked.grammar text.now) }
{
    match parse_of_text(alloc, accepted, registry, text) {
        Ok(parse) => pieces_of_parse(alloc, parse, with_json, with_trail),
        Err(fault) => Err(fault),
    }
}

/// Those of a parse: a line feed comes after the forest's JSON, and the trail on a line of its own if it is wanted.
fn pieces_of_parse<'a>(
    alloc: Global,
    parse: Parse,
    with_json: bool,
    with_trail: bool,
) -> Result<Pieces<'a>, BenchFault>
    ensures ok { IfOk result (λ p. (json_bytes p.json ≡ json_if with_json parse.success.forest) × (p.done ≡ parse.done) × (p.rest.items ≡ after_forest with_trail parse.success.trail)) }
    ensures read { OnOk result (IfRead with_trail parse.success.trail) }
    ensures err { IfErr result (λ fault. fault ≡ BenchFault.Memory) }
{
    let made = made_by_run(alloc, &parse, with_json, with_trail);
    drop(parse);
    match made {
        Ok(pieces) => Ok(pieces),
        Err(_) => Err(BenchFault::Memory),
    }
}

/// The same, where the only error is running out of memory.
fn made_by_run<'a>(
    alloc: Global,
    parse: &Parse,
    with_json: bool,
    with_trail: bool,
) -> Result<Pieces<'a>, AllocError>
    ensures ok { IfOk result (λ p. (json_bytes p.json ≡ json_if with_json parse.now.success.forest) × (p.done ≡ parse.now.done) × (p.rest.items ≡ after_forest with_trail parse.now.success.trail)) }
    ensures read { OnOk result (IfRead with_trail parse.now.success.trail) }
{
    let rest = after_forest(alloc, &parse.success.trail, with_trail)?;
    let json = run_json(alloc, &parse.success.forest, with_json)?;
    Ok(Pieces {
        json,
        rest,
        done: parse.done,
    })
}

/// The JSON of a forest, if it is wanted.
fn run_json<'a>(alloc: Global, forest: &Forest, with_json: bool) -> Result<Json<'a>, AllocError>
    ensures { IfOk result (λ json. json_bytes json ≡ json_if with_json forest.now) }
{
    if with_json {
        let page = json_page(alloc, forest)?;
        Ok(Json::Whole(page))
    } else {
        Ok(Json::Whole(Vec::new(alloc)))
    }
}
