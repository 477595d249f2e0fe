//! The pages about a run's outcome, and about a trail.

ghost use Rattle.std.specs.Prelude.{◌≡◌, ◌++◌, codes, IfOk};
ghost use Rattle.std.specs.String.{string_bytes};
ghost use Rattle.pg_message.specs.Printed.{printed};
ghost use Rattle.pg_tree.specs.Json.{json};
ghost use Rattle.pg_bench.specs.Replaying.{mismatch_text, item_text, stop_text};
ghost use Rattle.pg_bench.specs.Probing.{consumption, ok_text, error_text, answer_text, outcome_text, is_some, is_ok_outcome};

use pg_machine::{Answer, Outcome, Success};
use pg_message::{ParseError, render};
use pg_text::{Pos, Text};
use pg_trail_replay::{Mismatch, Stop};
use pg_tree::{Forest, Meter, write_bytes, write_json};
use std::alloc::{AllocError, Global};

/// Whether the outcome is an ok answer.
pub fn is_ok(outcome: &Outcome) -> bool
    ensures { result ≡ is_ok_outcome outcome.now }
{
    match outcome {
        Outcome::Answered(answer) => answer.success.is_some(),
        Outcome::StepsUsed | Outcome::EmptyRound => false,
    }
}

/// The page about an outcome on a text with this name. Fails where memory runs out.
pub fn page_of(alloc: Global, outcome: &Outcome, name: &str) -> Result<Vec<u8>, AllocError>
    ensures { IfOk result (λ page. page.items ≡ outcome_text outcome.now name.now) }
{
    match outcome {
        Outcome::Answered(answer) => answer_page(alloc, answer, name),
        Outcome::StepsUsed => Vec::from_slice(alloc, b"P5 steps used up\n"),
        Outcome::EmptyRound => Vec::from_slice(alloc, b"P6 empty repetition\n"),
    }
}

fn answer_page(alloc: Global, answer: &Answer, name: &str) -> Result<Vec<u8>, AllocError>
    ensures { IfOk result (λ page. page.items ≡ answer_text answer.now.consumed answer.now.error answer.now.success name.now) }
{
    match &answer.success {
        Some(success) => ok_page(alloc, answer.consumed, success),
        None => error_page(alloc, answer.consumed, &answer.error, name),
    }
}

fn ok_page(alloc: Global, consumed: bool, success: &Success) -> Result<Vec<u8>, AllocError>
    ensures { IfOk result (λ page. page.items ≡ ok_text consumed success.now.place success.now.forest) }
{
    let word = consumption(consumed);
    let head = format!(in alloc; "{word} ok\nplace {}\n", success.place)?;
    forest_after(alloc, head.into_bytes(), &success.forest)
}

/// The bytes before, the forest's JSON and a line feed.
fn forest_after(alloc: Global, head: Vec<u8>, forest: &Forest) -> Result<Vec<u8>, AllocError>
    ensures { IfOk result (λ page. page.items ≡ head.items ++ (json forest.now ++ codes "\n")) }
{
    forest_between(alloc, head, forest, b"\n")
}

/// The forest's JSON alone. Fails where memory runs out.
pub fn json_page(alloc: Global, forest: &Forest) -> Result<Vec<u8>, AllocError>
    ensures { IfOk result (λ page. page.items ≡ json forest.now) }
{
    let mut page = Meter::new(Vec::new(alloc));
    if write_json(alloc, forest, &mut page).is_err() {
        return Err(AllocError);
    }
    Ok(page.into_inner())
}

/// The bytes before, the forest's JSON and the rest. Fails where memory runs out.
pub fn forest_between(
    alloc: Global,
    head: Vec<u8>,
    forest: &Forest,
    rest: &[u8],
) -> Result<Vec<u8>, AllocError>
    ensures { IfOk result (λ page. page.items ≡ head.items ++ (json forest.now ++ rest.now)) }
{
    let mut page = Meter::new(head);
    if write_json(alloc, forest, &mut page).is_err() {
        return Err(AllocError);
    }
    if write_bytes(rest, &mut page).is_err() {
        return Err(AllocError);
    }
    Ok(page.into_inner())
}

fn error_page(
    alloc: Global,
    consumed: bool,
    error: &ParseError,
    name: &str,
) -> Result<Vec<u8>, AllocError>
    ensures { IfOk result (λ page. page.items ≡ error_text consumed (printed error.now name.now)) }
{
    let word = consumption(consumed);
    let error = render(alloc, error, name)?;
    let page = format!(in alloc; "{word} error\n{error}")?;
    Ok(page.into_bytes())
}

fn consumption(consumed: bool) -> &'static str
    ensures { result.now ≡ consumption consumed }
{
    if consumed { "consumed" } else { "empty" }
}

/// The page of a forest. Fails where memory runs out.
pub fn forest_page(alloc: Global, forest: &Forest) -> Result<Vec<u8>, AllocError>
    ensures { IfOk result (λ page. page.items ≡ json forest.now ++ codes "\n") }
{
    forest_after(alloc, Vec::new(alloc), forest)
}

/// The page about the stop of a trail on a text with this name. `all` is the number of the trail's items.
#[tactic(auto, using(crate::proofs::Replayed::position_within))]
pub fn stop_page(
    alloc: Global,
    text: &Text,
    items: usize,
    stop: &Stop,
    name: &str,
) -> Result<Vec<u8>, AllocError>
    ensures { IfOk result (λ page. page.items ≡ stop_text name.now text.now items stop.now) }
{
    // `replay` doesn't promise that a stop lies in the text.
    let Pos { line, column } = text.position(stop.place.min(text.len()));
    let why = mismatch(stop.why);
    let item = item_text(alloc, stop.left, items)?;
    let page = format!(in alloc; "{name}:{line}:{column}: {why}, {item}\n")?;
    Ok(page.into_bytes())
}

/// The number of the next item, counting from 1, if `left` of all items are left.
fn item_text(alloc: Global, left: usize, all: usize) -> Result<String, AllocError>
    ensures { IfOk result (λ text. string_bytes text ≡ item_text left all) }
{
    if left == 0 {
        return format!(in alloc; "after all {all} items");
    }
    let number = all.saturating_sub(left) + 1;
    format!(in alloc; "item {number} of {all}")
}

fn mismatch(why: Mismatch) -> &'static str
    ensures { result.now ≡ mismatch_text why }
{
    match why {
        Mismatch::ItemDiffers => "Y1 item doesn't fit",
        Mismatch::TextDiffers => "Y2 text doesn't fit",
        Mismatch::LeftOver => "Y3 text or items left over",
        Mismatch::NotAdmitted => "Y4 declaration not admitted",
    }
}
