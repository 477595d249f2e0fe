//! The words about a rule or a form.

use crate::target::{HoverFile, Target, target_at};
use pg_explain::start_words;
use pg_explain_context::{Known, written_at};
use pg_file_items::Span;
use pg_grammar_classes::classes_of_items;
use pg_grammar_form::RuleId;
use pg_server_names::names_of;
use pg_sets_own::operator_starts;
use std::alloc::{AllocError, Global};

/// The most starts that are named.
const MOST: usize = 12;

/// What is said of what is at a place.
#[derive(Drop)]
pub struct Hover {
    /// The characters that it is about.
    pub span: Span,
    /// Lines with plain words.
    pub page: String,
}

/// Which starts are told.
#[derive(Clone, Copy)]
enum Side {
    First,
    Follow,
}

/// What is said of the rule or the form at a place (ours): as it was written, whether it can be empty, how it can begin and what can follow it; of a rule also its
/// rank, and the grammar's step cost if it has one. `None` where neither is. It takes time linear in the file and its grammar. Fails where memory runs out.
pub fn hover_at(
    alloc: Global,
    file: &HoverFile<'_>,
    place: usize,
) -> Result<Option<Hover>, AllocError> {
    let names = names_of(alloc, file.file.text)?;
    match target_at(file, &names, place) {
        Some(target) => some_hover(alloc, file, &target),
        None => Ok(None),
    }
}

fn some_hover(
    alloc: Global,
    file: &HoverFile<'_>,
    target: &Target,
) -> Result<Option<Hover>, AllocError> {
    let page = page_of(alloc, file, target)?;
    Ok(Some(Hover {
        span: target.span,
        page,
    }))
}

fn page_of(alloc: Global, file: &HoverFile<'_>, target: &Target) -> Result<String, AllocError> {
    let known = known_of(alloc, file)?;
    let page = told(alloc, file.cost, &known, target);
    drop(known);
    page
}

/// What is known of a grammar. Neither the lines of its places nor what its sets contain is asked for here.
fn known_of<'f>(alloc: Global, file: &HoverFile<'f>) -> Result<Known<'f>, AllocError> {
    let classes = classes_of_items(alloc, file.grammar.class_items())?;
    let operators = operator_starts(alloc, file.grammar)?;
    Ok(Known {
        file: file.file,
        positions: Vec::new(alloc),
        grammar: file.grammar,
        sets: file.sets,
        classes,
        operators,
        contained: Vec::new(alloc),
    })
}

fn told(
    alloc: Global,
    cost: Option<u64>,
    known: &Known,
    target: &Target,
) -> Result<String, AllocError> {
    let mut page = written_at(alloc, known, target.node)?;
    page.push_str("\n")?;
    page.push_str(emptiness(known.sets.nullable(target.node)))?;
    push_starts(alloc, &mut page, known, target, Side::First)?;
    push_starts(alloc, &mut page, known, target, Side::Follow)?;
    if let Some(rule) = target.rule {
        push_rank(alloc, &mut page, known.sets.rank(RuleId::new(rule)))?;
        push_cost(alloc, &mut page, cost)?;
    }
    Ok(page)
}

fn emptiness(is_nullable: bool) -> &'static str {
    if is_nullable {
        "can be empty\n"
    } else {
        "can't be empty\n"
    }
}

/// Appends a line on the starts of a side.
fn push_starts(
    alloc: Global,
    page: &mut String,
    known: &Known,
    target: &Target,
    side: Side,
) -> Result<(), AllocError> {
    let numbers = numbers_of(alloc, known, target, side)?;
    page.push_str(lead(side, numbers.is_empty()))?;
    push_words(alloc, page, known, &numbers)?;
    page.push_str("\n")
}

/// The numbers of a side's starts.
fn numbers_of(
    alloc: Global,
    known: &Known,
    target: &Target,
    side: Side,
) -> Result<Vec<usize>, AllocError> {
    let set = match side {
        Side::First => known.sets.first(target.node),
        Side::Follow => known.sets.follow(target.node),
    };
    let mut numbers = Vec::new(alloc);
    for number in 0..known.sets.starts().len() {
        if set.contains(number) {
            numbers.push(number)?;
        }
    }
    Ok(numbers)
}

/// What comes before the starts of a side, or is said instead of them.
fn lead(side: Side, is_none: bool) -> &'static str {
    match side {
        Side::First if is_none => "never begins with a character",
        Side::First => "begins with ",
        Side::Follow if is_none => "is never followed by anything",
        Side::Follow => "is followed by ",
    }
}

/// Appends the words of starts, the first ones if there are many.
fn push_words(
    alloc: Global,
    page: &mut String,
    known: &Known,
    numbers: &[usize],
) -> Result<(), AllocError> {
    for (at, number) in numbers.iter().enumerate().take(MOST) {
        page.push_str(joint(at, numbers.len()))?;
        let words = start_words(alloc, known, *number)?;
        page.push_str(words.as_str())?;
    }
    push_more(alloc, page, numbers.len().saturating_sub(MOST))
}

/// What comes before a start.
fn joint(at: usize, count: usize) -> &'static str {
    if at == 0 {
        ""
    } else if at.saturating_add(1) == count {
        " or "
    } else {
        ", "
    }
}

/// Appends how many starts weren't named.
fn push_more(alloc: Global, page: &mut String, count: usize) -> Result<(), AllocError> {
    if count == 0 {
        return Ok(());
    }
    let words = format!(in alloc; " or {count} others")?;
    page.push_str(words.as_str())
}

fn push_rank(alloc: Global, page: &mut String, rank: Option<u32>) -> Result<(), AllocError> {
    match rank {
        Some(rank) => {
            let words = format!(in alloc; "rank {rank}\n")?;
            page.push_str(words.as_str())
        }
        None => page.push_str("no rank: it can come to itself before it consumes anything\n"),
    }
}

fn push_cost(alloc: Global, page: &mut String, cost: Option<u64>) -> Result<(), AllocError> {
    match cost {
        Some(cost) => {
            let words = format!(in alloc; "the grammar's step cost is {cost}\n")?;
            page.push_str(words.as_str())
        }
        None => Ok(()),
    }
}
