//! What kind of name a place in the file needs.

use crate::tokens::Tokens;
use pg_file_tokens::Mark;

/// What is needed.
#[derive(Clone, Copy, PartialEq, Eq)]
pub(crate) enum Wanted {
    /// A value: a form, or the name of a rule.
    Value,
    /// A class, or the name of one or of a predicate.
    Class,
    /// The name of a word item.
    Word,
    /// The name of a builder.
    Builder,
    /// The `operators` item, which the word there needs.
    Operators,
}

/// A parenthesis that is open at a token: the number of the token before it, and how many commas stand between.
#[derive(Clone, Copy)]
struct Opened {
    before: usize,
    commas: usize,
}

/// What is needed at the token with this number.
pub(crate) fn wanted_at(tokens: &Tokens, number: usize) -> Wanted {
    let item = tokens.item(number);
    if tokens.is_word(item, "table") || is_operator_form(tokens, number) {
        return Wanted::Operators;
    }
    if tokens.is_word(item, "class")
        || tokens.is_word(item, "word")
        || tokens.is_word(item, "operators")
    {
        return Wanted::Class;
    }
    match opened_at(tokens, item, number) {
        Some(opened) => wanted_in(tokens, item, opened),
        None => Wanted::Value,
    }
}

fn is_operator_form(tokens: &Tokens, number: usize) -> bool {
    (tokens.is_word(number, "expr") || tokens.is_word(number, "declare"))
        && tokens.is_mark(number.saturating_add(1), Mark::Open)
}

/// What is needed inside a parenthesis.
fn wanted_in(tokens: &Tokens, item: usize, opened: Opened) -> Wanted {
    let Opened { before, commas } = opened;
    if tokens.is_word(before, "word") {
        return Wanted::Word;
    }
    let takes_class = ["satisfy", "notFollowedBy", "declare", "not"];
    if takes_class.iter().any(|word| tokens.is_word(before, word))
        || tokens.is_mark(before, Mark::Open)
        || tokens.is_mark(before, Mark::Bar)
    {
        return Wanted::Class;
    }
    let folds = ["build", "chainl1", "chainr1"];
    let takes_builder = if tokens.is_word(before, "expr") {
        commas < 3
    } else {
        commas == 0 && folds.iter().any(|word| tokens.is_word(before, word))
    };
    if takes_builder && before >= item {
        Wanted::Builder
    } else {
        Wanted::Value
    }
}

/// The innermost parenthesis that is open at a token of an item, if there is one.
fn opened_at(tokens: &Tokens, item: usize, number: usize) -> Option<Opened> {
    let mut closed: usize = 0;
    let mut commas: usize = 0;
    for at in (item..number).rev() {
        if tokens.is_mark(at, Mark::Close) {
            closed = closed.saturating_add(1);
        } else if tokens.is_mark(at, Mark::Open) {
            if closed == 0 {
                return Some(Opened {
                    before: at.saturating_sub(1),
                    commas,
                });
            }
            closed = closed.saturating_sub(1);
        } else if closed == 0 && tokens.is_mark(at, Mark::Comma) {
            commas = commas.saturating_add(1);
        }
    }
    None
}
