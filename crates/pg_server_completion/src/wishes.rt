//! What is wanted at a place.

use crate::spot::{Part, Spot};
use pg_file_tokens::{Lexeme, Mark};
use pg_server_names::{Before, ItemWord, Wanted};

/// What can be written at a place.
#[derive(Clone, Copy, PartialEq, Eq)]
pub(crate) enum Wish {
    /// The word of an item.
    Item,
    /// The role of an operator.
    Role,
    /// The name of a rule.
    Rule,
    /// A value: a form, or the name of a rule.
    Value,
    /// A class expression.
    Class,
    /// The name of a kind of words.
    Word,
    Builder,
    /// One of the words inside items, from the first number up to the second in their table.
    Parts(usize, usize),
    Nothing,
}

/// What is wanted at a spot.
pub(crate) fn wish_at(spot: &Spot, lexemes: &[Lexeme]) -> Wish {
    match spot.surroundings.before() {
        Before::Class | Before::Word | Before::Form(_) => Wish::Nothing,
        Before::Start => Wish::Rule,
        Before::Name | Before::End => wish_behind(spot),
        Before::Other => wish_in(spot, lexemes),
    }
}

/// As `wish_at`, behind a name, a literal or a closing parenthesis: only words inside items go on there.
fn wish_behind(spot: &Spot) -> Wish {
    if spot.surroundings.is_in_group() {
        return Wish::Nothing;
    }
    match (spot.surroundings.item(), spot.part) {
        (Some(ItemWord::Word), Part::None) => Wish::Parts(0, 1),
        (Some(ItemWord::Word), Part::Head) => Wish::Parts(1, 2),
        (Some(ItemWord::Word), Part::Rest) => Wish::Parts(3, 4),
        (Some(ItemWord::Operators), Part::None) => Wish::Parts(2, 3),
        (Some(ItemWord::Operators), Part::Gap) => Wish::Parts(3, 5),
        (Some(ItemWord::Operators), Part::Reserved) => Wish::Parts(4, 5),
        (_, _) => Wish::Nothing,
    }
}

/// As `wish_at`, behind a mark or a word.
fn wish_in(spot: &Spot, lexemes: &[Lexeme]) -> Wish {
    let last = lexemes.get(spot.count.saturating_sub(1));
    match spot.surroundings.item() {
        None => Wish::Item,
        Some(ItemWord::Table) => role_behind(last),
        Some(
            ItemWord::Class
            | ItemWord::Word
            | ItemWord::Operators
            | ItemWord::Start
            | ItemWord::Rule,
        ) => wanted(spot.surroundings.wanted(), last),
    }
}

/// A role, right behind the word of a `table` item.
fn role_behind(last: Option<&Lexeme>) -> Wish {
    match last {
        Some(last) if last.token.is_word("table") => Wish::Role,
        Some(_) | None => Wish::Nothing,
    }
}

/// What is wanted behind a token that is no end of a value: nothing behind a word without parentheses, and behind `reserved` and `max`.
fn wanted(wanted: Wanted, last: Option<&Lexeme>) -> Wish {
    match wanted {
        Wanted::Value if is_behind_mark(last) => Wish::Value,
        Wanted::Value => Wish::Nothing,
        Wanted::Class if is_behind_text_word(last) => Wish::Nothing,
        Wanted::Class => Wish::Class,
        Wanted::Word => Wish::Word,
        Wanted::Builder => Wish::Builder,
        Wanted::Nothing => Wish::Nothing,
    }
}

/// Behind `=`, `(` or `,`.
fn is_behind_mark(last: Option<&Lexeme>) -> bool {
    match last {
        Some(last) => {
            last.token.is_mark(Mark::Equals)
                || last.token.is_mark(Mark::Open)
                || last.token.is_mark(Mark::Comma)
        }
        None => false,
    }
}

/// Behind a word that literals or a number follow, or between the ends of a range.
fn is_behind_text_word(last: Option<&Lexeme>) -> bool {
    match last {
        Some(last) => {
            last.token.is_word("reserved")
                || last.token.is_word("max")
                || last.token.is_mark(Mark::Dots)
        }
        None => false,
    }
}
