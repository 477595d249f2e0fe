//! What stands around a token: words for the item, the open parentheses and the token before it.
//!
//! An item begins at its word or, for a rule, at a name before `=`, wherever that stands. So an item that isn't ended yet takes nothing from the next one.

ghost use Rattle.std.specs.Prelude.{◌≡◌, nat_lt, if◌then◌else◌};
ghost use Rattle.pg_file_tokens.specs.View.{placed_tokens_of};
ghost use Rattle.pg_server_names.specs.Surroundings as surroundings;
ghost use Rattle.pg_server_names.specs.Surroundings.{word_item, item_word, rule_item, begun, wanted_at, wanted_by};

use pg_file_items::{FormWord, is_reserved};
use pg_file_tokens::{Lexeme, Mark, is_word};

/// An item, by the word that begins it.
#[derive(Clone, Copy, Debug, PartialEq, Eq)]
pub enum ItemWord {
    Class,
    Word,
    Operators,
    Table,
    Start,
    /// A rule begins with its name.
    Rule,
}

/// A parenthesis that is open.
#[derive(Clone, Copy)]
pub struct Group {
    /// The form that it is of. One in a class expression is of the form around it.
    pub form: Option<FormWord>,
    /// The number of the argument, from 0; 4 stands for all from the fifth on, since no form tells these apart.
    pub argument: usize,
}

/// The token before a place.
#[derive(Clone, Copy)]
pub enum Before {
    /// The word `class` of an item.
    Class,
    /// The word `word` of an item.
    Word,
    /// The word `start` of an item.
    Start,
    /// The word of a form.
    Form(FormWord),
    /// A name that is no word.
    Name,
    /// A literal, a number or a closing parenthesis.
    End,
    /// Another token, or none.
    Other,
}

/// The token behind a place, as far as it matters.
#[derive(Clone, Copy)]
pub enum Next {
    /// An opening parenthesis.
    Open,
    /// The mark `=`.
    Equals,
    /// Another token, or none.
    Other,
}

/// What is wanted at a place.
#[derive(Clone, Copy, Debug, PartialEq, Eq)]
pub enum Wanted {
    /// A value: a form, or the name of a rule.
    Value,
    /// A class expression.
    Class,
    /// The name of a `word` item.
    Word,
    /// A builder's name.
    Builder,
    /// No name.
    Nothing,
}

/// What the first of these tokens is.
pub fn next_of(tokens: &[Lexeme]) -> Next
    ensures { result ≡ surroundings.next_of (placed_tokens_of tokens.now) }
{
    match tokens {
        [first, ..] if first.token.is_mark(Mark::Open) => Next::Open,
        [first, ..] if first.token.is_mark(Mark::Equals) => Next::Equals,
        _ => Next::Other,
    }
}

/// The item that the word `word` begins: none where it is the form.
fn word_item(next: Next) -> Option<ItemWord>
    ensures { result ≡ word_item next }
{
    match next {
        Next::Open => None,
        Next::Equals | Next::Other => Some(ItemWord::Word),
    }
}

/// The item that a word begins.
fn item_word(name: &[char], next: Next) -> Option<ItemWord>
    ensures { result ≡ item_word name.now next }
{
    if is_word("class", name) {
        Some(ItemWord::Class)
    } else if is_word("operators", name) {
        Some(ItemWord::Operators)
    } else if is_word("table", name) {
        Some(ItemWord::Table)
    } else if is_word("start", name) {
        Some(ItemWord::Start)
    } else if is_word("word", name) {
        word_item(next)
    } else {
        None
    }
}

/// The rule that a name begins.
fn rule_item(before: Before, next: Next) -> Option<ItemWord>
    ensures { result ≡ rule_item before next }
{
    match before {
        Before::Class => None,
        Before::Word
        | Before::Start
        | Before::Form(_)
        | Before::Name
        | Before::End
        | Before::Other => rule_before(next),
    }
}

/// The rule that a name begins which this follows.
fn rule_before(next: Next) -> Option<ItemWord>
    ensures { result ≡ rule_item Before.Other next }
{
    match next {
        Next::Equals => Some(ItemWord::Rule),
        Next::Open | Next::Other => None,
    }
}

/// The item that a name begins, if it begins one.
#[tactic(auto, unfolding(crate::specs::Surroundings::begun))]
pub(crate) fn begun(before: Before, name: &[char], next: Next) -> Option<ItemWord>
    ensures { result ≡ begun before name.now next }
{
    if is_reserved(name) {
        item_word(name, next)
    } else {
        rule_item(before, next)
    }
}

/// What is wanted as an argument of a form; the arguments count from 0 (ours).
pub fn wanted_in(form: FormWord, argument: usize) -> Wanted
    ensures { result ≡ surroundings.wanted_in form argument }
{
    match form {
        FormWord::OfClass(_) => Wanted::Class,
        FormWord::String => Wanted::Nothing,
        FormWord::Seq
        | FormWord::OfSome(_)
        | FormWord::OfOne(_)
        | FormWord::OfTwo(_)
        | FormWord::Between => Wanted::Value,
        FormWord::Chain(_) | FormWord::Build => builder_before(1, argument),
        FormWord::Expression => builder_before(3, argument),
        FormWord::Label if argument == 0 => Wanted::Value,
        FormWord::Label => Wanted::Nothing,
        FormWord::Word => Wanted::Word,
    }
}

/// A builder as each argument before this one, and then values.
fn builder_before(values: usize, argument: usize) -> Wanted
    ensures { result ≡ (if nat_lt argument values then Wanted.Builder else Wanted.Value) }
{
    if argument < values {
        Wanted::Builder
    } else {
        Wanted::Value
    }
}

/// What is wanted in an item, outside of all parentheses.
fn wanted_at(item: Option<ItemWord>) -> Wanted
    ensures { result ≡ wanted_at item }
{
    match item {
        Some(ItemWord::Class | ItemWord::Word | ItemWord::Operators) => Wanted::Class,
        Some(ItemWord::Table | ItemWord::Start) | None => Wanted::Nothing,
        Some(ItemWord::Rule) => Wanted::Value,
    }
}

/// What is wanted in a parenthesis of an item.
pub(crate) fn wanted_by(group: Group, item: Option<ItemWord>) -> Wanted
    ensures { result ≡ wanted_by group.form group.argument item }
{
    match group.form {
        Some(form) => wanted_in(form, group.argument),
        None => wanted_at(item),
    }
}
