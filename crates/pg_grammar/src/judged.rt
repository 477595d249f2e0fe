//! The checks of base forms before a maker accepts them.
//!
//! Each check is over the contents of a form: its class expression, its builders, its literal and its name. A maker relies on them for F4, F7 and F8.

ghost use Rattle.std.specs.Prelude.{◌≡◌, false, not, [], length, map, unwrap_or};
ghost use Rattle.pg_grammar_form.specs.Names.{has_name};
ghost use Rattle.std.specs.List.{list_any};
ghost use Rattle.std.specs.Option.{option_map_or};
ghost use Rattle.pg_grammar_form.specs.Classes.{descends, is_long, lacks_item};
ghost use Rattle.pg_grammar_form.specs.Contents.{class_parts, builders_in, is_declaration, leaf_in, literal_in, name_in, word_in, all_builders};
ghost use Rattle.pg_grammar_form.specs.Forms.{has_bad_literal, has_long_chain, has_long_name, has_long_text, has_unknown_name, has_unknown_class, is_empty_string, uses_operators};
ghost use Rattle.pg_grammar_form.specs.WordItems.{word_name};

use crate::names::{has_name, has_word};
use pg_grammar_form::{
    Around, BaseForm, BuilderUse, Form, LITERAL_LIMIT, Leaf, NAME_LIMIT, OperatorBuilders,
    WordItem, characters_in,
};
use pg_text::Characters;

/// Whether a string is empty, or a range descends.
fn has_bad_literal(form: &BaseForm) -> bool
    ensures { result ≡ has_bad_literal form.now }
{
    has_descending_range(form) || is_empty_string(form)
}

/// Whether a range descends.
fn has_descending_range(form: &BaseForm) -> bool
    ensures { result ≡ list_any descends (class_parts form.now) }
{
    match form.class() {
        Some(class) => class.has_descending_range(),
        None => false,
    }
}

/// Whether it is an empty string.
fn is_empty_string(form: &BaseForm) -> bool
    ensures { result ≡ is_empty_string form.now }
{
    match form.string() {
        Some(text) => text.is_empty(),
        None => false,
    }
}

/// Whether a literal, symbol or message has more than 1,024 characters, or a name has more than 64.
fn has_long_text(form: &BaseForm) -> bool
    ensures { result ≡ has_long_text form.now }
{
    has_long_class(form)
        || has_long_builder(form)
        || has_long_chain(form)
        || literal_length(form) > LITERAL_LIMIT
        || name_length(form) > NAME_LIMIT
}

/// Whether a literal of its class expression has more than 1,024 characters, or the name of a predicate has more than 64.
fn has_long_class(form: &BaseForm) -> bool
    ensures { result ≡ list_any is_long (class_parts form.now) }
{
    match form.class() {
        Some(class) => class.has_long_text(),
        None => false,
    }
}

/// Whether the name of its builder has more than 64 characters, if it is a chain.
fn has_long_chain(form: &BaseForm) -> bool
    ensures { result ≡ has_long_chain form.now }
{
    match form {
        Form::Chain(_, used, _, _) => characters_in(used.name.as_str()) > NAME_LIMIT,
        Form::Leaf(_)
        | Form::Seq(_)
        | Form::Choice(_)
        | Form::Many(_)
        | Form::Rule(_)
        | Form::Expression(_, _)
        | Form::Around(_, _) => false,
    }
}

/// Whether the name of one of its builders has more than 64 characters, if it is no chain.
fn has_long_builder(form: &BaseForm) -> bool
    ensures { result ≡ list_any has_long_name (builders_in form.now) }
{
    match form {
        Form::Around(Around::Build(used, _), _) => has_long_name(used),
        Form::Expression(builders, _) => have_long_name(builders),
        Form::Leaf(_)
        | Form::Seq(_)
        | Form::Choice(_)
        | Form::Many(_)
        | Form::Chain(_, _, _, _)
        | Form::Rule(_)
        | Form::Around(
            Around::Try | Around::Text | Around::Skip | Around::Label(_) | Around::Local,
            _,
        ) => false,
    }
}

/// Whether the name of one of an expression's builders has more than 64 characters.
fn have_long_name(builders: &OperatorBuilders) -> bool
    ensures { result ≡ list_any has_long_name (all_builders builders.now) }
{
    has_long_name(&builders.infix)
        || has_long_name(&builders.prefix)
        || has_long_name(&builders.postfix)
}

/// Whether a builder's name has more than 64 characters.
fn has_long_name(used: &BuilderUse) -> bool
    ensures { result ≡ has_long_name used.now }
{
    characters_in(used.name.as_str()) > NAME_LIMIT
}

/// The number of characters of its string, symbol or message.
fn literal_length(form: &BaseForm) -> usize
    ensures { result ≡ length (literal_in form.now) }
{
    match form {
        Form::Leaf(Leaf::String(text)) | Form::Around(Around::Label(text), _) => text.len(),
        Form::Around(Around::Build(_, symbol), _) => characters_in(symbol.as_str()),
        Form::Chain(_, used, _, _) => characters_in(used.symbol.as_str()),
        Form::Leaf(_)
        | Form::Seq(_)
        | Form::Choice(_)
        | Form::Many(_)
        | Form::Rule(_)
        | Form::Expression(_, _)
        | Form::Around(Around::Try | Around::Text | Around::Skip | Around::Local, _) => 0,
    }
}

/// The number of characters of the name of its rule or word item.
fn name_length(form: &BaseForm) -> usize
    ensures { result ≡ length (name_in form.now) }
{
    match form.named_rule() {
        Some(name) => name.len(),
        None => word_length(form),
    }
}

/// The number of characters of the name of its word item.
fn word_length(form: &BaseForm) -> usize
    ensures { result ≡ length (unwrap_or (word_in form.now) []) }
{
    match form.named_word() {
        Some(name) => name.len(),
        None => 0,
    }
}

/// Whether a form names a rule or a word item that isn't among these.
fn has_unknown_name(rules: &[Characters], words: &[WordItem], form: &BaseForm) -> bool
    ensures { result ≡ has_unknown_name rules.now (map word_name words.now) form.now }
{
    match form {
        Form::Leaf(Leaf::Word(name)) => lacks_word(words, name),
        Form::Rule(name) => !has_name(rules, name.as_slice()),
        Form::Leaf(_)
        | Form::Seq(_)
        | Form::Choice(_)
        | Form::Many(_)
        | Form::Chain(_, _, _, _)
        | Form::Expression(_, _)
        | Form::Around(_, _) => false,
    }
}

/// Whether no word item has this name.
fn lacks_word(words: &[WordItem], name: &Characters) -> bool
    ensures { result ≡ not (has_name (map word_name words.now) name.now) }
{
    !has_word(words, name.as_slice())
}

/// Whether a form names a class item other than the first `count`.
fn has_unknown_class(count: usize, form: &BaseForm) -> bool
    ensures { result ≡ has_unknown_class count form.now }
{
    match form.class() {
        Some(class) => class.lacks_item(count),
        None => false,
    }
}

/// Whether a form reads or declares operators.
fn uses_operators(form: &BaseForm) -> bool
    ensures { result ≡ uses_operators form.now }
{
    match form.term() {
        Some(_) => true,
        None => declares(form),
    }
}

/// Whether it reads a declaration of an operator.
fn declares(form: &BaseForm) -> bool
    ensures { result ≡ option_map_or is_declaration (leaf_in form.now) false }
{
    match form.leaf() {
        Some(leaf) => leaf.is_declaration(),
        None => false,
    }
}

// ---- checks of several forms

/// Whether a string is empty, or a range descends.
pub(crate) fn has_bad_literals(body: &[BaseForm]) -> bool
    ensures { result ≡ list_any has_bad_literal body.now }
{
    body.iter().any(has_bad_literal)
}

/// Whether a literal, symbol or message has more than 1,024 characters, or a name that is used has more than 64.
pub(crate) fn has_long_texts(body: &[BaseForm]) -> bool
    ensures { result ≡ list_any has_long_text body.now }
{
    body.iter().any(has_long_text)
}

/// Whether a form names a class item other than the first `count`.
pub(crate) fn lacks_class(count: usize, forms: &[BaseForm]) -> bool
    ensures { result ≡ list_any (has_unknown_class count) forms.now }
{
    forms.iter().any(|form| has_unknown_class(count, form))
}

/// Whether a form names a rule or a word item that isn't among these.
pub(crate) fn lacks_name(names: &[Characters], words: &[WordItem], forms: &[BaseForm]) -> bool
    ensures { result ≡ list_any (has_unknown_name names.now (map word_name words.now)) forms.now }
{
    forms
        .iter()
        .any(|form| has_unknown_name(names, words, form))
}

/// Whether a form reads or declares operators.
pub(crate) fn use_operators(forms: &[BaseForm]) -> bool
    ensures { result ≡ list_any uses_operators forms.now }
{
    forms.iter().any(uses_operators)
}
