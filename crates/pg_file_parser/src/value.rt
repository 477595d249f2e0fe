//! Values: the bodies of rules, read as forms in preorder, each with its span.
//!
//! A form's parts are read completely before the form is put before them. The depth to which parentheses may still nest
//! is passed down, so the recursion ends at the limit.

#![tactic(auto, using(crate::proofs::ParserLemmas::Rests::ends, crate::proofs::ParserLemmas::Covered::places))]

ghost use Rattle.std.specs.Prelude.{◌≡◌, [], ◌∷◌, ◌<◌, length, IfOk};
ghost use Rattle.pg_file_tokens.specs.declared.token.Mark.TheVariants.{Comma, Close};
ghost use Rattle.pg_file_tokens.specs.View.{tokens_of};
ghost use Rattle.pg_file_items.specs.Entries.{forms_of};
ghost use Rattle.pg_file_items.specs.Joined as spec;
ghost use Rattle.pg_file_parser.specs.Rests.{EndsWith};
ghost use Rattle.pg_file_parser.specs.Given.{Gives, after_characters, after_mark_at, bodies_of, body_of, spans_of};
ghost use Rattle.pg_file_parser.specs.Places.{AreInPlace, AreAllInPlace, placed_of};
ghost use Rattle.pg_file_parser.specs.Reading.{with_close, more_at, some_at, mark_at, class_at, seq_with, of_some_at, counted, around_at, message_at, label_at, form_at, value_at, rule_named_at};
ghost use Rattle.pg_file_parser.specs.Reading as reading;

use crate::error::{SyntaxError, SyntaxFault};
use crate::front::{after_mark, expect_close, expect_mark, literal, name, unexpected};
use crate::head::{
    Form, alone, build_head, chain_head, expression_head, of_class, string, word_name,
};
use crate::text::{free_name, literal_text};
use pg_file_items::{FormWord, PlacedForm, SomeForm, Span, WrittenForm, form_word};
use pg_file_tokens::{Lexeme, Mark, is_word};
use pg_text::Characters;
use std::alloc::{AllocError, Global};

/// Joins bodies, one after another.
fn joined(alloc: Global, bodies: Vec<Vec<PlacedForm>>) -> Result<Vec<PlacedForm>, AllocError>
    ensures forms { IfOk result (λ parts. forms_of parts.items ≡ spec.joined (bodies_of bodies.items)) }
    ensures placed { IfOk result (λ parts. parts.items ≡ spec.joined (placed_of bodies.items)) }
{
    let mut parts = Vec::new(alloc);
    for mut body in bodies {
        parts.append(&mut body)?;
    }
    Ok(parts)
}

/// The form with this span and the places of its names, before its parts.
fn placed(form: Form, span: Span, names: Vec<usize>) -> Result<Vec<PlacedForm>, AllocError>
    ensures forms { IfOk result (λ body. forms_of body.items ≡ body_of form) }
    ensures spans { IfOk result (λ body. spans_of body.items ≡ span ∷ spans_of form.parts.items) }
{
    let Form { form, parts } = form;
    let mut body = parts;
    body.insert(0, PlacedForm { form, span, names })?;
    Ok(body)
}

/// The body of the form that begins at a place, and the tokens after the closing parenthesis. The form's span ends after that parenthesis.
fn closed(
    form: Form,
    first: usize,
    names: Vec<usize>,
    tokens: &[Lexeme],
) -> Result<(Vec<PlacedForm>, &[Lexeme]), SyntaxError>
    ensures read { Gives (λ x. (forms_of x.0.items, tokens_of x.1.now)) result (with_close (body_of form) (tokens_of tokens.now)) }
    ensures spans { IfOk result (λ x. spans_of x.0.items ≡ record { first = first; after = after_mark_at tokens.now } ∷ spans_of form.parts.items) }
    ensures rest { IfOk result (λ x. EndsWith tokens.now x.1.now) }
{
    match expect_close(tokens) {
        Ok((after, rest)) => Ok((placed(form, Span { first, after }, names)?, rest)),
        Err(fault) => {
            drop(form);
            Err(fault)
        }
    }
}

/// These bodies, one after another. F3 at the next token if there aren't `count` of them.
fn counted(
    alloc: Global,
    count: usize,
    values: Vec<Vec<PlacedForm>>,
    rest: &[Lexeme],
) -> Result<Vec<PlacedForm>, SyntaxError>
    ensures read { Gives (λ parts. (forms_of parts.items, tokens_of rest.now)) result (counted count (bodies_of values.items) (tokens_of rest.now)) }
    ensures placed { IfOk result (λ parts. parts.items ≡ spec.joined (placed_of values.items)) }
{
    if values.len() != count {
        return Err(unexpected(rest));
    }
    Ok(joined(alloc, values)?)
}

/// The body of one form that is a name at a place, with this many characters. It names at most itself.
fn single(
    alloc: Global,
    form: WrittenForm,
    first: usize,
    length: usize,
) -> Result<Vec<PlacedForm>, AllocError>
    ensures forms { IfOk result (λ body. forms_of body.items ≡ form ∷ []) }
    ensures spans { IfOk result (λ body. spans_of body.items ≡ record { first = first; after = after_characters first length } ∷ []) }
{
    let names = Vec::new(alloc);
    let after = first.saturating_add(length);
    let span = Span { first, after };
    Ok(vec![in alloc; PlacedForm { form, span, names }]?)
}

/// The further values, a comma before each; at most this many.
#[cycle(value)]
fn more_values(
    alloc: Global,
    depth: usize,
    most: usize,
    tokens: &[Lexeme],
) -> Result<(Vec<Vec<PlacedForm>>, &[Lexeme]), SyntaxError>
    ensures read { Gives (λ x. (bodies_of x.0.items, tokens_of x.1.now)) result (more_at Comma (value_at depth) most (tokens_of tokens.now)) }
    ensures places { IfOk result (λ x. AreAllInPlace tokens.now x.0.items) }
    ensures rest { IfOk result (λ x. EndsWith tokens.now x.1.now) }
{
    let mut values = Vec::new(alloc);
    let mut rest = tokens;
    for _ in 0..most {
        let Some(after) = after_mark(rest, Mark::Comma) else {
            return Ok((values, rest));
        };
        let (next, after) = value(alloc, depth, after)?;
        values.push(next)?;
        rest = after;
    }
    Ok((values, rest))
}

/// A value and at most this many further ones.
#[cycle(value)]
#[tactic(auto, using(crate::proofs::ParserLemmas::Rests::ends, crate::proofs::ParserLemmas::Covered::places), unfolding(crate::specs::Reading::some_at))]
fn values(
    alloc: Global,
    depth: usize,
    most: usize,
    tokens: &[Lexeme],
) -> Result<(Vec<Vec<PlacedForm>>, &[Lexeme]), SyntaxError>
    ensures read { Gives (λ x. (bodies_of x.0.items, tokens_of x.1.now)) result (some_at Comma (value_at depth) most (tokens_of tokens.now)) }
    ensures places { IfOk result (λ x. AreAllInPlace tokens.now x.0.items) }
    ensures rest { IfOk result (λ x. EndsWith tokens.now x.1.now) }
{
    let (first, rest) = value(alloc, depth, tokens)?;
    let (mut values, rest) = more_values(alloc, depth, most, rest)?;
    values.insert(0, first)?;
    Ok((values, rest))
}

/// A form of this many values.
#[cycle(value)]
fn around(
    alloc: Global,
    depth: usize,
    form: WrittenForm,
    count: usize,
    tokens: &[Lexeme],
) -> Result<(Form, &[Lexeme]), SyntaxError>
    requires { 0 < count }
    ensures read { Gives (λ x. (body_of x.0, tokens_of x.1.now)) result (around_at form count (value_at depth) (tokens_of tokens.now)) }
    ensures places { IfOk result (λ x. AreInPlace tokens.now x.0.parts.items) }
    ensures rest { IfOk result (λ x. EndsWith tokens.now x.1.now) }
{
    let (values, rest) = values(alloc, depth, count - 1, tokens)?;
    let parts = counted(alloc, count, values, rest)?;
    Ok((Form { form, parts }, rest))
}

/// A `seq` of any number of values.
#[cycle(value)]
fn seq(alloc: Global, depth: usize, tokens: &[Lexeme]) -> Result<(Form, &[Lexeme]), SyntaxError>
    ensures read { Gives (λ x. (body_of x.0, tokens_of x.1.now)) result (seq_with (value_at depth) (tokens_of tokens.now) (mark_at Close (tokens_of tokens.now))) }
    ensures places { IfOk result (λ x. AreInPlace tokens.now x.0.parts.items) }
    ensures rest { IfOk result (λ x. EndsWith tokens.now x.1.now) }
{
    if after_mark(tokens, Mark::Close).is_some() {
        return Ok((alone(alloc, WrittenForm::Seq(0)), tokens));
    }
    let (values, rest) = values(alloc, depth, tokens.len(), tokens)?;
    let count = values.len();
    let parts = joined(alloc, values)?;
    let form = WrittenForm::Seq(count);
    Ok((Form { form, parts }, rest))
}

/// A form of one value or more.
#[cycle(value)]
fn of_some(
    alloc: Global,
    depth: usize,
    form: SomeForm,
    tokens: &[Lexeme],
) -> Result<(Form, &[Lexeme]), SyntaxError>
    ensures read { Gives (λ x. (body_of x.0, tokens_of x.1.now)) result (of_some_at form (value_at depth) (tokens_of tokens.now)) }
    ensures places { IfOk result (λ x. AreInPlace tokens.now x.0.parts.items) }
    ensures rest { IfOk result (λ x. EndsWith tokens.now x.1.now) }
{
    let (values, rest) = values(alloc, depth, tokens.len(), tokens)?;
    let count = values.len();
    let parts = joined(alloc, values)?;
    let form = WrittenForm::OfSome(form, count);
    Ok((Form { form, parts }, rest))
}

/// A comma and a message.
fn message(alloc: Global, tokens: &[Lexeme]) -> Result<(Characters, &[Lexeme]), SyntaxError>
    ensures read { Gives (λ x. (x.0, tokens_of x.1.now)) result (message_at (tokens_of tokens.now)) }
    ensures rest { IfOk result (λ x. EndsWith tokens.now x.1.now) }
{
    let (text, place, rest) = literal(expect_mark(tokens, Mark::Comma)?)?;
    Ok((literal_text(alloc, text, place)?, rest))
}

/// A `label`: a value and its message.
#[cycle(value)]
fn label(alloc: Global, depth: usize, tokens: &[Lexeme]) -> Result<(Form, &[Lexeme]), SyntaxError>
    ensures read { Gives (λ x. (body_of x.0, tokens_of x.1.now)) result (label_at (value_at depth) (tokens_of tokens.now)) }
    ensures places { IfOk result (λ x. AreInPlace tokens.now x.0.parts.items) }
    ensures rest { IfOk result (λ x. EndsWith tokens.now x.1.now) }
{
    let (parts, rest) = value(alloc, depth, tokens)?;
    let (message, rest) = message(alloc, rest)?;
    let form = WrittenForm::Label(message);
    Ok((Form { form, parts }, rest))
}

/// The contents of a form's parentheses, up to the closing one.
#[cycle(value)]
#[tactic(auto, using(crate::proofs::ParserLemmas::Rests::ends, crate::proofs::ParserLemmas::Covered::places), unfolding(crate::specs::Reading::form_at))]
fn form<'a>(
    alloc: Global,
    depth: usize,
    word: FormWord,
    tokens: &'a [Lexeme],
    names: &mut Vec<usize>,
) -> Result<(Form, &'a [Lexeme]), SyntaxError>
    ensures read { Gives (λ x. (body_of x.0, tokens_of x.1.now)) result (form_at (class_at depth) (value_at depth) word (tokens_of tokens.now)) }
    ensures places { IfOk result (λ x. AreInPlace tokens.now x.0.parts.items) }
    ensures rest { IfOk result (λ x. EndsWith tokens.now x.1.now) }
{
    match word {
        FormWord::OfClass(form) => of_class(alloc, depth, form, tokens, names),
        FormWord::String => string(alloc, tokens),
        FormWord::Seq => seq(alloc, depth, tokens),
        FormWord::OfSome(form) => of_some(alloc, depth, form, tokens),
        FormWord::OfOne(form) => around(alloc, depth, WrittenForm::OfOne(form), 1, tokens),
        FormWord::OfTwo(form) => around(alloc, depth, WrittenForm::OfTwo(form), 2, tokens),
        FormWord::Between => around(alloc, depth, WrittenForm::Between, 3, tokens),
        FormWord::Chain(side) => {
            let (head, rest) = chain_head(alloc, side, tokens, names)?;
            around(alloc, depth, head, 2, rest)
        }
        FormWord::Expression => {
            let (head, rest) = expression_head(alloc, tokens, names)?;
            around(alloc, depth, head, 1, rest)
        }
        FormWord::Build => {
            let (head, rest) = build_head(alloc, tokens, names)?;
            around(alloc, depth, head, 1, rest)
        }
        FormWord::Label => label(alloc, depth, tokens),
        FormWord::Word => word_name(alloc, tokens, names),
    }
}

/// The name of a rule, which stands at a place.
fn rule_named<'a>(
    alloc: Global,
    text: &[char],
    place: usize,
    rest: &'a [Lexeme],
) -> Result<(Vec<PlacedForm>, &'a [Lexeme]), SyntaxError>
    ensures read { Gives (λ x. (forms_of x.0.items, tokens_of x.1.now)) result (rule_named_at text.now (tokens_of rest.now)) }
    ensures spans { IfOk result (λ x. spans_of x.0.items ≡ record { first = place; after = after_characters place (length text.now) } ∷ []) }
    ensures rest { IfOk result (λ x. EndsWith rest.now x.1.now) }
{
    let name = free_name(alloc, text, place)?;
    Ok((
        single(alloc, WrittenForm::Rule(name), place, text.len())?,
        rest,
    ))
}

/// A value in which parentheses may nest this deep. The span of each form in it has the form's characters. F8 at the first parenthesis that nests deeper.
#[cycle(value)]
#[tactic(auto, using(crate::proofs::ParserLemmas::Rests::ends, crate::proofs::ParserLemmas::Covered::places, crate::proofs::ParserLemmas::Loop::value_nested), unfolding(crate::specs::Reading::value_at))]
pub fn value(
    alloc: Global,
    depth: usize,
    tokens: &[Lexeme],
) -> Result<(Vec<PlacedForm>, &[Lexeme]), SyntaxError>
    ensures read { Gives (λ x. (forms_of x.0.items, tokens_of x.1.now)) result (value_at depth (tokens_of tokens.now)) }
    ensures places { IfOk result (λ x. AreInPlace tokens.now x.0.items) }
    ensures rest { IfOk result (λ x. EndsWith tokens.now x.1.now) }
{
    let (text, place, rest) = name(tokens)?;
    if is_word("eof", text) {
        return Ok((
            single(alloc, WrittenForm::EndOfText, place, text.len())?,
            rest,
        ));
    }
    let Some(word) = form_word(text) else {
        return rule_named(alloc, text, place, rest);
    };
    let inside = expect_mark(rest, Mark::Open)?;
    if depth == 0 {
        return Err(SyntaxError::Fault(
            SyntaxFault::LimitPassed,
            rest.first().map(|first| first.place),
        ));
    }
    let mut names = Vec::new(alloc);
    let (form, rest) = form(alloc, depth - 1, word, inside, &mut names)?;
    closed(form, place, names, rest)
}
