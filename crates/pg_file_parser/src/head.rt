//! Forms up to their parts: the contents of a form's parentheses before its values, and forms without values.
//!
//! A form is put before its parts, with its span, only once these are read. The places of its names are noted from left
//! to right, each before its name is checked.

#![tactic(auto, using(crate::proofs::ParserLemmas::Rests::ends))]

ghost use Rattle.std.specs.Prelude.{◌≡◌, [], ◌∷◌, IfOk};
ghost use Rattle.pg_file_tokens.specs.View.{tokens_of};
ghost use Rattle.pg_file_parser.specs.Rests.{EndsWith};
ghost use Rattle.pg_file_parser.specs.Given.{Gives, body_of};
ghost use Rattle.pg_file_parser.specs.Reading.{of_class_at, string_at, word_name_at, builder_at, chain_head_at, expression_head_at, written_symbol_at, symbol_at, build_head_at, class_at};

use crate::class::written_class;
use crate::error::SyntaxError;
use crate::front::{expect_mark, has_literal, literal, name};
use crate::text::{filled_at, free_name, literal_text, short_name};
use pg_file_items::{ClassForm, PlacedForm, WrittenForm};
use pg_file_tokens::{Lexeme, Mark};
use pg_grammar_form::Side;
use pg_text::Characters;
use std::alloc::Global;

/// A form and its parts, one after another. Its span isn't known yet.
#[derive(Drop)]
pub struct Form {
    pub form: WrittenForm,
    pub parts: Vec<PlacedForm>,
}

/// A form without parts.
pub fn alone(alloc: Global, form: WrittenForm) -> Form
    ensures forms { body_of result ≡ form ∷ [] }
    ensures parts { result.parts.items ≡ [] }
{
    let parts = Vec::new(alloc);
    Form { form, parts }
}

/// A form of a class expression.
pub fn of_class<'a>(
    alloc: Global,
    depth: usize,
    form: ClassForm,
    tokens: &'a [Lexeme],
    names: &mut Vec<usize>,
) -> Result<(Form, &'a [Lexeme]), SyntaxError>
    ensures read { Gives (λ x. (body_of x.0, tokens_of x.1.now)) result (of_class_at form (class_at depth) (tokens_of tokens.now)) }
    ensures alone { IfOk result (λ x. x.0.parts.items ≡ []) }
    ensures rest { IfOk result (λ x. EndsWith tokens.now x.1.now) }
{
    let (class, rest) = written_class(alloc, depth, tokens, names)?;
    Ok((alone(alloc, WrittenForm::OfClass(form, class)), rest))
}

/// A `string`.
pub fn string(alloc: Global, tokens: &[Lexeme]) -> Result<(Form, &[Lexeme]), SyntaxError>
    ensures read { Gives (λ x. (body_of x.0, tokens_of x.1.now)) result (string_at (tokens_of tokens.now)) }
    ensures alone { IfOk result (λ x. x.0.parts.items ≡ []) }
    ensures rest { IfOk result (λ x. EndsWith tokens.now x.1.now) }
{
    let (text, _place, rest) = filled_at(alloc, tokens)?;
    Ok((alone(alloc, WrittenForm::String(text)), rest))
}

/// A `word` form.
pub fn word_name<'a>(
    alloc: Global,
    tokens: &'a [Lexeme],
    names: &mut Vec<usize>,
) -> Result<(Form, &'a [Lexeme]), SyntaxError>
    ensures read { Gives (λ x. (body_of x.0, tokens_of x.1.now)) result (word_name_at (tokens_of tokens.now)) }
    ensures alone { IfOk result (λ x. x.0.parts.items ≡ []) }
    ensures rest { IfOk result (λ x. EndsWith tokens.now x.1.now) }
{
    let (text, place, rest) = name(tokens)?;
    names.push(place)?;
    let name = free_name(alloc, text, place)?;
    Ok((alone(alloc, WrittenForm::Word(name)), rest))
}

/// A builder's name, whose place is noted, and the tokens after the comma.
fn builder<'a>(
    alloc: Global,
    tokens: &'a [Lexeme],
    names: &mut Vec<usize>,
) -> Result<(Characters, &'a [Lexeme]), SyntaxError>
    ensures read { Gives (λ x. (x.0, tokens_of x.1.now)) result (builder_at (tokens_of tokens.now)) }
    ensures rest { IfOk result (λ x. EndsWith tokens.now x.1.now) }
{
    let (text, place, rest) = name(tokens)?;
    names.push(place)?;
    let builder = short_name(alloc, text, place)?;
    Ok((builder, expect_mark(rest, Mark::Comma)?))
}

/// A chain, up to its values.
pub fn chain_head<'a>(
    alloc: Global,
    side: Side,
    tokens: &'a [Lexeme],
    names: &mut Vec<usize>,
) -> Result<(WrittenForm, &'a [Lexeme]), SyntaxError>
    ensures read { Gives (λ x. (x.0, tokens_of x.1.now)) result (chain_head_at side (tokens_of tokens.now)) }
    ensures rest { IfOk result (λ x. EndsWith tokens.now x.1.now) }
{
    let (builder, rest) = builder(alloc, tokens, names)?;
    let (symbol, rest) = symbol(alloc, rest)?;
    Ok((
        WrittenForm::Chain {
            side,
            builder,
            symbol,
        },
        rest,
    ))
}

/// An `expr`, up to its term.
pub fn expression_head<'a>(
    alloc: Global,
    tokens: &'a [Lexeme],
    names: &mut Vec<usize>,
) -> Result<(WrittenForm, &'a [Lexeme]), SyntaxError>
    ensures read { Gives (λ x. (x.0, tokens_of x.1.now)) result (expression_head_at (tokens_of tokens.now)) }
    ensures rest { IfOk result (λ x. EndsWith tokens.now x.1.now) }
{
    let (infix, rest) = builder(alloc, tokens, names)?;
    let (prefix, rest) = builder(alloc, rest, names)?;
    let (postfix, rest) = builder(alloc, rest, names)?;
    Ok((
        WrittenForm::Expression {
            infix,
            prefix,
            postfix,
        },
        rest,
    ))
}

/// A builder's symbol, and the tokens after the comma.
fn written_symbol(alloc: Global, tokens: &[Lexeme]) -> Result<(Characters, &[Lexeme]), SyntaxError>
    ensures read { Gives (λ x. (x.0, tokens_of x.1.now)) result (written_symbol_at (tokens_of tokens.now)) }
    ensures rest { IfOk result (λ x. EndsWith tokens.now x.1.now) }
{
    let (text, place, rest) = literal(tokens)?;
    let text = literal_text(alloc, text, place)?;
    Ok((text, expect_mark(rest, Mark::Comma)?))
}

/// A builder's symbol, if a literal is at the front, and otherwise the empty symbol.
fn symbol(alloc: Global, tokens: &[Lexeme]) -> Result<(Characters, &[Lexeme]), SyntaxError>
    ensures read { Gives (λ x. (x.0, tokens_of x.1.now)) result (symbol_at (tokens_of tokens.now)) }
    ensures rest { IfOk result (λ x. EndsWith tokens.now x.1.now) }
{
    if has_literal(tokens) {
        written_symbol(alloc, tokens)
    } else {
        Ok((Characters::new(Vec::new(alloc)), tokens))
    }
}

/// A `build`, up to its value.
pub fn build_head<'a>(
    alloc: Global,
    tokens: &'a [Lexeme],
    names: &mut Vec<usize>,
) -> Result<(WrittenForm, &'a [Lexeme]), SyntaxError>
    ensures read { Gives (λ x. (x.0, tokens_of x.1.now)) result (build_head_at (tokens_of tokens.now)) }
    ensures rest { IfOk result (λ x. EndsWith tokens.now x.1.now) }
{
    let (builder, rest) = builder(alloc, tokens, names)?;
    let (symbol, rest) = symbol(alloc, rest)?;
    Ok((WrittenForm::Build { builder, symbol }, rest))
}
