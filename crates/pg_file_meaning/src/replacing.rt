//! From written values to base forms: short forms are replaced by the base forms they stand for, and names of classes and builders are looked up.
//!
//! The forms are read from the last to the first, since a form's parts are the next whole forms. The bodies that wait to become parts are kept in order. The
//! size of a body is checked beforehand, so nothing too large is built here.

ghost use Rattle.std.specs.Prelude.{◌≡◌, ◌∷◌, ◌++◌, [], map, take, drop, IfOk, OnOk, IsErrOf};
ghost use Rattle.std.specs.List.{AllByRecursion};
ghost use Rattle.std.specs.Str.{encode_utf8_all};
ghost use Rattle.pg_pred.specs.Offer.{offer_of};
ghost use Rattle.pg_file_items.specs.Entries.{forms_of};
ghost use Rattle.pg_grammar_form.specs.declared.form.Form.TheVariants as form;
ghost use Rattle.pg_grammar_form.specs.declared.form.Leaf.TheVariants as leaf;
ghost use Rattle.pg_grammar_form.specs.declared.form.Around.TheVariants as around;
ghost use Rattle.pg_file_meaning.specs.Names.{builder_named, chain_builder_named, BuilderIsKnown, ClassIsKnown, FormIsKnown};
ghost use Rattle.pg_file_meaning.specs.Meaning as meaning;
ghost use Rattle.pg_file_items.specs.Sizes.{part_count};
ghost use Rattle.pg_file_meaning.specs.Spans.{all_spans_of, before_spans, between_spans, one_spans, some_spans, spans_at, spans_of, spans_of_form, two_spans, value_spans};
ghost use Rattle.pg_file_meaning.specs.Bodies.{bases_of, all_bases_of, body_at, body_of_form, body_meant, parts_meant};

use crate::body::{PlacedBase, before_all, between_of, one_of, seq_of, single, some_of, two_of};
use crate::error::MakingError;
use crate::lookup::{
    BuilderNames, builder_named, builders_named, chain_builder_named, class_meant, label,
};
use pg_file_items::{
    ClassForm, OneForm, PlacedForm, SomeForm, Span, TwoForm, WrittenClass, WrittenForm,
};
use pg_file_tokens::copied;
use pg_grammar_form::{Around, BaseForm, BuilderUse, ClassExpression, Form, Leaf, NextForm, Side};
use pg_pred::Registry;
use pg_text::Characters;
use std::alloc::{AllocError, Global};
use std::collections::VecDeque;

/// The base forms of a value, given its forms and the names of the class items above. Refused if the name of a class or
/// a builder is unknown.
pub fn body_meant(
    alloc: Global,
    registry: &Registry,
    classes: &[Characters],
    forms: &[PlacedForm],
) -> Result<Vec<PlacedBase>, MakingError>
    ensures meant { IfOk result (λ body. bases_of body.items ≡ body_meant (offer_of registry.now) classes.now (forms_of forms.now)) }
    ensures spans { IfOk result (λ body. spans_of body.items ≡ value_spans forms.now) }
    ensures known { OnOk result (AllByRecursion (FormIsKnown (offer_of registry.now) classes.now) (forms_of forms.now)) }
    ensures refused { IsErrOf result MakingError.Refused → AllByRecursion (FormIsKnown (offer_of registry.now) classes.now) (forms_of forms.now) → ⊥ }
{
    let mut waiting = VecDeque::new(alloc);
    let mut rest = forms;
    while let Some((form, before)) = rest.split_last() {
        let body = body_of_form(alloc, registry, classes, form, &mut waiting)?;
        waiting.push_front(body)?;
        rest = before;
    }
    Ok(next_body(alloc, &mut waiting))
}

/// Takes the first waiting body out; the empty one if there is none.
fn next_body(alloc: Global, waiting: &mut VecDeque<Vec<PlacedBase>>) -> Vec<PlacedBase>
    ensures first { bases_of result.items ≡ body_at 0 (all_bases_of waiting.old.items) }
    ensures spans { spans_of result.items ≡ spans_at 0 (all_spans_of waiting.old.items) }
    ensures rest { waiting.new.items ≡ drop 1 waiting.old.items }
{
    match waiting.pop_front() {
        Some(body) => body,
        None => Vec::new(alloc),
    }
}

/// Takes the first `count` waiting bodies out.
fn next_bodies(
    alloc: Global,
    waiting: &mut VecDeque<Vec<PlacedBase>>,
    count: usize,
) -> Result<Vec<Vec<PlacedBase>>, AllocError>
    ensures bodies { IfOk result (λ bodies. bodies.items ≡ take count waiting.old.items) }
    ensures rest { OnOk result (waiting.new.items ≡ drop count waiting.old.items) }
{
    let mut bodies = Vec::new(alloc);
    for _ in 0..count {
        let Some(body) = waiting.pop_front() else {
            break;
        };
        bodies.push(body)?;
    }
    Ok(bodies)
}

/// A base form around the first waiting body.
fn around(
    alloc: Global,
    form: BaseForm,
    span: Span,
    waiting: &mut VecDeque<Vec<PlacedBase>>,
) -> Result<Vec<PlacedBase>, AllocError>
    ensures body { IfOk result (λ body. bases_of body.items ≡ form ∷ body_at 0 (all_bases_of waiting.old.items)) }
    ensures spans { IfOk result (λ body. spans_of body.items ≡ span ∷ spans_at 0 (all_spans_of waiting.old.items)) }
    ensures rest { OnOk result (waiting.new.items ≡ drop 1 waiting.old.items) }
{
    let body = next_body(alloc, waiting);
    before_all(form, span, body)
}

/// The first two waiting bodies, one after the other.
fn next_two(
    alloc: Global,
    waiting: &mut VecDeque<Vec<PlacedBase>>,
) -> Result<Vec<PlacedBase>, AllocError>
    ensures bodies { IfOk result (λ both. bases_of both.items ≡ body_at 0 (all_bases_of waiting.old.items) ++ body_at 1 (all_bases_of waiting.old.items)) }
    ensures spans { IfOk result (λ both. spans_of both.items ≡ spans_at 0 (all_spans_of waiting.old.items) ++ spans_at 1 (all_spans_of waiting.old.items)) }
    ensures rest { OnOk result (waiting.new.items ≡ drop 2 waiting.old.items) }
{
    let mut both = next_body(alloc, waiting);
    let mut second = next_body(alloc, waiting);
    both.append(&mut second)?;
    Ok(both)
}

/// A `seq` of the first `count` waiting bodies.
#[tactic(auto, using(crate::proofs::MeaningLemmas::Placed::bases_taken, crate::proofs::MeaningLemmas::Placed::spans_taken))]
fn seq_body(
    alloc: Global,
    count: usize,
    span: Span,
    waiting: &mut VecDeque<Vec<PlacedBase>>,
) -> Result<Vec<PlacedBase>, MakingError>
    ensures body { IfOk result (λ body. bases_of body.items ≡ meaning.seq_of (take count (all_bases_of waiting.old.items))) }
    ensures spans { IfOk result (λ body. spans_of body.items ≡ before_spans span (take count (all_spans_of waiting.old.items))) }
    ensures rest { OnOk result (waiting.new.items ≡ drop count waiting.old.items) }
    ensures memory { IsErrOf result MakingError.Refused → ⊥ }
{
    let bodies = next_bodies(alloc, waiting, count)?;
    Ok(seq_of(alloc, span, bodies)?)
}

/// A form of the first `count` waiting bodies.
#[tactic(auto, using(crate::proofs::MeaningLemmas::Placed::bases_taken, crate::proofs::MeaningLemmas::Placed::spans_taken))]
fn some_body(
    alloc: Global,
    form: SomeForm,
    count: usize,
    span: Span,
    waiting: &mut VecDeque<Vec<PlacedBase>>,
) -> Result<Vec<PlacedBase>, MakingError>
    ensures body { IfOk result (λ body. bases_of body.items ≡ meaning.some_of form (take count (all_bases_of waiting.old.items))) }
    ensures spans { IfOk result (λ body. spans_of body.items ≡ some_spans form span (take count (all_spans_of waiting.old.items))) }
    ensures rest { OnOk result (waiting.new.items ≡ drop count waiting.old.items) }
    ensures memory { IsErrOf result MakingError.Refused → ⊥ }
{
    let bodies = next_bodies(alloc, waiting, count)?;
    Ok(some_of(alloc, form, span, bodies)?)
}

/// A form of the first waiting body.
fn one_body(
    alloc: Global,
    form: OneForm,
    span: Span,
    waiting: &mut VecDeque<Vec<PlacedBase>>,
) -> Result<Vec<PlacedBase>, MakingError>
    ensures body { IfOk result (λ body. bases_of body.items ≡ meaning.one_of form (body_at 0 (all_bases_of waiting.old.items))) }
    ensures spans { IfOk result (λ body. spans_of body.items ≡ one_spans form span (spans_at 0 (all_spans_of waiting.old.items))) }
    ensures rest { OnOk result (waiting.new.items ≡ drop 1 waiting.old.items) }
    ensures memory { IsErrOf result MakingError.Refused → ⊥ }
{
    let body = next_body(alloc, waiting);
    Ok(one_of(alloc, form, span, body)?)
}

/// A form of a body and a separator, the first two waiting bodies.
fn two_body(
    alloc: Global,
    form: TwoForm,
    span: Span,
    waiting: &mut VecDeque<Vec<PlacedBase>>,
) -> Result<Vec<PlacedBase>, MakingError>
    ensures body { IfOk result (λ body. bases_of body.items ≡ meaning.two_of form (body_at 0 (all_bases_of waiting.old.items)) (body_at 1 (all_bases_of waiting.old.items))) }
    ensures spans { IfOk result (λ body. spans_of body.items ≡ two_spans form span (spans_at 0 (all_spans_of waiting.old.items)) (spans_at 1 (all_spans_of waiting.old.items))) }
    ensures rest { OnOk result (waiting.new.items ≡ drop 2 waiting.old.items) }
    ensures memory { IsErrOf result MakingError.Refused → ⊥ }
{
    let body = next_body(alloc, waiting);
    let separator = next_body(alloc, waiting);
    Ok(two_of(alloc, form, span, body, separator)?)
}

/// A body between two others. The first three waiting bodies are the one before, the one after, and the body.
fn between_body(
    alloc: Global,
    span: Span,
    waiting: &mut VecDeque<Vec<PlacedBase>>,
) -> Result<Vec<PlacedBase>, MakingError>
    ensures body { IfOk result (λ body. bases_of body.items ≡ meaning.between_of (body_at 0 (all_bases_of waiting.old.items)) (body_at 1 (all_bases_of waiting.old.items)) (body_at 2 (all_bases_of waiting.old.items))) }
    ensures spans { IfOk result (λ body. spans_of body.items ≡ between_spans span (spans_at 0 (all_spans_of waiting.old.items)) (spans_at 1 (all_spans_of waiting.old.items)) (spans_at 2 (all_spans_of waiting.old.items))) }
    ensures rest { OnOk result (waiting.new.items ≡ drop 3 waiting.old.items) }
    ensures memory { IsErrOf result MakingError.Refused → ⊥ }
{
    let before = next_body(alloc, waiting);
    let after = next_body(alloc, waiting);
    let inner = next_body(alloc, waiting);
    Ok(between_of(alloc, span, before, after, inner)?)
}

/// A form of a class expression.
fn class_of(form: ClassForm, class: ClassExpression) -> BaseForm
    ensures { result ≡ meaning.class_of form class }
{
    match form {
        ClassForm::Satisfy => Form::Leaf(Leaf::Satisfy(class)),
        ClassForm::NotFollowedBy => Form::Leaf(Leaf::NotFollowedBy(class)),
        ClassForm::Declare => Form::Leaf(Leaf::Declare(class)),
    }
}

/// The body of a form of a class expression. Refused if a name in it is unknown.
fn class_body(
    alloc: Global,
    registry: &Registry,
    classes: &[Characters],
    form: ClassForm,
    class: &WrittenClass,
    span: Span,
) -> Result<Vec<PlacedBase>, MakingError>
    ensures meant { IfOk result (λ body. bases_of body.items ≡ meaning.class_of form (parts_meant (offer_of registry.now) classes.now class.now) ∷ []) }
    ensures spans { IfOk result (λ body. spans_of body.items ≡ span ∷ []) }
    ensures known { OnOk result (ClassIsKnown (offer_of registry.now) classes.now class.now) }
    ensures refused { IsErrOf result MakingError.Refused → ClassIsKnown (offer_of registry.now) classes.now class.now → ⊥ }
{
    let class = class_meant(alloc, registry, classes, class)?;
    Ok(single(alloc, class_of(form, class), span)?)
}

/// A builder's name and its symbol, as they are written.
#[derive(Clone, Copy)]
struct WrittenBuilder<'n> {
    name: &'n Characters,
    symbol: &'n Characters,
}

/// A chain of the first two waiting bodies. Refused if no builder has the name.
fn chain_body(
    alloc: Global,
    registry: &Registry,
    side: Side,
    written: &WrittenBuilder<'_>,
    span: Span,
    waiting: &mut VecDeque<Vec<PlacedBase>>,
) -> Result<Vec<PlacedBase>, MakingError>
    ensures meant { IfOk result (λ body. bases_of body.items ≡ meaning.chain_of side (chain_builder_named (offer_of registry.now) written.now.name.now written.now.symbol.now) ∷ (body_at 0 (all_bases_of waiting.old.items) ++ body_at 1 (all_bases_of waiting.old.items))) }
    ensures spans { IfOk result (λ body. spans_of body.items ≡ span ∷ (spans_at 0 (all_spans_of waiting.old.items) ++ spans_at 1 (all_spans_of waiting.old.items))) }
    ensures rest { OnOk result (waiting.new.items ≡ drop 2 waiting.old.items) }
    ensures known { OnOk result (BuilderIsKnown (offer_of registry.now) written.now.name.now) }
    ensures refused { IsErrOf result MakingError.Refused → BuilderIsKnown (offer_of registry.now) written.now.name.now → ⊥ }
{
    let (name, symbol) = (written.name.as_slice(), written.symbol.as_slice());
    let used = chain_builder_named(alloc, registry, name, symbol)?;
    let parts = next_two(alloc, waiting)?;
    let chain = Form::Chain(side, used, NextForm, NextForm);
    Ok(before_all(chain, span, parts)?)
}

/// Operators around the first waiting body. Refused if no builder has one of the names.
fn expression_body(
    alloc: Global,
    registry: &Registry,
    builders: &BuilderNames<'_>,
    span: Span,
    waiting: &mut VecDeque<Vec<PlacedBase>>,
) -> Result<Vec<PlacedBase>, MakingError>
    ensures meant { IfOk result (λ body. bases_of body.items ≡ form.Expression (meaning.builders_named (offer_of registry.now) builders.now.infix.now builders.now.prefix.now builders.now.postfix.now) (record {}) ∷ body_at 0 (all_bases_of waiting.old.items)) }
    ensures spans { IfOk result (λ body. spans_of body.items ≡ span ∷ spans_at 0 (all_spans_of waiting.old.items)) }
    ensures rest { OnOk result (waiting.new.items ≡ drop 1 waiting.old.items) }
    ensures known { OnOk result (BuilderIsKnown (offer_of registry.now) builders.now.infix.now × BuilderIsKnown (offer_of registry.now) builders.now.prefix.now × BuilderIsKnown (offer_of registry.now) builders.now.postfix.now) }
    ensures refused { IsErrOf result MakingError.Refused → (BuilderIsKnown (offer_of registry.now) builders.now.infix.now × BuilderIsKnown (offer_of registry.now) builders.now.prefix.now × BuilderIsKnown (offer_of registry.now) builders.now.postfix.now) → ⊥ }
{
    let builders = builders_named(alloc, registry, builders)?;
    Ok(around(alloc, Form::Expression(builders, NextForm), span, waiting)?)
}

/// A builder around the first waiting body. Refused if no builder has the name.
fn build_body(
    alloc: Global,
    registry: &Registry,
    builder: &Characters,
    symbol: &Characters,
    span: Span,
    waiting: &mut VecDeque<Vec<PlacedBase>>,
) -> Result<Vec<PlacedBase>, MakingError>
    ensures meant { IfOk result (λ body. bases_of body.items ≡ form.Around (around.Build (builder_named (offer_of registry.now) builder.now) (encode_utf8_all symbol.now)) (record {}) ∷ body_at 0 (all_bases_of waiting.old.items)) }
    ensures spans { IfOk result (λ body. spans_of body.items ≡ span ∷ spans_at 0 (all_spans_of waiting.old.items)) }
    ensures rest { OnOk result (waiting.new.items ≡ drop 1 waiting.old.items) }
    ensures known { OnOk result (BuilderIsKnown (offer_of registry.now) builder.now) }
    ensures refused { IsErrOf result MakingError.Refused → BuilderIsKnown (offer_of registry.now) builder.now → ⊥ }
{
    let used = builder_named(alloc, registry, builder.as_slice())?;
    let form = Form::Around(
        Around::Build(used, label(alloc, symbol.as_slice())?),
        NextForm,
    );
    Ok(around(alloc, form, span, waiting)?)
}

/// The body of a string.
fn string_body(alloc: Global, text: &Characters, span: Span) -> Result<Vec<PlacedBase>, MakingError>
    ensures body { IfOk result (λ body. bases_of body.items ≡ form.Leaf (leaf.String text.now) ∷ []) }
    ensures spans { IfOk result (λ body. spans_of body.items ≡ span ∷ []) }
    ensures memory { IsErrOf result MakingError.Refused → ⊥ }
{
    let form = Form::Leaf(Leaf::String(copied(alloc, text.as_slice())?));
    Ok(single(alloc, form, span)?)
}

/// The body of a word.
fn word_body(alloc: Global, text: &Characters, span: Span) -> Result<Vec<PlacedBase>, MakingError>
    ensures body { IfOk result (λ body. bases_of body.items ≡ form.Leaf (leaf.Word text.now) ∷ []) }
    ensures spans { IfOk result (λ body. spans_of body.items ≡ span ∷ []) }
    ensures memory { IsErrOf result MakingError.Refused → ⊥ }
{
    let form = Form::Leaf(Leaf::Word(copied(alloc, text.as_slice())?));
    Ok(single(alloc, form, span)?)
}

/// The body of a rule's name.
fn rule_body(alloc: Global, text: &Characters, span: Span) -> Result<Vec<PlacedBase>, MakingError>
    ensures body { IfOk result (λ body. bases_of body.items ≡ form.Rule text.now ∷ []) }
    ensures spans { IfOk result (λ body. spans_of body.items ≡ span ∷ []) }
    ensures memory { IsErrOf result MakingError.Refused → ⊥ }
{
    let form = Form::Rule(copied(alloc, text.as_slice())?);
    Ok(single(alloc, form, span)?)
}

/// The body of the end of the text.
fn end_body(alloc: Global, span: Span) -> Result<Vec<PlacedBase>, MakingError>
    ensures body { IfOk result (λ body. bases_of body.items ≡ form.Leaf leaf.EndOfText ∷ []) }
    ensures spans { IfOk result (λ body. spans_of body.items ≡ span ∷ []) }
    ensures memory { IsErrOf result MakingError.Refused → ⊥ }
{
    Ok(single(alloc, Form::Leaf(Leaf::EndOfText), span)?)
}

/// The first waiting body with a message.
fn label_body(
    alloc: Global,
    message: &Characters,
    span: Span,
    waiting: &mut VecDeque<Vec<PlacedBase>>,
) -> Result<Vec<PlacedBase>, MakingError>
    ensures body { IfOk result (λ body. bases_of body.items ≡ form.Around (around.Label message.now) (record {}) ∷ body_at 0 (all_bases_of waiting.old.items)) }
    ensures spans { IfOk result (λ body. spans_of body.items ≡ span ∷ spans_at 0 (all_spans_of waiting.old.items)) }
    ensures rest { OnOk result (waiting.new.items ≡ drop 1 waiting.old.items) }
    ensures memory { IsErrOf result MakingError.Refused → ⊥ }
{
    let form = Form::Around(Around::Label(copied(alloc, message.as_slice())?), NextForm);
    Ok(around(alloc, form, span, waiting)?)
}

/// The body of a form. The bodies of its parts are taken out of those that wait. Refused if the name of a class or a builder is unknown.
fn body_of_form(
    alloc: Global,
    registry: &Registry,
    classes: &[Characters],
    placed: &PlacedForm,
    waiting: &mut VecDeque<Vec<PlacedBase>>,
) -> Result<Vec<PlacedBase>, MakingError>
    ensures meant { IfOk result (λ body. bases_of body.items ≡ body_of_form (offer_of registry.now) classes.now placed.now.form (take (part_count placed.now.form) (all_bases_of waiting.old.items))) }
    ensures spans { IfOk result (λ body. spans_of body.items ≡ spans_of_form placed.now.form placed.now.span (take (part_count placed.now.form) (all_spans_of waiting.old.items))) }
    ensures rest { OnOk result (waiting.new.items ≡ drop (part_count placed.now.form) waiting.old.items) }
    ensures known { OnOk result (FormIsKnown (offer_of registry.now) classes.now placed.now.form) }
    ensures refused { IsErrOf result MakingError.Refused → FormIsKnown (offer_of registry.now) classes.now placed.now.form → ⊥ }
{
    let span = placed.span;
    match &placed.form {
        WrittenForm::OfClass(form, class) => {
            class_body(alloc, registry, classes, *form, class, span)
        }
        WrittenForm::String(text) => string_body(alloc, text, span),
        WrittenForm::Seq(count) => seq_body(alloc, *count, span, waiting),
        WrittenForm::OfSome(form, count) => some_body(alloc, *form, *count, span, waiting),
        WrittenForm::OfOne(form) => one_body(alloc, *form, span, waiting),
        WrittenForm::OfTwo(form) => two_body(alloc, *form, span, waiting),
        WrittenForm::Between => between_body(alloc, span, waiting),
        WrittenForm::Chain {
            side,
            builder,
            symbol,
        } => {
            let written = WrittenBuilder {
                name: builder,
                symbol,
            };
            chain_body(alloc, registry, *side, &written, span, waiting)
        }
        WrittenForm::Expression {
            infix,
            prefix,
            postfix,
        } => {
            let builders = BuilderNames {
                infix,
                prefix,
                postfix,
            };
            expression_body(alloc, registry, &builders, span, waiting)
        }
        WrittenForm::Build { builder, symbol } => {
            build_body(alloc, registry, builder, symbol, span, waiting)
        }
        WrittenForm::Label(message) => label_body(alloc, message, span, waiting),
        WrittenForm::EndOfText => end_body(alloc, span),
        WrittenForm::Word(name) => word_body(alloc, name, span),
        WrittenForm::Rule(name) => rule_body(alloc, name, span),
    }
}
