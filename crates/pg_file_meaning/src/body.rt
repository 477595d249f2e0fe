//! Bodies in base forms, and how short forms combine the bodies of their parts.
//!
//! A body is one whole form in preorder. Each base form keeps the span of the written form that it comes from, so that
//! a finding about a node can be shown in the file. `specs/Meaning.antt` has the same functions on lists.

ghost use Rattle.std.specs.Prelude.{◌≡◌, ◌∷◌, [], map, IfOk};
ghost use Rattle.std.specs.Global.{Vec};
ghost use Rattle.pg_file_items.specs.Joined as spec;
ghost use Rattle.pg_file_meaning.specs.Bodies.{bases_of, all_bases_of};
ghost use Rattle.pg_file_meaning.specs.Meaning as meaning;
ghost use Rattle.pg_file_meaning.specs.Spans.{all_spans_of, before_spans, between_spans, one_spans, optional_spans, separated_spans, some_spans, spans_of, two_spans, whole_spans};

use pg_file_items::{OneForm, SomeForm, Span, TwoForm};
use pg_grammar_form::{Around, BaseForm, Form, NextForm};
use std::alloc::{AllocError, Global};

/// A base form and the place of the written form that it comes from.
#[derive(Drop)]
pub struct PlacedBase {
    pub form: BaseForm,
    /// The characters of the written form.
    pub span: Span,
}

/// The body of one base form.
pub fn single(alloc: Global, form: BaseForm, span: Span) -> Result<Vec<PlacedBase>, AllocError>
    ensures forms { IfOk result (λ body. bases_of body.items ≡ form ∷ []) }
    ensures spans { IfOk result (λ body. spans_of body.items ≡ span ∷ []) }
{
    Ok(vec![in alloc; PlacedBase { form, span }]?)
}

/// A base form before a body, or before several bodies joined.
pub fn before_all(
    form: BaseForm,
    span: Span,
    body: Vec<PlacedBase>,
) -> Result<Vec<PlacedBase>, AllocError>
    ensures forms { IfOk result (λ whole. bases_of whole.items ≡ form ∷ bases_of body.items) }
    ensures spans { IfOk result (λ whole. spans_of whole.items ≡ span ∷ spans_of body.items) }
{
    let mut whole = body;
    whole.insert(0, PlacedBase { form, span })?;
    Ok(whole)
}

/// Joins the bodies, one after another.
pub fn joined(alloc: Global, bodies: Vec<Vec<PlacedBase>>) -> Result<Vec<PlacedBase>, AllocError>
    ensures forms { IfOk result (λ all. bases_of all.items ≡ spec.joined (all_bases_of bodies.items)) }
    ensures spans { IfOk result (λ all. spans_of all.items ≡ spec.joined (all_spans_of bodies.items)) }
{
    let mut all = Vec::new(alloc);
    for body in bodies {
        let mut body = body;
        all.append(&mut body)?;
    }
    Ok(all)
}

/// A copy of the body in memory of its own.
fn copied(alloc: Global, body: &[PlacedBase]) -> Result<Vec<PlacedBase>, AllocError>
    ensures forms { IfOk result (λ copies. bases_of copies.items ≡ bases_of body.now) }
    ensures spans { IfOk result (λ copies. spans_of copies.items ≡ spans_of body.now) }
{
    let mut copies = Vec::new(alloc);
    for placed in body {
        copies.push(PlacedBase {
            form: placed.form.copy(alloc)?,
            span: placed.span,
        })?;
    }
    Ok(copies)
}

/// A `seq` of the bodies.
pub fn seq_of(
    alloc: Global,
    span: Span,
    bodies: Vec<Vec<PlacedBase>>,
) -> Result<Vec<PlacedBase>, AllocError>
    ensures forms { IfOk result (λ body. bases_of body.items ≡ meaning.seq_of (all_bases_of bodies.items)) }
    ensures spans { IfOk result (λ body. spans_of body.items ≡ before_spans span (all_spans_of bodies.items)) }
{
    let count = bodies.len();
    let all = joined(alloc, bodies)?;
    before_all(Form::Seq(count), span, all)
}

/// A `choice` of the bodies.
fn choice_of(
    alloc: Global,
    span: Span,
    bodies: Vec<Vec<PlacedBase>>,
) -> Result<Vec<PlacedBase>, AllocError>
    ensures forms { IfOk result (λ body. bases_of body.items ≡ meaning.choice_of (all_bases_of bodies.items)) }
    ensures spans { IfOk result (λ body. spans_of body.items ≡ before_spans span (all_spans_of bodies.items)) }
{
    let count = bodies.len();
    let all = joined(alloc, bodies)?;
    before_all(Form::Choice(count), span, all)
}

/// A single body as it is, several in a `seq`.
fn whole_of(
    alloc: Global,
    span: Span,
    bodies: Vec<Vec<PlacedBase>>,
) -> Result<Vec<PlacedBase>, AllocError>
    ensures forms { IfOk result (λ body. bases_of body.items ≡ meaning.whole_of (all_bases_of bodies.items)) }
    ensures spans { IfOk result (λ body. spans_of body.items ≡ whole_spans span (all_spans_of bodies.items)) }
{
    if bodies.len() == 1 {
        joined(alloc, bodies)
    } else {
        seq_of(alloc, span, bodies)
    }
}

/// The meaning of a form of several bodies.
pub fn some_of(
    alloc: Global,
    form: SomeForm,
    span: Span,
    bodies: Vec<Vec<PlacedBase>>,
) -> Result<Vec<PlacedBase>, AllocError>
    ensures forms { IfOk result (λ body. bases_of body.items ≡ meaning.some_of form (all_bases_of bodies.items)) }
    ensures spans { IfOk result (λ body. spans_of body.items ≡ some_spans form span (all_spans_of bodies.items)) }
{
    match form {
        SomeForm::Choice => choice_of(alloc, span, bodies),
        SomeForm::Try => {
            let body = whole_of(alloc, span, bodies)?;
            before_all(Form::Around(Around::Try, NextForm), span, body)
        }
        SomeForm::Local => {
            let body = whole_of(alloc, span, bodies)?;
            before_all(Form::Around(Around::Local, NextForm), span, body)
        }
    }
}

/// A body whose trees are dropped.
fn skipped(span: Span, body: Vec<PlacedBase>) -> Result<Vec<PlacedBase>, AllocError>
    ensures forms { IfOk result (λ whole. bases_of whole.items ≡ meaning.skipped (bases_of body.items)) }
    ensures spans { IfOk result (λ whole. spans_of whole.items ≡ span ∷ spans_of body.items) }
{
    before_all(Form::Around(Around::Skip, NextForm), span, body)
}

/// A body as often as it succeeds.
fn repeated(span: Span, body: Vec<PlacedBase>) -> Result<Vec<PlacedBase>, AllocError>
    ensures forms { IfOk result (λ whole. bases_of whole.items ≡ meaning.repeated (bases_of body.items)) }
    ensures spans { IfOk result (λ whole. spans_of whole.items ≡ span ∷ spans_of body.items) }
{
    before_all(Form::Many(NextForm), span, body)
}

/// A body, or nothing.
fn optional(alloc: Global, span: Span, body: Vec<PlacedBase>) -> Result<Vec<PlacedBase>, AllocError>
    ensures forms { IfOk result (λ whole. bases_of whole.items ≡ meaning.optional (bases_of body.items)) }
    ensures spans { IfOk result (λ whole. spans_of whole.items ≡ optional_spans span (spans_of body.items)) }
{
    let nothing = seq_of(alloc, span, Vec::new(alloc))?;
    let bodies = vec![in alloc; body, nothing]?;
    choice_of(alloc, span, bodies)
}

/// A body once or more, with a separator between any two.
fn separated(
    alloc: Global,
    span: Span,
    body: Vec<PlacedBase>,
    separator: Vec<PlacedBase>,
) -> Result<Vec<PlacedBase>, AllocError>
    ensures forms { IfOk result (λ whole. bases_of whole.items ≡ meaning.separated (bases_of body.items) (bases_of separator.items)) }
    ensures spans { IfOk result (λ whole. spans_of whole.items ≡ separated_spans span (spans_of body.items) (spans_of separator.items)) }
{
    let again = copied(alloc, body.as_slice())?;
    let round = vec![in alloc; skipped(span, separator)?, again]?;
    let rounds = repeated(span, seq_of(alloc, span, round)?)?;
    let bodies = vec![in alloc; body, rounds]?;
    seq_of(alloc, span, bodies)
}

/// The meaning of a form of one body.
pub fn one_of(
    alloc: Global,
    form: OneForm,
    span: Span,
    body: Vec<PlacedBase>,
) -> Result<Vec<PlacedBase>, AllocError>
    ensures forms { IfOk result (λ whole. bases_of whole.items ≡ meaning.one_of form (bases_of body.items)) }
    ensures spans { IfOk result (λ whole. spans_of whole.items ≡ one_spans form span (spans_of body.items)) }
{
    match form {
        OneForm::Many => repeated(span, body),
        OneForm::Many1 => {
            let again = copied(alloc, body.as_slice())?;
            let bodies = vec![in alloc; body, repeated(span, again)?]?;
            seq_of(alloc, span, bodies)
        }
        OneForm::Option => optional(alloc, span, body),
        OneForm::Text => before_all(Form::Around(Around::Text, NextForm), span, body),
        OneForm::Skip => skipped(span, body),
    }
}

/// The meaning of a form of a body and a separator.
pub fn two_of(
    alloc: Global,
    form: TwoForm,
    span: Span,
    body: Vec<PlacedBase>,
    separator: Vec<PlacedBase>,
) -> Result<Vec<PlacedBase>, AllocError>
    ensures forms { IfOk result (λ whole. bases_of whole.items ≡ meaning.two_of form (bases_of body.items) (bases_of separator.items)) }
    ensures spans { IfOk result (λ whole. spans_of whole.items ≡ two_spans form span (spans_of body.items) (spans_of separator.items)) }
{
    match form {
        TwoForm::SepBy => {
            let once = separated(alloc, span, body, separator)?;
            optional(alloc, span, once)
        }
        TwoForm::SepBy1 => separated(alloc, span, body, separator),
        TwoForm::EndBy => {
            let round = vec![in alloc; body, skipped(span, separator)?]?;
            repeated(span, seq_of(alloc, span, round)?)
        }
    }
}

/// A body between two others.
pub fn between_of(
    alloc: Global,
    span: Span,
    before: Vec<PlacedBase>,
    after: Vec<PlacedBase>,
    inner: Vec<PlacedBase>,
) -> Result<Vec<PlacedBase>, AllocError>
    ensures forms { IfOk result (λ whole. bases_of whole.items ≡ meaning.between_of (bases_of before.items) (bases_of after.items) (bases_of inner.items)) }
    ensures spans { IfOk result (λ whole. spans_of whole.items ≡ between_spans span (spans_of before.items) (spans_of after.items) (spans_of inner.items)) }
{
    let bodies = vec![in alloc; skipped(span, before)?, inner, skipped(span, after)?]?;
    seq_of(alloc, span, bodies)
}
