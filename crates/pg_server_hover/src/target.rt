//! What is at a place: a rule, by its name, or the innermost form.

use pg_explain_context::GrammarFile;
use pg_file_items::Span;
use pg_grammar_form::NodeId;
use pg_grammar_value::Grammar;
use pg_server_names::{NameKind, Occurrence, Sense, characters_in, name_at};
use pg_sets::Sets;

/// A grammar file that was read, and what was worked out of its grammar.
#[derive(Clone, Copy)]
pub struct HoverFile<'f> {
    pub file: &'f GrammarFile<'f>,
    pub grammar: &'f Grammar,
    pub sets: &'f Sets,
    /// The step cost, if the grammar is accepted.
    pub cost: Option<u64>,
}

/// What is at a place.
#[derive(Clone, Copy)]
pub(crate) struct Target {
    /// The characters of the name or the form.
    pub(crate) span: Span,
    /// The form, or the rule's body.
    pub(crate) node: NodeId,
    /// The number of the rule, if a rule's name is there.
    pub(crate) rule: Option<usize>,
}

/// What is at a place, if anything is.
pub(crate) fn target_at(file: &HoverFile, names: &[Occurrence], place: usize) -> Option<Target> {
    match name_at(names, place) {
        Some(name) => match name.sense {
            Sense::Defines(NameKind::Rule) | Sense::Uses(NameKind::Rule) => {
                rule_at(file, name.span)
            }
            Sense::Defines(NameKind::Class | NameKind::Word)
            | Sense::Uses(NameKind::Class | NameKind::Word)
            | Sense::Builder
            | Sense::Keyword
            | Sense::Stray => form_at(file, place),
        },
        None => form_at(file, place),
    }
}

/// The rule with the name at a span. Where it is used, what follows is what follows that use.
fn rule_at(file: &HoverFile, span: Span) -> Option<Target> {
    let name = characters_in(file.file.text, span);
    let rules = file.grammar.rules();
    let number = rules.iter().position(|rule| rule.name.as_slice() == name)?;
    let node = match file.file.spans.iter().position(|written| *written == span) {
        Some(node) => NodeId::new(node),
        None => rules.get(number)?.body,
    };
    Some(Target {
        span,
        node,
        rule: Some(number),
    })
}

/// The form with the fewest characters around a place; the first, if several nodes were written by it.
fn form_at(file: &HoverFile, place: usize) -> Option<Target> {
    let mut found = None;
    let mut least = usize::MAX;
    for (number, span) in file.file.spans.iter().enumerate() {
        let width = span.after.saturating_sub(span.first);
        if span.first <= place && place < span.after && width < least {
            least = width;
            found = Some(Target {
                span: *span,
                node: NodeId::new(number),
                rule: None,
            });
        }
    }
    found
}
