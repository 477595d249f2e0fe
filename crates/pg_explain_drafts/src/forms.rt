//! The forms of a file's rules as they are written, in preorder.
//!
//! A form is named by its number among all of them. The parts of a form are found by their spans: no two forms begin at the same place, and parts lie within
//! the span of their form. A number that names no form has no parts and no text.

use crate::kinds::{Kind, characters_of, kind_of, symbol_of};
use crate::rules::WrittenRule;
use crate::spans::{item_spans, slice_of};
use pg_file_items::{Item, PlacedForm, Span};
use pg_file_tokens::Lexeme;
use std::alloc::{AllocError, Global};

/// The forms and rules of a file, with its characters, its tokens and its items.
#[derive(Drop)]
pub struct Forms<'s> {
    pub text: &'s [char],
    pub lexemes: &'s [Lexeme],
    pub items: &'s [Item],
    pub rules: Vec<WrittenRule<'s>>,
    item_spans: Vec<Span>,
    /// For each character of the file, the form that begins there, if one does.
    begun: Vec<Option<usize>>,
    nodes: Vec<Node<'s>>,
    /// The parts of each form.
    parts: Vec<Vec<usize>>,
}

/// A form, the form that it is a part of, and whether it can be empty.
#[derive(Clone, Copy)]
struct Node<'s> {
    placed: &'s PlacedForm,
    parent: Option<usize>,
    is_nullable: bool,
}

impl<'s> Forms<'s> {
    /// The forms of these items. The spans are those of the grammar's nodes, and for each node there is a mark whether it can be empty. Fails where memory
    /// runs out.
    pub fn of(
        alloc: Global,
        text: &'s [char],
        lexemes: &'s [Lexeme],
        items: &'s [Item],
        spans: &[Span],
        nullable: &[bool],
    ) -> Result<Forms<'s>, AllocError> {
        let item_spans = item_spans(alloc, lexemes)?;
        let begun = vec![in alloc; None; text.len()]?;
        let mut forms = Forms {
            text,
            lexemes,
            items,
            rules: Vec::new(alloc),
            item_spans,
            begun,
            nodes: Vec::new(alloc),
            parts: Vec::new(alloc),
        };
        for item in items {
            forms.push_item(alloc, item)?;
        }
        forms.mark_nullable(spans, nullable);
        Ok(forms)
    }

    /// Adds a rule and its forms.
    fn push_item(&mut self, alloc: Global, item: &'s Item) -> Result<(), AllocError> {
        match item {
            Item::Rule { name, place, body } => {
                self.rules.push(WrittenRule {
                    name: name.as_slice(),
                    place: *place,
                    body: self.nodes.len(),
                })?;
                for form in body {
                    self.push_form(alloc, form)?;
                }
                Ok(())
            }
            Item::Class { .. }
            | Item::Word { .. }
            | Item::Operators { .. }
            | Item::Table { .. }
            | Item::Start { .. } => Ok(()),
        }
    }

    /// Adds a form, which comes after all added so far.
    fn push_form(&mut self, alloc: Global, placed: &'s PlacedForm) -> Result<(), AllocError> {
        let number = self.nodes.len();
        let first = placed.span.first;
        let parent = self.last_around(first);
        self.push_part(parent, number)?;
        if let Some(begun) = self.begun.get_mut(first) {
            *begun = Some(number);
        }
        self.nodes.push(Node {
            placed,
            parent,
            is_nullable: false,
        })?;
        self.parts.push(Vec::new(alloc))?;
        Ok(())
    }

    /// Adds a part to a form, if there is one.
    fn push_part(&mut self, form: Option<usize>, part: usize) -> Result<(), AllocError> {
        if let Some(form) = form
            && let Some(parts) = self.parts.get_mut(form)
        {
            parts.push(part)?;
        }
        Ok(())
    }

    /// The innermost of the forms added so far that still goes on at a place.
    fn last_around(&self, place: usize) -> Option<usize> {
        let mut around = self.nodes.len().checked_sub(1);
        for _ in 0..self.nodes.len() {
            match around {
                Some(form) if self.span(form).after <= place => around = self.parent(form),
                Some(_) | None => break,
            }
        }
        around
    }

    /// Marks the forms that can be empty: those where the first node with the same span can.
    fn mark_nullable(&mut self, spans: &[Span], nullable: &[bool]) {
        for number in (0..spans.len()).rev() {
            if let (Some(span), Some(is_nullable)) = (spans.get(number), nullable.get(number))
                && let Some(form) = self.at(*span)
                && let Some(node) = self.nodes.get_mut(form)
            {
                node.is_nullable = *is_nullable;
            }
        }
    }

    /// The item at a place, with its semicolon.
    pub fn item_at(&self, place: usize) -> Option<Span> {
        for span in &self.item_spans {
            if span.first <= place && place < span.after {
                return Some(*span);
            }
        }
        None
    }

    /// The number of forms.
    pub fn count(&self) -> usize {
        self.nodes.len()
    }

    /// The form with this span.
    pub fn at(&self, span: Span) -> Option<usize> {
        match self.begun.get(span.first) {
            Some(Some(form)) if self.span(*form) == span => Some(*form),
            Some(_) | None => None,
        }
    }

    /// Its characters in the file.
    pub fn span(&self, form: usize) -> Span {
        match self.nodes.get(form) {
            Some(node) => node.placed.span,
            None => Span { first: 0, after: 0 },
        }
    }

    /// Its spelling.
    pub fn spelling(&self, form: usize) -> &'s [char] {
        slice_of(self.text, self.span(form))
    }

    /// Whether two forms have the same spelling.
    pub fn is_alike(&self, one: usize, other: usize) -> bool {
        self.spelling(one) == self.spelling(other)
    }

    /// Its kind.
    pub fn kind(&self, form: usize) -> Option<Kind> {
        match self.nodes.get(form) {
            Some(node) => Some(kind_of(&node.placed.form)),
            None => None,
        }
    }

    /// Whether it is of this kind.
    pub fn is(&self, form: usize, kind: Kind) -> bool {
        match self.kind(form) {
            Some(other) => other == kind,
            None => false,
        }
    }

    /// Whether it is of one of these kinds.
    pub fn is_among(&self, form: usize, kinds: &[Kind]) -> bool {
        match self.kind(form) {
            Some(kind) => kinds.contains(&kind),
            None => false,
        }
    }

    /// The characters of a `string`, or the name of a rule, of a `word`'s item or of a `build`'s builder, if the form is of that kind.
    pub fn characters(&self, form: usize, kind: Kind) -> Option<&'s [char]> {
        match self.nodes.get(form) {
            Some(node) if kind_of(&node.placed.form) == kind => characters_of(&node.placed.form),
            Some(_) | None => None,
        }
    }

    /// The symbol of a `build`, or none.
    pub fn symbol(&self, form: usize) -> &'s [char] {
        match self.nodes.get(form) {
            Some(node) => symbol_of(&node.placed.form),
            None => &[],
        }
    }

    /// Its parts, from left to right.
    pub fn parts(&self, form: usize) -> &[usize] {
        match self.parts.get(form) {
            Some(parts) => parts.as_slice(),
            None => &[],
        }
    }

    /// The form that it is a part of, if there is one.
    pub fn parent(&self, form: usize) -> Option<usize> {
        match self.nodes.get(form) {
            Some(node) => node.parent,
            None => None,
        }
    }

    /// Whether it can be empty.
    pub fn is_nullable(&self, form: usize) -> bool {
        match self.nodes.get(form) {
            Some(node) => node.is_nullable,
            None => false,
        }
    }

    /// The part after a form in its `seq`, or in the `local` that it is in.
    pub fn next_part(&self, form: usize) -> Option<usize> {
        let parent = self.parent(form)?;
        if self.is_among(parent, &[Kind::Seq, Kind::Local]) {
            after_part(self.parts(parent), form).first().copied()
        } else {
            None
        }
    }
}

/// The parts after one of them.
pub(crate) fn after_part(parts: &[usize], part: usize) -> &[usize] {
    let mut rest = parts;
    for _ in parts {
        match rest {
            [first, after @ ..] if *first <= part => rest = after,
            _ => break,
        }
    }
    rest
}
