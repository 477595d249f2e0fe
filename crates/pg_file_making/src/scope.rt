//! Looking up the names in an item of a file.
//!
//! Each function returns the leftmost fault, if there is one. The name of a class is looked up among the classes above the item and the predicates, and the
//! name of a word or a rule in the whole file.

use crate::defined::Defined;
use crate::name_fault::{NameFault, NameFaultKind};
use pg_file_items::{ClassForm, PlacedClass, PlacedForm, WrittenForm, WrittenPart};
use pg_file_meaning::{is_builder_name, is_predicate_name};
use pg_pred::Registry;
use pg_text::Characters;
use std::alloc::{AllocError, Global};

/// The meanings that the names in an item may have: the registry's contents, and the file's definitions.
#[derive(Clone, Copy)]
pub struct Scope<'s, 'a> {
    pub registry: &'s Registry,
    pub defined: &'s Defined<'a>,
    /// The place of the item. It decides what is above the item, and a fault of the item's definition is reported there.
    pub place: usize,
}

impl<'s, 'a> Scope<'s, 'a> {
    /// The first fault of a class item.
    pub fn class_item_fault(
        &self,
        alloc: Global,
        name: &[char],
        class: &PlacedClass,
    ) -> Result<Option<NameFault>, AllocError> {
        if self.has_class(alloc, name)? {
            return Ok(self.twice());
        }
        self.class_fault(alloc, class)
    }

    /// The first fault of a word item.
    pub fn word_item_fault(
        &self,
        alloc: Global,
        name: &[char],
        head: &PlacedClass,
        rest: &PlacedClass,
    ) -> Result<Option<NameFault>, AllocError> {
        if self.defined.has_word_above(name, self.place) {
            return Ok(self.twice());
        }
        self.classes_fault(alloc, head, rest)
    }

    /// The first fault of an operators item. There may be only one such item.
    pub fn operators_fault(
        &self,
        alloc: Global,
        class: &PlacedClass,
        gap: &PlacedClass,
    ) -> Result<Option<NameFault>, AllocError> {
        if self.defined.has_operators_above(self.place) {
            return Ok(self.twice());
        }
        self.classes_fault(alloc, class, gap)
    }

    /// The fault of a start item. There may be only one such item, and it has to name a rule.
    pub fn start_fault(&self, name: &[char], name_place: usize) -> Option<NameFault> {
        if self.defined.has_start_above(self.place) {
            return self.twice();
        }
        if self.defined.has_rule(name) {
            return None;
        }
        fault(NameFaultKind::NoStart, name_place)
    }

    /// The first fault of a rule.
    pub fn rule_fault(
        &self,
        alloc: Global,
        name: &[char],
        body: &[PlacedForm],
    ) -> Result<Option<NameFault>, AllocError> {
        if self.defined.has_rule_above(name, self.place) {
            return Ok(self.twice());
        }
        self.body_fault(alloc, body)
    }

    /// The fault of an item that defines a name defined above.
    fn twice(&self) -> Option<NameFault> {
        fault(NameFaultKind::Twice, self.place)
    }

    /// Whether a class item above or a predicate has this name.
    fn has_class(&self, alloc: Global, name: &[char]) -> Result<bool, AllocError> {
        Ok(
            self.defined.has_class_above(name, self.place)
                || is_predicate_name(alloc, self.registry, name)?,
        )
    }

    /// The first fault of two class expressions.
    fn classes_fault(
        &self,
        alloc: Global,
        one: &PlacedClass,
        other: &PlacedClass,
    ) -> Result<Option<NameFault>, AllocError> {
        match self.class_fault(alloc, one)? {
            Some(found) => Ok(Some(found)),
            None => self.class_fault(alloc, other),
        }
    }

    /// The first fault of a class expression.
    fn class_fault(
        &self,
        alloc: Global,
        class: &PlacedClass,
    ) -> Result<Option<NameFault>, AllocError> {
        self.parts_fault(alloc, class.class.parts(), class.names.as_slice())
    }

    /// The first unknown name in a class expression, given the places of its names.
    fn parts_fault(
        &self,
        alloc: Global,
        parts: &[WrittenPart],
        places: &[usize],
    ) -> Result<Option<NameFault>, AllocError> {
        let mut places = places.iter();
        for part in parts {
            if let WrittenPart::Named(name) = part {
                let place = places.next().copied().unwrap_or(self.place);
                if !self.has_class(alloc, name.as_slice())? {
                    return Ok(fault(NameFaultKind::Unknown, place));
                }
            }
        }
        Ok(None)
    }

    /// The first fault of a body.
    fn body_fault(
        &self,
        alloc: Global,
        body: &[PlacedForm],
    ) -> Result<Option<NameFault>, AllocError> {
        for form in body {
            let found = self.form_fault(alloc, form)?;
            if found.is_some() {
                return Ok(found);
            }
        }
        Ok(None)
    }

    /// The first fault of a form, without its parts.
    fn form_fault(
        &self,
        alloc: Global,
        placed: &PlacedForm,
    ) -> Result<Option<NameFault>, AllocError> {
        let places = placed.names.as_slice();
        let first = placed.span.first;
        match &placed.form {
            WrittenForm::OfClass(ClassForm::Declare, _) | WrittenForm::Expression { .. }
                if !self.defined.has_operators() => { Ok(fault(NameFaultKind::Unknown, first)) }
            WrittenForm::OfClass(_, class) => self.parts_fault(alloc, class.parts(), places),
            WrittenForm::Chain { builder, .. } | WrittenForm::Build { builder, .. } => {
                self.builders_fault(alloc, &[builder], places)
            }
            WrittenForm::Expression {
                infix,
                prefix,
                postfix,
            } => self.builders_fault(alloc, &[infix, prefix, postfix], places),
            WrittenForm::Word(name) => Ok(self.word_fault(name.as_slice(), places)),
            WrittenForm::Rule(name) => Ok(self.rule_name_fault(name.as_slice(), first)),
            WrittenForm::String(_)
            | WrittenForm::Seq(_)
            | WrittenForm::OfSome(_, _)
            | WrittenForm::OfOne(_)
            | WrittenForm::OfTwo(_)
            | WrittenForm::Between
            | WrittenForm::Label(_)
            | WrittenForm::EndOfText => Ok(None),
        }
    }

    /// The first of these names that no builder has, given their places.
    fn builders_fault(
        &self,
        alloc: Global,
        names: &[&Characters],
        places: &[usize],
    ) -> Result<Option<NameFault>, AllocError> {
        let mut places = places.iter();
        for name in names {
            let place = places.next().copied().unwrap_or(self.place);
            if !is_builder_name(alloc, self.registry, name.as_slice())? {
                return Ok(fault(NameFaultKind::Unknown, place));
            }
        }
        Ok(None)
    }

    /// The fault of the name of a word, given its place.
    fn word_fault(&self, name: &[char], places: &[usize]) -> Option<NameFault> {
        if self.defined.has_word(name) {
            return None;
        }
        fault(
            NameFaultKind::Unknown,
            places.first().copied().unwrap_or(self.place),
        )
    }

    /// The fault of the name of a rule at this place.
    fn rule_name_fault(&self, name: &[char], place: usize) -> Option<NameFault> {
        if self.defined.has_rule(name) {
            return None;
        }
        fault(NameFaultKind::Unknown, place)
    }
}

/// A fault at this place.
pub fn fault(kind: NameFaultKind, place: usize) -> Option<NameFault> {
    Some(NameFault {
        kind,
        place: Some(place),
    })
}
