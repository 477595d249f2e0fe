//! The rules of a file: their names, their bodies and the forms in these.

use crate::forms::Forms;
use crate::kinds::Kind;
use pg_file_items::Item;

/// A rule, as it is written.
#[derive(Clone, Copy)]
pub struct WrittenRule<'s> {
    pub name: &'s [char],
    /// The place of its name.
    pub place: usize,
    /// The form that is its body.
    pub body: usize,
}

impl<'s> Forms<'s> {
    /// The rule with this name.
    fn rule_named(&self, name: &[char]) -> Option<WrittenRule<'s>> {
        for rule in &self.rules {
            if rule.name == name {
                return Some(*rule);
            }
        }
        None
    }

    /// The rule that a form names.
    pub fn rule_of(&self, form: usize) -> Option<WrittenRule<'s>> {
        self.rule_named(self.characters(form, Kind::Rule)?)
    }

    /// The body of the rule that a form names.
    pub fn body(&self, form: usize) -> Option<usize> {
        match self.rule_of(form) {
            Some(rule) => Some(rule.body),
            None => None,
        }
    }

    /// The rule with this body.
    pub fn rule_with(&self, body: usize) -> Option<WrittenRule<'s>> {
        for rule in &self.rules {
            if rule.body == body {
                return Some(*rule);
            }
        }
        None
    }

    /// The rule whose body a form stands in.
    pub fn rule_around(&self, form: usize) -> Option<WrittenRule<'s>> {
        let mut around = None;
        for rule in &self.rules {
            if rule.body <= form {
                around = Some(*rule);
            }
        }
        around
    }

    /// The start rule.
    pub fn start(&self) -> Option<WrittenRule<'s>> {
        for item in self.items {
            match item {
                Item::Start { name, .. } => return self.rule_named(name.as_slice()),
                Item::Class { .. }
                | Item::Word { .. }
                | Item::Rule { .. }
                | Item::Operators { .. }
                | Item::Table { .. } => {}
            }
        }
        None
    }

    /// Whether a form is this name of a rule. No other form is spelled like it.
    pub(crate) fn is_use(&self, form: usize, name: &[char]) -> bool {
        self.spelling(form) == name
    }

    /// How many forms are this name of a rule.
    pub(crate) fn use_count(&self, name: &[char]) -> usize {
        let mut count: usize = 0;
        for form in 0..self.count() {
            if self.is_use(form, name) {
                count = count.saturating_add(1);
            }
        }
        count
    }
}
