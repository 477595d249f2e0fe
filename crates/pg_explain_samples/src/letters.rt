//! The characters that a leaf of a draft gets.

use crate::characters::character_of;
use crate::drafting::Draft;
use crate::leaves::start_at;
use crate::target::Want;
use pg_class::Class;
use pg_grammar_form::{Leaf, NodeId, WordId};
use pg_start::StartKind;
use pg_text::Texts;

/// The most characters that are added to a reserved word.
const LONGER: usize = 3;

impl<'g> Draft<'g> {
    /// Gives a leaf its characters.
    pub(crate) fn leaf(&mut self, node: NodeId, leaf: &Leaf<WordId>, want: Want) {
        match leaf {
            Leaf::Satisfy(_) | Leaf::Word(_) => match start_at(self.field.basis.sets, node) {
                Some(StartKind::Class(class)) => self.one_of(class, want),
                Some(StartKind::Word(heads, rest, reserved)) => {
                    self.word(heads, rest, reserved, want)
                }
                Some(StartKind::Key(_, _) | StartKind::End) | None => self.give_up(),
            },
            Leaf::String(text) => self.put_all(text.as_slice()),
            Leaf::NotFollowedBy(_) | Leaf::EndOfText => {}
            Leaf::Declare(_) => self.declaration(),
        }
    }

    /// Adds a character of the class.
    fn one_of(&mut self, class: &Class, want: Want) {
        match self.chosen(class, want) {
            Some(c) => self.put(c),
            None => self.give_up(),
        }
    }

    /// The guide's next character if the class has it, or a space if one is wanted; else the least character that may come next, or another one where the
    /// draft is varied.
    fn chosen(&mut self, class: &Class, want: Want) -> Option<char> {
        if let Some(c) = self.next_wish() {
            if class.has(c) {
                return Some(c);
            }
        }
        if matches!(want, Want::Space) && class.has(' ') {
            return Some(' ');
        }
        let passed = if self.varies() {
            self.random.below(94)
        } else {
            0
        };
        match character_of(class, self.excluded, passed) {
            Some(c) => Some(c),
            None => character_of(class, None, passed),
        }
    }

    /// Adds a word that follows the guide as far as it can and isn't reserved.
    fn word(&mut self, heads: &Class, rest: &'g Class, reserved: &Texts, want: Want) {
        let from = self.text.len();
        self.one_of(heads, want);
        for _ in 0..self.plan.guide.len() {
            self.follow(rest);
        }
        for _ in 0..LONGER {
            let (_, word) = self.text.split_at(from.min(self.text.len()));
            if reserved.contains(word) {
                self.one_of(rest, Want::Any);
            }
        }
        self.excluded = Some(rest);
    }

    /// Adds the guide's next character, if the class has it.
    fn follow(&mut self, class: &Class) {
        if let Some(c) = self.next_wish() {
            if class.has(c) {
                self.put(c);
            }
        }
    }
}
