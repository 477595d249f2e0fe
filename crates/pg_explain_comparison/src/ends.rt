//! Where derivations of a grammar's nodes can end in a short text.
//!
//! For each node and each place where it may begin, the places where it can end are kept as bits. They are the least solution of the equations of the forms,
//! found by going through all nodes until nothing changes, place by place from the last. What `try`, tables and declarations refuse is left out of account,
//! and a rule may reenter itself. So a text with no end here has no derivation.

use crate::leaves::{bit, has, is_among, leaf_ends};
use pg_grammar_classes::ClassSite;
use pg_grammar_form::{Form, Leaf, Node, NodeId};
use pg_grammar_value::Grammar;
use std::alloc::{AllocError, Global};

/// The most characters of a text that is searched.
const LONGEST: usize = 24;
/// The most nodes of a grammar that is searched.
const NODES: usize = 1_000;
/// How often the search goes through all nodes for one place.
const PASSES: usize = 64;

/// Whether a grammar derives a text, as far as the search shows it.
#[derive(Clone, Copy, PartialEq, Eq)]
pub enum Derived {
    /// It does.
    Yes,
    /// It doesn't.
    No,
    /// It isn't known.
    Unknown,
}

/// A grammar and a text, and where nodes can end in it.
#[derive(Drop)]
pub(crate) struct Ends<'g> {
    grammar: &'g Grammar,
    text: Vec<char>,
    /// For each node and each place where it may begin, the places where it can end, one bit each.
    ends: Vec<u32>,
}

/// Whether the grammar derives the text (ours). The answer is unknown for texts of over 24 characters, for grammars of over 1,000 nodes, where 64 passes a
/// place aren't enough, and where it would depend on a table or a declaration. Fails where memory runs out.
pub fn derivable(alloc: Global, grammar: &Grammar, text: &[char]) -> Result<Derived, AllocError> {
    if text.len() > LONGEST || grammar.nodes().len() > NODES {
        return Ok(Derived::Unknown);
    }
    let mut search = Ends::of(alloc, grammar, Vec::from_slice(alloc, text)?)?;
    Ok(search.answer())
}

/// Whether a grammar has expressions or declarations. For those the search may find ends that no derivation has.
pub(crate) fn has_operators(grammar: &Grammar) -> bool {
    for form in grammar.nodes() {
        match form {
            Form::Leaf(Leaf::Declare(_)) | Form::Expression(_, _) => return true,
            Form::Leaf(
                Leaf::Satisfy(_)
                | Leaf::String(_)
                | Leaf::Word(_)
                | Leaf::NotFollowedBy(_)
                | Leaf::EndOfText,
            )
            | Form::Seq(_)
            | Form::Choice(_)
            | Form::Many(_)
            | Form::Chain(_, _, _, _)
            | Form::Rule(_)
            | Form::Around(_, _) => {}
        }
    }
    false
}

impl<'g> Ends<'g> {
    /// The grammar and the text, with no ends found yet.
    pub(crate) fn of(
        alloc: Global,
        grammar: &'g Grammar,
        text: Vec<char>,
    ) -> Result<Ends<'g>, AllocError> {
        let places = text.len().saturating_add(1);
        let count = grammar.nodes().len().saturating_mul(places);
        Ok(Ends {
            grammar,
            text,
            ends: vec![in alloc; 0; count]?,
        })
    }

    /// Whether the text from a place on is derived. Sets the character at that place first, if one is given. The ends further on must have been found. The
    /// answer is `None` if 64 passes aren't enough.
    pub(crate) fn rest_with(&mut self, place: usize, letter: Option<char>) -> Option<bool> {
        if let Some(letter) = letter
            && place < self.text.len()
        {
            self.text[place] = letter;
        }
        self.forget(place);
        if !self.is_place_done(place) {
            return None;
        }
        Some(self.has_end_from(place))
    }

    /// Forgets the ends of all nodes that begin at a place.
    fn forget(&mut self, place: usize) {
        for node in 0..self.grammar.nodes().len() {
            let number = self.number(NodeId::new(node), place);
            if number < self.ends.len() {
                self.ends[number] = 0;
            }
        }
    }

    /// The text from a place on.
    pub(crate) fn rest(&self, place: usize) -> &[char] {
        match self.text.get(place..) {
            Some(rest) => rest,
            None => &[],
        }
    }

    /// Finds all ends, and answers whether the text is derived.
    fn answer(&mut self) -> Derived {
        if !self.is_done() {
            return Derived::Unknown;
        }
        match (self.has_end_from(0), has_operators(self.grammar)) {
            (false, _) => Derived::No,
            (true, false) => Derived::Yes,
            (true, true) => Derived::Unknown,
        }
    }

    /// Finds all ends, from the last place to the first. Answers whether that succeeded.
    fn is_done(&mut self) -> bool {
        for place in (0..=self.text.len()).rev() {
            if !self.is_place_done(place) {
                return false;
            }
        }
        true
    }

    /// Goes through all nodes at a place until nothing changes. Answers whether that succeeded.
    fn is_place_done(&mut self, place: usize) -> bool {
        for _ in 0..PASSES {
            if !self.pass(place) {
                return true;
            }
        }
        false
    }

    /// Looks for new ends of all nodes at a place, the last node first. Answers whether one was found.
    fn pass(&mut self, place: usize) -> bool {
        let grammar = self.grammar;
        let mut has_changed = false;
        for (number, form) in grammar.nodes().iter().enumerate().rev() {
            let node = NodeId::new(number);
            let found = self.ends_of(node, form, place);
            if self.add(node, place, found) {
                has_changed = true;
            }
        }
        has_changed
    }

    /// The index of the ends of a node that begins at a place.
    fn number(&self, node: NodeId, place: usize) -> usize {
        let width = self.text.len().saturating_add(1);
        node.index().saturating_mul(width).saturating_add(place)
    }

    /// Adds ends of a node. Answers whether one is new.
    fn add(&mut self, node: NodeId, place: usize, found: u32) -> bool {
        let number = self.number(node, place);
        if number >= self.ends.len() {
            return false;
        }
        let before = self.ends[number];
        self.ends[number] = before | found;
        before | found != before
    }

    /// The ends found so far of a node that begins at a place.
    fn at(&self, node: NodeId, place: usize) -> u32 {
        match self.ends.get(self.number(node, place)) {
            Some(ends) => *ends,
            None => 0,
        }
    }

    /// The ends of a form, from those of its parts.
    fn ends_of(&self, node: NodeId, form: &Node, place: usize) -> u32 {
        match form {
            Form::Leaf(leaf) => leaf_ends(self.grammar, &self.text, node, leaf, place),
            Form::Seq(parts) => self.sequence(bit(place), parts.as_slice()),
            Form::Choice(parts) => self.either(parts.as_slice(), place),
            Form::Many(part) => self.rounds(bit(place), &[*part]),
            Form::Chain(_, _, operand, separator) => {
                self.rounds(self.at(*operand, place), &[*separator, *operand])
            }
            Form::Rule(rule) => match self.grammar.rules().get(rule.index()) {
                Some(rule) => self.at(rule.body, place),
                None => 0,
            },
            Form::Expression(_, term) => self.expression(*term, place),
            Form::Around(_, part) => self.at(*part, place),
        }
    }

    /// The ends of a choice of these parts.
    fn either(&self, parts: &[NodeId], place: usize) -> u32 {
        let mut found = 0;
        for part in parts {
            found |= self.at(*part, place);
        }
        found
    }

    /// The ends of these parts one after another, beginning at any of the places.
    fn sequence(&self, places: u32, parts: &[NodeId]) -> u32 {
        let mut found = places;
        for part in parts {
            found = self.behind(found, *part);
        }
        found
    }

    /// The ends of a part that begins at any of the places.
    fn behind(&self, places: u32, part: NodeId) -> u32 {
        let mut found = 0;
        for place in 0..=self.text.len() {
            if is_among(places, place) {
                found |= self.at(part, place);
            }
        }
        found
    }

    /// These places, and the ends of any number of rounds from them.
    fn rounds(&self, places: u32, parts: &[NodeId]) -> u32 {
        let mut found = places;
        for place in 0..=self.text.len() {
            if is_among(found, place) {
                found |= self.sequence(bit(place), parts);
            }
        }
        found
    }

    /// The ends of terms in any number, with characters of operators and gaps anywhere between them.
    fn expression(&self, term: NodeId, place: usize) -> u32 {
        let mut found = bit(place);
        for from in 0..=self.text.len() {
            if is_among(found, from) {
                found |= self.at(term, from);
                if self.is_of_operators(from) {
                    found |= bit(from.saturating_add(1));
                }
            }
        }
        found
    }

    /// Whether a character of an operator or of the gap stands at a place.
    fn is_of_operators(&self, place: usize) -> bool {
        has(self.grammar, &self.text, ClassSite::Operators, place)
            || has(self.grammar, &self.text, ClassSite::Gap, place)
    }

    /// Whether the start rule, begun at this place, can end where the text does.
    fn has_end_from(&self, place: usize) -> bool {
        match self.grammar.rules().get(self.grammar.start_rule().index()) {
            Some(rule) => is_among(self.at(rule.body, place), self.text.len()),
            None => false,
        }
    }
}
