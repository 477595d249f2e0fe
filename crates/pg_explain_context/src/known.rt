//! What the lines on findings need to know of a grammar.

use crate::contained::contained_sets;
use crate::grammar_file::GrammarFile;
use pg_class::Class;
use pg_grammar_classes::classes_of_items;
use pg_grammar_form::{Form, Node, NodeId, RuleId};
use pg_grammar_value::{Grammar, Rule};
use pg_graph::Numbers;
use pg_predict::Refused;
use pg_sets::Sets;
use pg_sets_own::{ListedStart, OperatorStarts, operator_starts};
use pg_text::Pos;
use pg_text_excerpt::positions;
use std::alloc::{AllocError, Global};

/// A grammar, its file, and what is worked out from them once.
#[derive(Drop)]
pub struct Known<'g> {
    pub file: &'g GrammarFile<'g>,
    /// The line and the column of each place in the file, and of its end.
    pub positions: Vec<Pos>,
    pub grammar: &'g Grammar,
    pub sets: &'g Sets,
    /// The classes of the class items, in their order.
    pub classes: Vec<Class>,
    /// How operators and gaps begin, if the grammar has any.
    pub operators: Option<OperatorStarts>,
    /// For each first and each follow set, the sets that it contains.
    pub contained: Vec<Numbers>,
}

impl<'g> Known<'g> {
    /// Works out what is needed of a refused grammar. Fails where memory runs out.
    pub fn of(
        alloc: Global,
        refused: &'g Refused,
        file: &'g GrammarFile<'g>,
    ) -> Result<Known<'g>, AllocError> {
        let grammar = refused.grammar();
        let sets = refused.sets();
        // Values that are costly to drop come last, since a later step may run out of memory.
        let positions = positions(alloc, file.text)?;
        let contained = contained_sets(alloc, grammar, sets)?;
        let classes = classes_of_items(alloc, grammar.class_items())?;
        let operators = operator_starts(alloc, grammar)?;
        Ok(Known {
            file,
            positions,
            grammar,
            sets,
            classes,
            operators,
            contained,
        })
    }

    /// The number of nodes.
    pub fn count(&self) -> usize {
        self.grammar.nodes().len()
    }

    /// The form of a node, if there is such a node.
    pub fn form(&self, node: NodeId) -> Option<&Node> {
        self.grammar.nodes().get(node.index())
    }

    /// The alternatives of a choice; empty for any other form.
    pub fn alternatives(&self, node: NodeId) -> &[NodeId] {
        match self.form(node) {
            Some(form) => match form.alternatives() {
                Some(parts) => parts.as_slice(),
                None => &[],
            },
            None => &[],
        }
    }

    /// The rule that a node uses, if it uses one.
    pub fn rule_used(&self, node: NodeId) -> Option<RuleId> {
        self.form(node)?.named_rule().copied()
    }

    /// The term of a node, if it is an expression.
    pub fn term(&self, node: NodeId) -> Option<NodeId> {
        self.form(node)?.term().copied()
    }

    /// The rule with this number, if there is one.
    pub fn rule(&self, number: usize) -> Option<&Rule> {
        self.grammar.rules().get(number)
    }

    /// The start with this number: one of the sets' starts, or that of operators.
    pub fn start(&self, number: usize) -> Option<&ListedStart> {
        match self.sets.starts().get(number) {
            Some(listed) => Some(listed),
            None => self.operator(),
        }
    }

    /// The start of operators, if there are any.
    pub fn operator(&self) -> Option<&ListedStart> {
        match &self.operators {
            Some(both) => Some(&both.operator),
            None => None,
        }
    }

    /// The alternative with this number, counting from 1, or the node itself if it has no such alternative.
    pub fn alternative(&self, node: NodeId, number: usize) -> NodeId {
        match self.alternatives(node).get(number.saturating_sub(1)) {
            Some(part) => *part,
            None => node,
        }
    }

    /// The part of a repetition that begins a round with this start, or the term of an expression; else the node itself.
    pub fn round(&self, node: NodeId, start: usize) -> NodeId {
        match self.form(node) {
            Some(Form::Many(part) | Form::Expression(_, part)) => *part,
            Some(Form::Chain(_, _, operand, separator)) => {
                if self.sets.first(*separator).contains(start) {
                    *separator
                } else {
                    *operand
                }
            }
            Some(
                Form::Leaf(_) | Form::Seq(_) | Form::Choice(_) | Form::Rule(_) | Form::Around(_, _),
            )
            | None => node,
        }
    }

    /// Whether a node is an expression whose term begins with this start.
    pub fn begins_term(&self, node: NodeId, start: usize) -> bool {
        match self.term(node) {
            Some(term) => self.sets.first(term).contains(start),
            None => false,
        }
    }

    /// The part of a repetition, the separator of a chain or the term of an expression; else the node itself.
    pub fn emptied(&self, node: NodeId) -> NodeId {
        match self.form(node) {
            Some(Form::Many(part) | Form::Expression(_, part) | Form::Chain(_, _, _, part)) =>
                *part,
            Some(
                Form::Leaf(_) | Form::Seq(_) | Form::Choice(_) | Form::Rule(_) | Form::Around(_, _),
            )
            | None => node,
        }
    }
}
