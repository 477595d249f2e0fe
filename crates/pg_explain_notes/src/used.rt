//! What a grammar uses.

use pg_grammar_form::{ClassExpression, ClassPart, Form, Node, OperatorsItem};
use pg_grammar_value::Grammar;
use pg_graph::is_marked;
use std::alloc::{AllocError, Global};

/// Marks for the rules that the start rule reaches, and for the classes and the word items that something uses.
#[derive(Drop)]
pub(crate) struct Used {
    pub(crate) rules: Vec<bool>,
    pub(crate) classes: Vec<bool>,
    pub(crate) words: Vec<bool>,
}

/// What a grammar uses.
pub(crate) fn used_by(alloc: Global, grammar: &Grammar) -> Result<Used, AllocError> {
    let rules = rules_come_to(alloc, grammar)?;
    let mut classes = vec![in alloc; false; grammar.class_items().len()]?;
    let mut words = vec![in alloc; false; grammar.word_items().len()]?;
    for node in grammar.nodes() {
        mark_leaf(node, &mut classes, &mut words);
    }
    for item in grammar.class_items() {
        mark_classes(&item.class, &mut classes);
    }
    for item in grammar.word_items() {
        mark_classes(&item.head, &mut classes);
        mark_classes(&item.rest, &mut classes);
    }
    if let Some(item) = grammar.operators_item() {
        mark_operators(item, &mut classes);
    }
    Ok(Used {
        rules,
        classes,
        words,
    })
}

/// For each rule, whether the start rule reaches it.
fn rules_come_to(alloc: Global, grammar: &Grammar) -> Result<Vec<bool>, AllocError> {
    let count = grammar.rules().len();
    let mut marks = vec![in alloc; false; count]?;
    let mut open = Vec::new(alloc);
    come_to(grammar.start_rule().index(), &mut marks, &mut open)?;
    for _ in 0..count {
        let Some(rule) = open.pop() else {
            break;
        };
        for node in body_from(grammar, rule)..body_from(grammar, rule.saturating_add(1)) {
            if let Some(Form::Rule(used)) = grammar.nodes().get(node) {
                come_to(used.index(), &mut marks, &mut open)?;
            }
        }
    }
    Ok(marks)
}

/// Marks a rule as reached, unless it was reached before.
fn come_to(rule: usize, marks: &mut [bool], open: &mut Vec<usize>) -> Result<(), AllocError> {
    if rule < marks.len() && !is_marked(marks, rule) {
        mark(marks, rule);
        open.push(rule)?;
    }
    Ok(())
}

/// The number of the first node of a rule; for one after the last rule, the number of nodes.
fn body_from(grammar: &Grammar, rule: usize) -> usize {
    match grammar.rules().get(rule) {
        Some(rule) => rule.body.index(),
        None => grammar.nodes().len(),
    }
}

/// Marks the classes and the word item of a leaf.
fn mark_leaf(node: &Node, classes: &mut [bool], words: &mut [bool]) {
    if let Some(class) = node.class() {
        mark_classes(class, classes);
    }
    if let Some(word) = node.named_word() {
        mark(words, word.index());
    }
}

/// Marks the classes of the operators and of gaps.
fn mark_operators(item: &OperatorsItem, classes: &mut [bool]) {
    mark_classes(&item.class, classes);
    mark_classes(&item.gap, classes);
}

/// Marks the classes that an expression names.
fn mark_classes(class: &ClassExpression, classes: &mut [bool]) {
    for part in class.parts() {
        match part {
            ClassPart::Class(number) => mark(classes, number.index()),
            ClassPart::Predicate(_)
            | ClassPart::Literal(_)
            | ClassPart::Range(_, _)
            | ClassPart::Union(_)
            | ClassPart::Complement => {}
        }
    }
}

fn mark(marks: &mut [bool], number: usize) {
    if number < marks.len() {
        marks[number] = true;
    }
}
