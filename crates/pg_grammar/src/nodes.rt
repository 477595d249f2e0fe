//! From base forms to nodes: each form gets the numbers of its parts and of what it names.
//!
//! The forms and the rules' names are moved into lists with room for all of them, so this takes no memory and can't be
//! refused.

ghost use Rattle.std.specs.Prelude.{◌≡◌, ◌≤◌, [], map, length, vec_capacity};
ghost use Rattle.pg_grammar_form.specs.Forms.{leaf_with};
ghost use Rattle.pg_grammar.specs.Numbering.{first_part, second_part, node_of, nodes_with};
ghost use Rattle.pg_grammar_form.specs.Names.{number_of};
ghost use Rattle.pg_grammar_value.specs.Grammar.{rule_name, rule_body};
ghost use Rattle.pg_grammar_form.specs.WordItems.{word_name};

use crate::names::{place_of_name, place_of_word};
use pg_grammar_form::{BaseForm, Form, Leaf, Node, NodeId, Parts, RuleId, WordId, WordItem};
use pg_grammar_value::Rule;
use pg_text::Characters;
use std::collections::VecDeque;

/// The nodes of these forms with their parts, a list of parts for each form. `room` is an empty list with room for them.
pub(crate) fn nodes_of(
    room: Vec<Node>,
    names: &[Characters],
    words: &[WordItem],
    forms: Vec<BaseForm>,
    parts: VecDeque<Parts>,
) -> Vec<Node>
    requires empty { room.items ≡ [] }
    requires room { length forms.items ≤ vec_capacity room }
    requires parts { length parts.items ≡ length forms.items }
    ensures { result.items ≡ nodes_with names.now (map word_name words.now) forms.items parts.items }
{
    let mut nodes = room;
    let mut forms = VecDeque::from(forms);
    let mut parts = parts;
    while let Some(form) = forms.pop_front() {
        let Some(own) = parts.pop_front() else {
            unreachable!()
        };
        nodes.push_reserved(node_of(names, words, form, own));
    }
    nodes
}

/// The node of a form with these parts.
fn node_of(names: &[Characters], words: &[WordItem], form: BaseForm, parts: Parts) -> Node
    ensures { result ≡ node_of names.now (map word_name words.now) form parts }
{
    match form {
        Form::Leaf(leaf) => Form::Leaf(leaf_of(words, leaf)),
        Form::Seq(_) => Form::Seq(parts),
        Form::Choice(_) => Form::Choice(parts),
        Form::Many(_) => Form::Many(first(&parts)),
        Form::Chain(side, used, _, _) => Form::Chain(side, used, first(&parts), second(&parts)),
        Form::Rule(name) => Form::Rule(number_of_rule(names, &name)),
        Form::Expression(builders, _) => Form::Expression(builders, first(&parts)),
        Form::Around(around, _) => Form::Around(around, first(&parts)),
    }
}

/// The leaf with the number of the word item that it names.
fn leaf_of(words: &[WordItem], leaf: Leaf<Characters>) -> Leaf<WordId>
    ensures { result ≡ leaf_with (number_of (map word_name words.now)) leaf }
{
    match leaf {
        Leaf::Satisfy(class) => Leaf::Satisfy(class),
        Leaf::String(text) => Leaf::String(text),
        Leaf::Word(name) => Leaf::Word(number_of_word(words, &name)),
        Leaf::NotFollowedBy(class) => Leaf::NotFollowedBy(class),
        Leaf::EndOfText => Leaf::EndOfText,
        Leaf::Declare(class) => Leaf::Declare(class),
    }
}

/// The first of some parts.
fn first(parts: &Parts) -> NodeId
    ensures { result ≡ first_part parts.now }
{
    match parts.as_slice() {
        [first, ..] => *first,
        [] => NodeId::new(0),
    }
}

/// The second of some parts.
fn second(parts: &Parts) -> NodeId
    ensures { result ≡ second_part parts.now }
{
    match parts.as_slice() {
        [_, second, ..] => *second,
        [] | [_] => NodeId::new(0),
    }
}

/// The number of the word item with this name, which exists.
fn number_of_word(words: &[WordItem], name: &Characters) -> WordId
    ensures { result ≡ number_of (map word_name words.now) name.now }
{
    WordId::new(place_of_word(words, name.as_slice()).unwrap_or(0))
}

/// The number of the rule with this name, which exists.
fn number_of_rule(names: &[Characters], name: &Characters) -> RuleId
    ensures { result ≡ number_of names.now name.now }
{
    RuleId::new(place_of_name(names, name.as_slice()).unwrap_or(0))
}

/// The rules with these names and bodies, a body for each name. `room` is an empty list with room for them.
pub(crate) fn rules_of(
    room: Vec<Rule>,
    names: Vec<Characters>,
    bodies: VecDeque<NodeId>,
) -> Vec<Rule>
    requires empty { room.items ≡ [] }
    requires room { length names.items ≤ vec_capacity room }
    requires bodies { length bodies.items ≡ length names.items }
    ensures names { map rule_name result.items ≡ names.items }
    ensures bodies { map rule_body result.items ≡ bodies.items }
{
    let mut rules = room;
    let mut names = VecDeque::from(names);
    let mut bodies = bodies;
    while let Some(name) = names.pop_front() {
        let Some(body) = bodies.pop_front() else {
            unreachable!()
        };
        rules.push_reserved(Rule { name, body });
    }
    rules
}
