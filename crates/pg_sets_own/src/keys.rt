//! Tries that give keys: around a string, or around a string with a class that doesn't follow it.
//!
//! The first set of such a try is its key; the starts of its part don't count.
ghost use Rattle.std.specs.Prelude.{◌≡◌, ◌↔◌, ◌∷◌, [], true, ℕ, List, Some, slice_get, IfOk, MatchOption};
ghost use Rattle.pg_grammar_form.specs.declared.class.ClassPart.{ClassPart};
ghost use Rattle.pg_sets_own.specs.OwnStarts.{IsKeyTry, IsKeyed, MarksKeys};

use pg_grammar_form::{Around, ClassExpression, Form, Leaf, Node, NodeId, WordId};
use pg_grammar_value::Grammar;
use pg_text::Characters;
use std::alloc::{AllocError, Global};

/// For each node whether it is a try that gives a key.
pub fn key_tries(alloc: Global, grammar: &Grammar) -> Result<Vec<bool>, AllocError>
    ensures { IfOk result (λ marks. MarksKeys grammar.now marks.items) }
{
    let mut marks = Vec::new(alloc);
    for node in grammar.nodes() {
        marks.push(is_key_try(grammar, node))?;
    }
    Ok(marks)
}

/// Whether a try that gives a key stands at a node.
fn is_key_try(grammar: &Grammar, node: &Node) -> bool
    ensures { (result ≡ true) ↔ IsKeyTry grammar.now node.now }
{
    match node {
        Form::Around(around, part) => is_key_around(grammar, around, *part),
        Form::Leaf(_)
        | Form::Seq(_)
        | Form::Choice(_)
        | Form::Many(_)
        | Form::Chain(_, _, _, _)
        | Form::Rule(_)
        | Form::Expression(_, _) => false,
    }
}

/// Whether this is a try around a part with which it gives a key.
fn is_key_around(grammar: &Grammar, around: &Around, part: NodeId) -> bool
    ensures { (result ≡ true) ↔ IsKeyTry grammar.now (Form.Around around.now part) }
{
    match around {
        Around::Try => gives_key(grammar, part),
        Around::Text | Around::Skip | Around::Build(_, _) | Around::Label(_) | Around::Local =>
            false,
    }
}

/// Whether a try around this part gives a key.
fn gives_key(grammar: &Grammar, part: NodeId) -> bool
    ensures { (result ≡ true) ↔ IsKeyTry grammar.now (Form.Around Around.Try part) }
{
    match tried_string(grammar, part) {
        Some(_) => true,
        None => match tried_keyword(grammar, part) {
            Some(_) => true,
            None => false,
        },
    }
}

/// The string at a node, if one stands there.
pub(crate) fn tried_string(grammar: &Grammar, node: NodeId) -> Option<&Characters>
    ensures { MatchOption result ((text : List ℕ) → slice_get grammar.now.nodes node ≡ Some (Form.Leaf (Leaf.String text)) → ⊥)
        (λ text. slice_get grammar.now.nodes node ≡ Some (Form.Leaf (Leaf.String text.now))) }
{
    read_string(leaf_at(grammar, node)?)
}

/// The class at a node, if the node refuses a character of a class.
fn excluded_class(grammar: &Grammar, node: NodeId) -> Option<&ClassExpression>
    ensures { MatchOption result ((class : List ClassPart) → slice_get grammar.now.nodes node ≡ Some (Form.Leaf (Leaf.NotFollowedBy class)) → ⊥)
        (λ class. slice_get grammar.now.nodes node ≡ Some (Form.Leaf (Leaf.NotFollowedBy class.now))) }
{
    refused_class(leaf_at(grammar, node)?)
}

/// The leaf at a node, if one stands there.
fn leaf_at(grammar: &Grammar, node: NodeId) -> Option<&Leaf<WordId>>
    ensures { MatchOption result ((leaf : Leaf ℕ) → slice_get grammar.now.nodes node ≡ Some (Form.Leaf leaf) → ⊥)
        (λ leaf. slice_get grammar.now.nodes node ≡ Some (Form.Leaf leaf.now)) }
{
    match grammar.nodes().get(node.index()) {
        Some(Form::Leaf(leaf)) => Some(leaf),
        Some(
            Form::Seq(_)
            | Form::Choice(_)
            | Form::Many(_)
            | Form::Chain(_, _, _, _)
            | Form::Rule(_)
            | Form::Expression(_, _)
            | Form::Around(_, _),
        )
        | None => None,
    }
}

/// The parts at a node, if a sequence stands there.
fn sequence_parts(grammar: &Grammar, node: NodeId) -> Option<&[NodeId]>
    ensures { MatchOption result ((parts : List ℕ) → slice_get grammar.now.nodes node ≡ Some (Form.Seq parts) → ⊥)
        (λ parts. slice_get grammar.now.nodes node ≡ Some (Form.Seq parts.now)) }
{
    match grammar.nodes().get(node.index()) {
        Some(Form::Seq(parts)) => Some(parts.as_slice()),
        Some(
            Form::Leaf(_)
            | Form::Choice(_)
            | Form::Many(_)
            | Form::Chain(_, _, _, _)
            | Form::Rule(_)
            | Form::Expression(_, _)
            | Form::Around(_, _),
        )
        | None => None,
    }
}

/// The string that a leaf reads, if it reads one.
fn read_string(leaf: &Leaf<WordId>) -> Option<&Characters>
    ensures { MatchOption result ((text : List ℕ) → leaf.now ≡ Leaf.String text → ⊥) (λ text. leaf.now ≡ Leaf.String text.now) }
{
    match leaf {
        Leaf::String(text) => Some(text),
        Leaf::Satisfy(_)
        | Leaf::Word(_)
        | Leaf::NotFollowedBy(_)
        | Leaf::EndOfText
        | Leaf::Declare(_) => None,
    }
}

/// The class that a leaf refuses, if the leaf checks that no character of a class follows.
fn refused_class(leaf: &Leaf<WordId>) -> Option<&ClassExpression>
    ensures { MatchOption result ((class : List ClassPart) → leaf.now ≡ Leaf.NotFollowedBy class → ⊥) (λ class. leaf.now ≡ Leaf.NotFollowedBy class.now) }
{
    match leaf {
        Leaf::NotFollowedBy(class) => Some(class),
        Leaf::Satisfy(_) | Leaf::String(_) | Leaf::Word(_) | Leaf::EndOfText | Leaf::Declare(_) =>
            None,
    }
}

/// The string and the class that may not follow it, if the two stand at a node.
pub(crate) fn tried_keyword(
    grammar: &Grammar,
    node: NodeId,
) -> Option<(&Characters, &ClassExpression)>
    ensures { MatchOption result ((text : List ℕ) (excluded : List ClassPart) → IsKeyed grammar.now node text excluded → ⊥)
        (λ keyword. IsKeyed grammar.now node keyword.0.now keyword.1.now) }
{
    let parts = sequence_parts(grammar, node)?;
    if parts.len() != 2 {
        return None;
    }
    let text = tried_string(grammar, parts[0])?;
    let excluded = excluded_class(grammar, parts[1])?;
    Some((text, excluded))
}
