//! Which nodes can succeed without a character.
//!
//! Nodes are marked in rounds, until a round marks none. A node's parts stand after it, so a round goes from the last node
//! to the first, and only uses that lead back to an earlier body need more rounds.
ghost use Rattle.std.specs.Prelude.{◌≡◌, ◌<◌, ◌↔◌, ℕ, true, not, length, count_by, slice_get, Some, IfOk};
ghost use Rattle.std.specs.Bool.{OnTrue, OnFalse};
ghost use Rattle.pg_grammar_form.specs.Forms.{Node};
ghost use Rattle.pg_graph.specs.Marks.{is_marked};
ghost use Rattle.pg_sets_nullable.specs.NodeMarks.{reads_nothing, looks_nullable};
ghost use Rattle.pg_sets_nullable.specs.Nullable.{Nullable};

use crate::marks::{all_are_marked, body_is_marked, one_is_marked};
use pg_grammar_form::{Form, Leaf, Node, WordId};
use pg_grammar_value::{Grammar, Rule};
use pg_graph::is_marked;
use std::alloc::{AllocError, Global};

/// For each node whether it is nullable.
pub fn nullable_nodes(alloc: Global, grammar: &Grammar) -> Result<Vec<bool>, AllocError>
    ensures { IfOk result (λ marks. (p : ℕ) → (is_marked marks.items p ≡ true) ↔ Nullable grammar.now p) }
{
    let mut marks = vec![in alloc; false; grammar.nodes().len()]?;
    while mark_round(grammar, &mut marks) {}
    Ok(marks)
}

/// Marks each node that the marks show to be nullable, and says whether it marked any.
fn mark_round(grammar: &Grammar, marks: &mut [bool]) -> bool
    requires length { length marks.old ≡ length grammar.now.nodes }
    requires nullable { (p : ℕ) → is_marked marks.old p ≡ true → Nullable grammar.now p }
    ensures nullable { (p : ℕ) → is_marked marks.new p ≡ true → Nullable grammar.now p }
    ensures fewer { OnTrue result (count_by not marks.new < count_by not marks.old) }
    ensures closed { OnFalse result ((p : ℕ) (node : Node) → slice_get grammar.now.nodes p ≡ Some node →
        looks_nullable grammar.now.rules marks.new node ≡ true → is_marked marks.new p ≡ true) }
{
    let nodes = grammar.nodes();
    let rules = grammar.rules();
    let mut grew = false;
    for p in (0..nodes.len()).rev() {
        if !marks[p] && looks_nullable(rules, marks, &nodes[p]) {
            marks[p] = true;
            grew = true;
        }
    }
    grew
}

/// Whether a node is nullable if the marked nodes are.
fn looks_nullable(rules: &[Rule], marks: &[bool], node: &Node) -> bool
    ensures { result ≡ looks_nullable rules.now marks.now node.now }
{
    match node {
        Form::Leaf(leaf) => reads_nothing(leaf),
        Form::Seq(parts) => all_are_marked(marks, parts.as_slice()),
        Form::Choice(parts) => one_is_marked(marks, parts.as_slice()),
        Form::Many(_) => true,
        Form::Chain(_, _, part, _) | Form::Around(_, part) | Form::Expression(_, part) => is_marked(
            marks,
            part.index(),
        ),
        Form::Rule(rule) => body_is_marked(rules, marks, *rule),
    }
}

/// Whether a leaf reads no character.
fn reads_nothing(leaf: &Leaf<WordId>) -> bool
    ensures { result ≡ reads_nothing leaf.now }
{
    match leaf {
        Leaf::NotFollowedBy(_) | Leaf::EndOfText => true,
        Leaf::Satisfy(_) | Leaf::String(_) | Leaf::Word(_) | Leaf::Declare(_) => false,
    }
}
