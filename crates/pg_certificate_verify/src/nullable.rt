//! Which nodes are nullable by the claims.
//!
//! A node's parts stand after it, and rules have claims, so one pass from the last node to the first is enough.

ghost use Rattle.std.specs.Prelude.{◌≡◌, ◌↔◌, true, length, IfOk, IsTrue};
ghost use Rattle.std.specs.List.{list_all, list_any};
ghost use Rattle.pg_graph.specs.Marks.{is_marked};
ghost use Rattle.pg_sets_nullable.specs.NodeMarks.{reads_nothing};
ghost use Rattle.pg_certificate_verify.specs.Claimed.{claimed_nullable};
ghost use Rattle.pg_certificate_verify.specs.Nullable.{nullable_by, AreNullableBy};

use crate::claims::claimed_nullable;
use pg_certificate::{Certificate, RuleClaim};
use pg_grammar_form::{Form, Leaf, Node, NodeId, RuleId, WordId};
use pg_grammar_value::{Grammar, Rule};
use pg_graph::is_marked;
use std::alloc::{AllocError, Global};

/// For each node whether it is nullable by the claims.
pub fn nullable_by_claims(
    alloc: Global,
    grammar: &Grammar,
    certificate: &Certificate,
) -> Result<Vec<bool>, AllocError>
    ensures { IfOk result (λ marks. AreNullableBy grammar.now certificate.now marks.items) }
{
    let mut marks = vec![in alloc; false; grammar.nodes().len()]?;
    fill_marks(grammar, certificate.claims(), &mut marks);
    Ok(marks)
}

/// Fills in the mark of each node.
fn fill_marks(grammar: &Grammar, claims: &[RuleClaim], marks: &mut [bool])
    requires { length marks.old ≡ length grammar.now.nodes }
    ensures { AreNullableBy grammar.now claims.now marks.new }
{
    let nodes = grammar.nodes();
    for p in (0..nodes.len()).rev() {
        let mark = is_nullable(claims, marks, &nodes[p]);
        marks[p] = mark;
    }
}

/// Whether a node is nullable by the claims, from the marks of its parts.
fn is_nullable(claims: &[RuleClaim], marks: &[bool], node: &Node) -> bool
    ensures { result ≡ nullable_by claims.now (is_marked marks.now) node.now }
{
    match node {
        Form::Leaf(leaf) => reads_nothing(leaf),
        Form::Seq(parts) => all_are_marked(marks, parts.as_slice()),
        Form::Choice(parts) => one_is_marked(marks, parts.as_slice()),
        Form::Many(_) => true,
        Form::Chain(_, _, part, _) | Form::Around(_, part) | Form::Expression(_, part) => is_marked(
            marks,
            part.index(),
        ),
        Form::Rule(rule) => claimed_nullable(claims, *rule),
    }
}

/// Whether a leaf reads no character.
fn reads_nothing(leaf: &Leaf<WordId>) -> bool
    ensures { result ≡ reads_nothing leaf.now }
{
    match leaf {
        Leaf::NotFollowedBy(_) | Leaf::EndOfText => true,
        Leaf::Satisfy(_) | Leaf::String(_) | Leaf::Word(_) | Leaf::Declare(_) => false,
    }
}

/// Whether each of these nodes is marked.
fn all_are_marked(marks: &[bool], parts: &[NodeId]) -> bool
    ensures { result ≡ list_all (is_marked marks.now) parts.now }
{
    parts.iter().all(|part| is_marked(marks, part.index()))
}

/// Whether one of these nodes is marked.
fn one_is_marked(marks: &[bool], parts: &[NodeId]) -> bool
    ensures { result ≡ list_any (is_marked marks.now) parts.now }
{
    parts.iter().any(|part| is_marked(marks, part.index()))
}

/// Whether the claim on the rule with this number holds: the rule is claimed nullable if its body is nullable by the claims.
pub fn holds_nullable(marks: &[bool], claims: &[RuleClaim], number: RuleId, rule: &Rule) -> bool
    ensures { IsTrue result ↔ (is_marked marks.now rule.now.body ≡ true → claimed_nullable claims.now number ≡ true) }
{
    !is_marked(marks, rule.body.index()) || claimed_nullable(claims, number)
}
