//! Marks on the nodes of a grammar, and on the bodies of its rules.
ghost use Rattle.std.specs.Prelude.{◌≡◌};
ghost use Rattle.std.specs.List.{list_all, list_any};
ghost use Rattle.pg_graph.specs.Marks.{is_marked};
ghost use Rattle.pg_sets_nullable.specs.NodeMarks.{body_is_marked};

use pg_grammar_form::{NodeId, RuleId};
use pg_grammar_value::Rule;
use pg_graph::is_marked;

/// Whether each of these nodes is marked.
pub(crate) fn all_are_marked(marks: &[bool], nodes: &[NodeId]) -> bool
    ensures { result ≡ list_all (is_marked marks.now) nodes.now }
{
    nodes.iter().all(|node| is_marked(marks, node.index()))
}

/// Whether one of these nodes is marked.
pub(crate) fn one_is_marked(marks: &[bool], nodes: &[NodeId]) -> bool
    ensures { result ≡ list_any (is_marked marks.now) nodes.now }
{
    nodes.iter().any(|node| is_marked(marks, node.index()))
}

/// Whether the body of a rule is marked.
pub(crate) fn body_is_marked(rules: &[Rule], marks: &[bool], rule: RuleId) -> bool
    ensures { result ≡ body_is_marked rules.now marks.now rule }
{
    match rules.get(rule.index()) {
        Some(rule) => is_marked(marks, rule.body.index()),
        None => false,
    }
}
