//! The verdict on a node, from the next character and the verdicts on other nodes.

ghost use Rattle.std.specs.Prelude.{◌≡◌, true, slice_get, Some};
ghost use Rattle.pg_language.specs.Reactions.{counted_by};
ghost use Rattle.pg_machine_plan.specs.Columns.{verdict_at};
ghost use Rattle.pg_machine_plan.specs.Verdicts.{alternatives_verdict, form_verdict, node_verdict, parts_verdict, rule_verdict};

use crate::next::Next;
use crate::verdict::Verdict;
use crate::verdict_leaf::leaf_verdict;
use pg_grammar_form::{Around, Form, Node, NodeId, RuleId};
use pg_grammar_value::Grammar;

/// The verdict on a node.
pub(crate) fn node_verdict(grammar: &Grammar, column: &[Verdict], next: Next, id: NodeId) -> Verdict
    ensures { result ≡ node_verdict grammar.now (verdict_at column.now) next (slice_get grammar.now.nodes id) }
{
    match grammar.nodes().get(id.index()) {
        Some(node) => form_verdict(grammar, column, next, id, node).more(1),
        None => Verdict::Unknown,
    }
}

/// The verdict on the form of a node.
fn form_verdict(
    grammar: &Grammar,
    column: &[Verdict],
    next: Next,
    id: NodeId,
    node: &Node,
) -> Verdict
    requires { slice_get grammar.now.nodes id ≡ Some node.now }
    ensures { result ≡ form_verdict grammar.now (verdict_at column.now) next node.now }
{
    match node {
        Form::Leaf(leaf) => leaf_verdict(grammar, id, leaf, next),
        Form::Seq(parts) => parts_verdict(column, parts.as_slice()),
        Form::Choice(parts) => alternatives_verdict(column, parts.as_slice()),
        Form::Many(part) => on(column, *part).repeated(),
        Form::Chain(_, _, operand, separator) => on(column, *operand).chained(on(
            column, *separator,
        )),
        Form::Rule(rule) => rule_verdict(grammar, column, *rule),
        Form::Expression(_, _) => Verdict::Unknown,
        Form::Around(around, part) => on(column, *part).enclosed(counts(around)),
    }
}

/// The verdict on a node in a column. Of a node that isn't there nothing is told.
pub(crate) fn on(column: &[Verdict], node: NodeId) -> Verdict
    ensures { result ≡ verdict_at column.now node }
{
    match column.get(node.index()) {
        Some(verdict) => *verdict,
        None => Verdict::Unknown,
    }
}

/// That on parts, one after another.
fn parts_verdict(column: &[Verdict], parts: &[NodeId]) -> Verdict
    ensures { result ≡ parts_verdict (verdict_at column.now) parts.now }
{
    let mut verdict = Verdict::Empty(0);
    for index in (0..parts.len()).rev() {
        verdict = on(column, parts[index]).in_order(verdict);
    }
    verdict
}

/// That on alternatives, in their order.
fn alternatives_verdict(column: &[Verdict], parts: &[NodeId]) -> Verdict
    ensures { result ≡ alternatives_verdict (verdict_at column.now) parts.now }
{
    let mut verdict = Verdict::Fails(0);
    for index in (0..parts.len()).rev() {
        verdict = on(column, parts[index]).or_else(verdict);
    }
    verdict
}

/// That on the use of a rule.
fn rule_verdict(grammar: &Grammar, column: &[Verdict], rule: RuleId) -> Verdict
    ensures { result ≡ rule_verdict (verdict_at column.now) (slice_get grammar.now.rules rule) }
{
    match grammar.rules().get(rule.index()) {
        Some(named) => on(column, named.body),
        None => Verdict::Unknown,
    }
}

/// Whether a form around a part counts as consumed what the part has.
pub(crate) fn counts(around: &Around) -> bool
    ensures { result ≡ counted_by around.now true }
{
    match around {
        Around::Try => false,
        Around::Text | Around::Skip | Around::Build(_, _) | Around::Label(_) | Around::Local =>
            true,
    }
}
