//! Which sets are contained in which by the claims, as the edges of a graph.
//!
//! First and follow sets of nodes have the same numbers as in `pg_sets`, and nodes give the same edges, except that a use of a
//! rule gives none to the rule's body. The claims about the rule stand between them, so no edge leads back, and each set is
//! handed on once. Three sets of each rule come after those of nodes: its claimed first set, its claimed follow set, and what
//! stands behind its uses.

ghost use Rattle.std.specs.Prelude.{◌≡◌, ◌<◌, ◌≤◌, IfOk, OnOk};
ghost use Rattle.pg_sets.specs.Flows.{with_flows};
ghost use Rattle.pg_grammar_value.specs.Grammar.{IsGrammar};
ghost use Rattle.pg_certificate_verify.specs.Edges.{rule_set, use_flows, claim_flows, claim_graph};

use pg_grammar_form::{Form, Node, RuleId};
use pg_grammar_value::Grammar;
use pg_graph::{Numbers, empty_lists, join};
use pg_sets::{Marks, follow_of, join_node};
use std::alloc::{AllocError, Global};

/// The claimed first set of a rule, among its sets.
pub(crate) const FIRST: usize = 0;
/// The claimed follow set of a rule.
pub(crate) const FOLLOW: usize = 1;
/// What stands behind its uses.
pub(crate) const BEHIND: usize = 2;

/// The number of a set of a rule, in a grammar with this many nodes and rules.
pub(crate) fn rule_set(count: usize, rules: usize, kind: usize, rule: usize) -> usize
    requires count { count ≤ 8192 }
    requires rules { rules ≤ 512 }
    requires kind { kind < 3 }
    ensures { result ≡ rule_set count rules kind rule }
{
    if rule < rules {
        count + count + 1 + kind * rules + rule
    } else {
        count + count
    }
}

/// For each set the sets that contain it by the claims, from the marks of the nullable nodes and of the tries that give keys.
pub(crate) fn claim_graph(
    alloc: Global,
    grammar: &Grammar,
    nullable: &[bool],
    keys: &[bool],
) -> Result<Vec<Numbers>, AllocError>
    ensures graph { IfOk result (λ graph. graph.items ≡ claim_graph grammar.now nullable.now keys.now) }
    ensures grammar { IsGrammar grammar.now }
{
    let nodes = grammar.nodes();
    let rules = grammar.rules();
    let count = nodes.len();
    let marks = Marks { nullable, keys };
    let mut graph = empty_lists(alloc, count + count + 1 + 3 * rules.len())?;
    for (number, node) in nodes.iter().enumerate() {
        join_claims(&mut graph, &marks, count, rules.len(), number, node)?;
    }
    for (place, rule) in rules.iter().enumerate() {
        let claimed = rule_set(count, rules.len(), FOLLOW, place);
        join(&mut graph, claimed, follow_of(count, rule.body.index()))?;
    }
    Ok(graph)
}

/// Adds the edges that the node with this number gives.
#[tactic(auto, using(crate::proofs::EdgeLists::both_joined))]
fn join_claims(
    graph: &mut [Numbers],
    marks: &Marks<'_>,
    count: usize,
    rules: usize,
    number: usize,
    node: &Node,
) -> Result<(), AllocError>
    requires count { count ≤ 8192 }
    requires rules { rules ≤ 512 }
    ensures { OnOk result (graph.new ≡ with_flows graph.old (claim_flows marks.now.nullable.now marks.now.keys.now count rules number node.now)) }
{
    join_node(graph, &[], marks, count, number, node)?;
    join_use(graph, count, rules, number, node)
}

/// Adds the edges of a use of a rule, if the node is one.
fn join_use(
    graph: &mut [Numbers],
    count: usize,
    rules: usize,
    number: usize,
    node: &Node,
) -> Result<(), AllocError>
    requires count { count ≤ 8192 }
    requires rules { rules ≤ 512 }
    ensures { OnOk result (graph.new ≡ with_flows graph.old (use_flows count rules number node.now)) }
{
    match node.named_rule() {
        Some(rule) => join_rule(graph, count, rules, number, *rule),
        None => Ok(()),
    }
}

/// Adds the edges of a use of this rule.
fn join_rule(
    graph: &mut [Numbers],
    count: usize,
    rules: usize,
    number: usize,
    rule: RuleId,
) -> Result<(), AllocError>
    requires count { count ≤ 8192 }
    requires rules { rules ≤ 512 }
    ensures { OnOk result (graph.new ≡ with_flows graph.old (use_flows count rules number (Form.Rule rule))) }
{
    let first = rule_set(count, rules, FIRST, rule.index());
    let behind = rule_set(count, rules, BEHIND, rule.index());
    join(graph, first, number)?;
    join(graph, follow_of(count, number), behind)
}
