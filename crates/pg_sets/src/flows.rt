//! Which first and follow sets are contained in which, as the edges of a graph.
//!
//! A first set has the number of its node; the numbers of follow sets come after those of all first sets. Each node gives the
//! edges to its own first set and to the follow sets of its parts. Whatever follows a part that can be empty passes through it.
ghost use Rattle.std.specs.Prelude.{◌≡◌, ◌≤◌, ◌+◌, [], ◌∷◌, ◌++◌, replicate, length, IfOk, OnOk};
ghost use Rattle.pg_grammar_value.specs.Grammar.{IsGrammar};
ghost use Rattle.pg_sets.specs.Flows.{follow_of, with_flows, flows_of_all, flows_of_some, flows_of_next, flows_after_parts, flows_of_alternatives, flows_of_chain, flows_of_only, flows_of_use, try_flows, around_flows, node_flows, all_flows};

use pg_grammar_form::{Around, Form, Leaf, Node, NodeId, RuleId};
use pg_grammar_value::{Grammar, Rule};
use pg_graph::{Numbers, empty_lists, is_marked, join};
use std::alloc::{AllocError, Global};

/// Marks on a grammar's nodes, which decide where starts are handed on (ours).
#[derive(Clone, Copy)]
pub struct Marks<'m> {
    /// The nullable nodes.
    pub nullable: &'m [bool],
    /// The tries that give a key.
    pub keys: &'m [bool],
}

/// For each first and each follow set the sets that contain it, from the marks of the nullable nodes and of the tries that give keys.
pub(crate) fn flow_graph(
    alloc: Global,
    grammar: &Grammar,
    nullable: &[bool],
    keys: &[bool],
) -> Result<Vec<Numbers>, AllocError>
    ensures graph { IfOk result (λ graph. graph.items ≡
        with_flows (replicate (length grammar.now.nodes + length grammar.now.nodes) [])
        (all_flows grammar.now.rules nullable.now keys.now (length grammar.now.nodes) 0 grammar.now.nodes)) }
    ensures grammar { IsGrammar grammar.now }
{
    let nodes = grammar.nodes();
    let rules = grammar.rules();
    let count = nodes.len();
    let marks = Marks { nullable, keys };
    let mut graph = empty_lists(alloc, count + count)?;
    for (number, node) in nodes.iter().enumerate() {
        join_node(&mut graph, rules, &marks, count, number, node)?;
    }
    Ok(graph)
}

/// The number of a node's follow set in a grammar with `count` nodes; a first set has the number of its node (ours).
pub fn follow_of(count: usize, node: usize) -> usize
    requires { count ≤ 8192 }
    ensures { result ≡ follow_of count node }
{
    if node < count {
        count + node
    } else {
        count + count
    }
}

/// Adds the edges that the node with this number gives, each from a first or a follow set to one that contains it (ours). A use of a rule that isn't
/// among these gives none.
pub fn join_node(
    graph: &mut [Numbers],
    rules: &[Rule],
    marks: &Marks<'_>,
    count: usize,
    number: usize,
    node: &Node,
) -> Result<(), AllocError>
    requires { count ≤ 8192 }
    ensures { OnOk result (graph.new ≡ with_flows graph.old (node_flows rules.now marks.now.nullable.now marks.now.keys.now count number node.now)) }
{
    match node {
        Form::Seq(parts) => join_seq(graph, marks.nullable, count, number, parts.as_slice()),
        Form::Choice(parts) => join_alternatives(graph, count, number, parts.as_slice()),
        Form::Many(part) => join_many(graph, count, number, part.index()),
        Form::Chain(_, _, operand, separator) => {
            join_chain(graph, marks.nullable, count, number, *operand, *separator)
        }
        Form::Rule(rule) => join_use(graph, rules, count, number, *rule),
        Form::Expression(_, part) => join_only(graph, count, number, part.index()),
        Form::Around(around, part) => {
            join_around(graph, marks.keys, count, number, around, part.index())
        }
        Form::Leaf(_) => Ok(()),
    }
}

/// Adds the edges of a form around a part. The first set of a try that gives a key gets nothing from its part.
fn join_around(
    graph: &mut [Numbers],
    keys: &[bool],
    count: usize,
    number: usize,
    around: &Around,
    part: usize,
) -> Result<(), AllocError>
    requires { count ≤ 8192 }
    ensures { OnOk result (graph.new ≡ with_flows graph.old (around_flows keys.now count number around.now part)) }
{
    if around.is_try() {
        join_try(graph, keys, count, number, part)
    } else {
        join_only(graph, count, number, part)
    }
}

/// Adds edges to a set from the first sets of these nodes in sequence, and from another set if all of them can be empty.
fn join_all(
    graph: &mut [Numbers],
    nullable: &[bool],
    parts: &[NodeId],
    after: usize,
    to: usize,
) -> Result<(), AllocError>
    ensures { OnOk result (graph.new ≡ with_flows graph.old (flows_of_all nullable.now parts.now after to)) }
{
    for part in parts {
        join(graph, part.index(), to)?;
        if !is_marked(nullable, part.index()) {
            return Ok(());
        }
    }
    join(graph, after, to)
}

/// As `join_all`, but without another set at the end.
fn join_some(
    graph: &mut [Numbers],
    nullable: &[bool],
    parts: &[NodeId],
    to: usize,
) -> Result<(), AllocError>
    ensures { OnOk result (graph.new ≡ with_flows graph.old (flows_of_some nullable.now parts.now to)) }
{
    for part in parts {
        join(graph, part.index(), to)?;
        if !is_marked(nullable, part.index()) {
            return Ok(());
        }
    }
    Ok(())
}

/// Adds edges to a set from the next node, and from what follows it if it can be empty; from another set if there is no next
/// node. A part belongs to one sequence at one place, so nothing else adds to what follows it.
fn join_next(
    graph: &mut [Numbers],
    nullable: &[bool],
    count: usize,
    parts: &[NodeId],
    after: usize,
    to: usize,
) -> Result<(), AllocError>
    requires { count ≤ 8192 }
    ensures { OnOk result (graph.new ≡ with_flows graph.old (flows_of_next nullable.now count parts.now after to)) }
{
    match parts {
        [] => join(graph, after, to),
        [next, ..] => {
            join(graph, next.index(), to)?;
            if is_marked(nullable, next.index()) {
                join(graph, follow_of(count, next.index()), to)?;
            }
            Ok(())
        }
    }
}

/// Adds the edges of a sequence.
fn join_seq(
    graph: &mut [Numbers],
    nullable: &[bool],
    count: usize,
    number: usize,
    parts: &[NodeId],
) -> Result<(), AllocError>
    requires { count ≤ 8192 }
    ensures { OnOk result (graph.new ≡
        with_flows graph.old (flows_of_some nullable.now parts.now number ++ flows_after_parts nullable.now count number parts.now)) }
{
    join_some(graph, nullable, parts, number)?;
    let mut rest = parts;
    while let Some((part, after)) = rest.split_first() {
        join_next(
            graph,
            nullable,
            count,
            after,
            follow_of(count, number),
            follow_of(count, part.index()),
        )?;
        rest = after;
    }
    Ok(())
}

/// Adds the edges of a choice.
fn join_alternatives(
    graph: &mut [Numbers],
    count: usize,
    number: usize,
    parts: &[NodeId],
) -> Result<(), AllocError>
    requires { count ≤ 8192 }
    ensures { OnOk result (graph.new ≡ with_flows graph.old (flows_of_alternatives count number parts.now)) }
{
    for part in parts {
        join(graph, part.index(), number)?;
        join(
            graph,
            follow_of(count, number),
            follow_of(count, part.index()),
        )?;
    }
    Ok(())
}

/// Adds the edges of a repetition: the start of a round follows the round before.
fn join_many(
    graph: &mut [Numbers],
    count: usize,
    number: usize,
    part: usize,
) -> Result<(), AllocError>
    requires { count ≤ 8192 }
    ensures { OnOk result (graph.new ≡ with_flows graph.old ((part, follow_of count part) ∷ flows_of_only count number part)) }
{
    join(graph, part, follow_of(count, part))?;
    join_only(graph, count, number, part)
}

/// Adds the edges of a chain: its operand stands at the start and after each separator.
fn join_chain(
    graph: &mut [Numbers],
    nullable: &[bool],
    count: usize,
    number: usize,
    operand: NodeId,
    separator: NodeId,
) -> Result<(), AllocError>
    requires { count ≤ 8192 }
    ensures { OnOk result (graph.new ≡ with_flows graph.old (flows_of_chain nullable.now count number operand separator)) }
{
    let past_operand = follow_of(count, operand.index());
    let past_separator = follow_of(count, separator.index());
    let after = follow_of(count, number);
    join_some(graph, nullable, &[operand, separator], number)?;
    join_some(graph, nullable, &[separator, operand], past_operand)?;
    join_all(graph, nullable, &[operand], after, past_separator)?;
    join(graph, after, past_operand)?;
    if is_marked(nullable, operand.index()) {
        join_some(graph, nullable, &[separator], past_separator)?;
    }
    Ok(())
}

/// Adds the edges of a try. Its first set is its key, or else its part's first set.
fn join_try(
    graph: &mut [Numbers],
    keys: &[bool],
    count: usize,
    number: usize,
    part: usize,
) -> Result<(), AllocError>
    requires { count ≤ 8192 }
    ensures { OnOk result (graph.new ≡ with_flows graph.old (try_flows keys.now count number part)) }
{
    if is_marked(keys, number) {
        return join(graph, follow_of(count, number), follow_of(count, part));
    }
    join_only(graph, count, number, part)
}

/// Adds the edges of a use of a rule.
fn join_use(
    graph: &mut [Numbers],
    rules: &[Rule],
    count: usize,
    number: usize,
    rule: RuleId,
) -> Result<(), AllocError>
    requires { count ≤ 8192 }
    ensures { OnOk result (graph.new ≡ with_flows graph.old (flows_of_use rules.now count number rule)) }
{
    match rules.get(rule.index()) {
        Some(rule) => join_only(graph, count, number, rule.body.index()),
        None => Ok(()),
    }
}

/// Adds the edges of a form with one part.
fn join_only(
    graph: &mut [Numbers],
    count: usize,
    number: usize,
    part: usize,
) -> Result<(), AllocError>
    requires { count ≤ 8192 }
    ensures { OnOk result (graph.new ≡ with_flows graph.old (flows_of_only count number part)) }
{
    join(graph, part, number)?;
    join(graph, follow_of(count, number), follow_of(count, part))
}
