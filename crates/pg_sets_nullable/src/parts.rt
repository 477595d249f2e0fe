//! Which parts of a node are reached, and which rule a node uses.
//!
//! A part is reached if everything before it is nullable, as the marks of the nullable nodes show.
ghost use Rattle.std.specs.Prelude.{◌≡◌, ◌∷◌, [], replicate, length, IfOk, OnOk, MatchOption};
ghost use Rattle.pg_grammar_value.specs.Grammar.{IsGrammar};
ghost use Rattle.pg_graph.specs.Graphs.{joined_each};
ghost use Rattle.pg_sets_nullable.specs.Parts.{up_to_unmarked, reached_parts, used_rules, all_joined};

use pg_grammar_form::{Around, Form, Leaf, Node, NodeId, RuleId};
use pg_grammar_value::Grammar;
use pg_graph::{Numbers, empty_lists, is_marked, join};
use std::alloc::{AllocError, Global};

/// For each node, the nodes that reach it as a part.
pub(crate) fn reached_from(
    alloc: Global,
    grammar: &Grammar,
    nullable: &[bool],
) -> Result<Vec<Numbers>, AllocError>
    ensures graph { IfOk result (λ graph. graph.items ≡
        all_joined (reached_parts nullable.now) 0 grammar.now.nodes (replicate (length grammar.now.nodes) [])) }
    ensures grammar { IsGrammar grammar.now }
{
    let nodes = grammar.nodes();
    let mut graph = empty_lists(alloc, nodes.len())?;
    for (number, node) in nodes.iter().enumerate() {
        join_node(&mut graph, nullable, number, node)?;
    }
    Ok(graph)
}

/// For each rule the nodes that use it.
pub(crate) fn uses_of_rules(alloc: Global, grammar: &Grammar) -> Result<Vec<Numbers>, AllocError>
    ensures { IfOk result (λ uses. uses.items ≡
        all_joined used_rules 0 grammar.now.nodes (replicate (length grammar.now.rules) [])) }
{
    let mut uses = empty_lists(alloc, grammar.rules().len())?;
    for (number, node) in grammar.nodes().iter().enumerate() {
        if let Some(rule) = used_rule(node) {
            join(&mut uses, rule.index(), number)?;
        }
    }
    Ok(uses)
}

/// Adds a node to the list of each part that it reaches.
fn join_node(
    graph: &mut [Numbers],
    nullable: &[bool],
    number: usize,
    node: &Node,
) -> Result<(), AllocError>
    ensures { OnOk result (graph.new ≡ joined_each graph.old (reached_parts nullable.now node.now) number) }
{
    match node {
        Form::Seq(parts) => join_reached(graph, nullable, number, parts.as_slice()),
        Form::Choice(parts) => join_all(graph, number, parts.as_slice()),
        Form::Chain(_, _, operand, separator) => {
            join_reached(graph, nullable, number, &[*operand, *separator])
        }
        Form::Many(part) | Form::Around(_, part) | Form::Expression(_, part) => {
            join(graph, part.index(), number)
        }
        Form::Leaf(_) | Form::Rule(_) => Ok(()),
    }
}

/// Adds a number to the lists of these nodes, up to and with the first that isn't nullable.
fn join_reached(
    graph: &mut [Numbers],
    nullable: &[bool],
    number: usize,
    parts: &[NodeId],
) -> Result<(), AllocError>
    ensures { OnOk result (graph.new ≡ joined_each graph.old (up_to_unmarked nullable.now parts.now) number) }
{
    for part in parts {
        join(graph, part.index(), number)?;
        if !is_marked(nullable, part.index()) {
            return Ok(());
        }
    }
    Ok(())
}

/// Adds a number to the lists of all these nodes.
fn join_all(graph: &mut [Numbers], number: usize, parts: &[NodeId]) -> Result<(), AllocError>
    ensures { OnOk result (graph.new ≡ joined_each graph.old parts.now number) }
{
    for part in parts {
        join(graph, part.index(), number)?;
    }
    Ok(())
}

/// The rule that a node uses; none if the node has another form.
fn used_rule(node: &Node) -> Option<RuleId>
    ensures { MatchOption result (used_rules node.now ≡ []) (λ rule. used_rules node.now ≡ rule ∷ []) }
{
    match node.named_rule() {
        Some(rule) => Some(*rule),
        None => None,
    }
}
