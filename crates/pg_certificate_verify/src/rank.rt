//! The ranks that the claims require.
//!
//! A rule heads another if its body reaches a use of that one. The rule's rank must be above the claimed rank of the other. So
//! if all ranks are high enough, no rule leads back to itself before anything is consumed.

ghost use Rattle.std.specs.Prelude.{◌≡◌, ◌≤◌, ◌↔◌, length, IfOk, IsTrue};
ghost use Rattle.pg_predict_costs.specs.Steps.{number_at};
ghost use Rattle.pg_sets_nullable.specs.Parts.{up_to_unmarked};
ghost use Rattle.pg_certificate_verify.specs.Claimed.{claimed_rank};
ghost use Rattle.pg_certificate_verify.specs.Rank.{greatest_of, rank_by, AreRanksBy};

use crate::claims::claimed_rank;
use pg_certificate::{Certificate, RuleClaim};
use pg_grammar_form::{Form, Node, NodeId, RuleId};
use pg_grammar_value::{Grammar, Rule};
use pg_graph::is_marked;
use pg_predict_costs::number_at;
use std::alloc::{AllocError, Global};

/// The rank that each node requires by the claims, from the marks of the nullable nodes.
pub fn ranks_by_claims(
    alloc: Global,
    grammar: &Grammar,
    certificate: &Certificate,
    nullable: &[bool],
) -> Result<Vec<u64>, AllocError>
    ensures { IfOk result (λ ranks. AreRanksBy grammar.now certificate.now nullable.now ranks.items) }
{
    let mut ranks = vec![in alloc; 0; grammar.nodes().len()]?;
    fill_ranks(grammar, certificate.claims(), nullable, &mut ranks);
    Ok(ranks)
}

/// Fills in the rank that each node requires.
fn fill_ranks(grammar: &Grammar, claims: &[RuleClaim], nullable: &[bool], ranks: &mut [u64])
    requires { length ranks.old ≡ length grammar.now.nodes }
    ensures { AreRanksBy grammar.now claims.now nullable.now ranks.new }
{
    let nodes = grammar.nodes();
    for p in (0..nodes.len()).rev() {
        let rank = rank_of(claims, nullable, ranks, &nodes[p]);
        ranks[p] = rank;
    }
}

/// The rank that a node requires, from the ranks that its parts require.
fn rank_of(claims: &[RuleClaim], nullable: &[bool], ranks: &[u64], node: &Node) -> u64
    ensures { result ≡ rank_by claims.now nullable.now (number_at ranks.now) node.now }
{
    match node {
        Form::Leaf(_) => 0,
        Form::Seq(parts) => greatest_reached(nullable, ranks, parts.as_slice()),
        Form::Choice(parts) => greatest_of(ranks, parts.as_slice()),
        Form::Many(part) | Form::Around(_, part) | Form::Expression(_, part) => {
            number_at(ranks, part.index())
        }
        Form::Chain(_, _, operand, separator) => {
            greatest_reached(nullable, ranks, &[*operand, *separator])
        }
        Form::Rule(rule) => claimed_rank(claims, *rule) as u64 + 1,
    }
}

/// The greatest of the numbers of these nodes.
fn greatest_of(numbers: &[u64], parts: &[NodeId]) -> u64
    ensures { result ≡ greatest_of (number_at numbers.now) parts.now }
{
    let mut greatest = 0;
    for part in parts {
        greatest = number_at(numbers, part.index()).max(greatest);
    }
    greatest
}

/// The greatest of these nodes' numbers, up to and with the first that isn't nullable.
fn greatest_reached(nullable: &[bool], numbers: &[u64], parts: &[NodeId]) -> u64
    ensures { result ≡ greatest_of (number_at numbers.now) (up_to_unmarked nullable.now parts.now) }
{
    let mut greatest = 0;
    for part in parts {
        greatest = number_at(numbers, part.index()).max(greatest);
        if !is_marked(nullable, part.index()) {
            return greatest;
        }
    }
    greatest
}

/// Whether the claimed rank of the rule with this number holds: it is at least the rank that its body requires.
pub fn holds_rank(ranks: &[u64], claims: &[RuleClaim], number: RuleId, rule: &Rule) -> bool
    ensures { IsTrue result ↔ (number_at ranks.now rule.now.body ≤ claimed_rank claims.now number) }
{
    number_at(ranks, rule.body.index()) <= claimed_rank(claims, number) as u64
}
