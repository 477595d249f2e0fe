//! Sums of steps, which stop at the greatest number.
ghost use Rattle.std.specs.Prelude.{◌≡◌};
ghost use Rattle.pg_sets_nullable.specs.Parts.{up_to_unmarked};
ghost use Rattle.pg_predict_costs.specs.Steps.{number_at, cut_off, steps_of_all, body_steps, leaf_steps, row_steps};

use pg_grammar_form::{Leaf, NodeId, RuleId, WordId};
use pg_grammar_value::Grammar;
use pg_sets::Sets;

/// The number at an index; 0 for an index out of range.
pub fn number_at(numbers: &[u64], place: usize) -> u64
    ensures { result ≡ number_at numbers.now place }
{
    match numbers.get(place) {
        Some(number) => *number,
        None => 0,
    }
}

/// The sum of these nodes' steps.
pub fn steps_of_all(steps: &[u64], parts: &[NodeId]) -> u64
    ensures { result ≡ cut_off (steps_of_all (number_at steps.now) parts.now) }
{
    let mut total: u64 = 0;
    for part in parts {
        total = total.saturating_add(number_at(steps, part.index()));
    }
    total
}

/// The sum of these nodes' steps, up to and with the first that isn't nullable.
pub(crate) fn steps_of_reached(steps: &[u64], sets: &Sets, parts: &[NodeId]) -> u64
    ensures { result ≡ cut_off (steps_of_all (number_at steps.now) (up_to_unmarked sets.now.nullable parts.now)) }
{
    let mut total: u64 = 0;
    for part in parts {
        total = total.saturating_add(number_at(steps, part.index()));
        if !sets.nullable(*part) {
            return total;
        }
    }
    total
}

/// The steps of a rule's body.
pub(crate) fn body_steps(grammar: &Grammar, steps: &[u64], rule: RuleId) -> u64
    ensures { result ≡ body_steps grammar.now.rules (number_at steps.now) rule }
{
    match grammar.rules().get(rule.index()) {
        Some(rule) => number_at(steps, rule.body.index()),
        None => 0,
    }
}

/// The steps of a leaf.
pub fn leaf_steps(leaf: &Leaf<WordId>) -> u64
    ensures { result ≡ leaf_steps leaf.now }
{
    if leaf.is_declaration() { 40 } else { 2 }
}

/// The steps of an expression's rows for each operator and each term.
pub fn row_steps(grammar: &Grammar) -> u64
    ensures { result ≡ cut_off (row_steps grammar.now) }
{
    let limit = match grammar.operators_item() {
        Some(item) => item.max as u64,
        None => 0,
    };
    limit.saturating_add(10).saturating_mul(200)
}
