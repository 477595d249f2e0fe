//! The step cost (C11): it must be within a limit, so that a parse takes no more than that many steps for each character.
//!
//! There is a step cost only if no rule heads itself.
ghost use Rattle.std.specs.Prelude.{◌≡◌, ◌↔◌, ℕ, true, false, nat_eq};
ghost use Rattle.std.specs.Option.{option_map_or};
ghost use Rattle.pg_predict_conditions.specs.Shown.{IsOver};

use pg_grammar_form::NodeId;
use pg_grammar_value::Grammar;

/// The greatest step cost of a grammar that is accepted.
const COST_LIMIT: u64 = 4_294_967_296;

/// The body of the start rule if the grammar has a step cost above the limit; none otherwise.
pub(crate) fn costly_body(grammar: &Grammar, cost: Option<u64>) -> Option<NodeId>
    ensures { (p : ℕ) → (option_map_or (λ q. nat_eq q p) result false ≡ true) ↔ IsOver grammar.now cost p }
{
    let Some(cost) = cost else {
        return None;
    };
    if cost <= COST_LIMIT {
        return None;
    }
    let start = grammar.start_rule().index();
    Some(grammar.rules()[start].body)
}
