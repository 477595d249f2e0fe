//! What a parse of a grammar costs at most, in steps for each character.
//!
//! Numbers stop at the greatest that 64 bits hold. The costs of nodes grow in rounds until no round changes one; sizes are
//! found in one pass over the nodes.
#![tactic(auto)]

mod costs;
mod grammar_cost;
mod sizes;
mod totals;

pub use costs::around_cost;
pub use grammar_cost::{cost_by_costs, costs_of_nodes, step_cost};
pub use totals::{leaf_steps, number_at, row_steps, steps_of_all};
