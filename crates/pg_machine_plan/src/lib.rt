//! Grammars laid out as code that goes by the next character, and the judge of such plans.
#![tactic(auto)]

mod instruction;
mod judge_arms;
mod judge_choices;
mod judge_code;
mod judge_expressions;
mod judge_plans;
mod judge_rounds;
mod judge_shapes;
mod laws;
mod lay;
mod lay_arms;
mod lay_code;
mod lay_expressions;
mod lay_forms;
mod lay_kinds;
mod lay_needs;
mod next;
mod plan;
mod prepared;
mod verdict;
mod verdict_columns;
mod verdict_leaf;
mod verdict_node;

pub use instruction::{Arm, Instruction, Keep, Stretch};
pub use judge_plans::{PlanFault, judge};
pub use laws::verdicts_are_true;
pub use lay::lay_out;
pub use next::{Next, chosen};
pub use plan::Plan;
pub use prepared::{MOST_LAID_OUT, prepare};
pub use verdict::{MOST_NODES, Verdict};
pub use verdict_columns::verdict_column;
