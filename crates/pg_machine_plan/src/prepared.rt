//! Plans that are right for their grammars.

ghost use Rattle.std.specs.Prelude.{IfOk, IfSome};
ghost use Rattle.pg_machine_plan.specs.Judged.{IsRightFor};

use crate::judge_plans::{PlanFault, judge};
use crate::lay::lay_out;
use crate::plan::Plan;
use pg_grammar_value::Grammar;
use std::alloc::{AllocError, Global};

/// The most nodes of a grammar that is laid out. Laying one out and judging it takes 260 verdicts a node.
pub const MOST_LAID_OUT: usize = 1_000;

/// A plan that is right for the grammar. None where the grammar has more than 1,000 nodes, or a form that isn't taken, or where what is laid out can't be judged
/// right. The only error is running out of memory.
pub fn prepare(alloc: Global, grammar: &Grammar) -> Result<Option<Plan>, AllocError>
    ensures { IfOk result (λ prepared. IfSome prepared (λ plan. IsRightFor grammar.now plan)) }
{
    if grammar.nodes().len() > MOST_LAID_OUT {
        return Ok(None);
    }
    match lay_out(alloc, grammar)? {
        Some(plan) => if_right(alloc, grammar, plan),
        None => Ok(None),
    }
}

/// The plan, if it is right for the grammar.
fn if_right(alloc: Global, grammar: &Grammar, plan: Plan) -> Result<Option<Plan>, AllocError>
    ensures { IfOk result (λ kept. IfSome kept (λ plan. IsRightFor grammar.now plan)) }
{
    match judge(alloc, grammar, &plan) {
        Ok(()) => Ok(Some(plan)),
        Err(PlanFault::NotLaidOut) => Ok(None),
        Err(PlanFault::Memory) => Err(AllocError),
    }
}
