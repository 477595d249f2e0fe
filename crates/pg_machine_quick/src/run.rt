//! Runs over whole texts.

ghost use Rattle.std.specs.Prelude.{◌≡◌, ℕ, ◌∷◌, [], false, Some, IfOk, IfSome};
ghost use Rattle.pg_machine_plan.specs.Judged.{IsRightFor};
ghost use Rattle.pg_machine_quick.specs.Laws.{TapeHasAnswered};
ghost use Rattle.pg_machine_plan.specs.Plans.{program};
ghost use Rattle.pg_machine_quick.specs.Looks.{program_of};
ghost use Rattle.pg_machine_quick.specs.Running.{shown};
ghost use Rattle.pg_machine_quick.specs.Tape.{first_tape, tape, tape_run};
ghost use Rattle.pg_machine_quick.specs.declared.frame.Frame.TheVariants.{Returns};
ghost use Rattle.pg_table.specs.Tables.{Table as Value};

use crate::context::Context;
use crate::frame::Frame;
use crate::landmarks::MarkedPlan;
use crate::laws::tapes_answer;
use crate::running::Running;
use crate::step::Step;
use pg_grammar_value::Grammar;
use pg_language_operators::InForce;
use pg_machine_plan::Plan;
use pg_table::Table;
use pg_text::Text;
use pg_tree_placed::PlacedForest;
use std::alloc::{AllocError, Global};

/// Runs a plan that is right for the grammar (`judge`) over a text with a table of operators, for so many turns at most; those of the code of rows at a place
/// count as one. Where it says something, the text is answered ok with these trees and so many nodes, and the table stays. None where it says nothing; that
/// isn't an error. The only error is running out of memory.
pub fn attempt<'a>(
    alloc: Global,
    grammar: &Grammar,
    plan: &Plan,
    table: &Table,
    text: &'a Text,
    turns: usize,
) -> Result<Option<Running<'a>>, AllocError>
    requires { IsRightFor grammar.now plan.now }
    ensures { IfOk result (λ ran. IfSome ran (λ s. TapeHasAnswered (program grammar.now plan.now text.now) table.now (shown s))) }
{
    tapes_answer();
    let operators = InForce::of(alloc, table)?;
    let marked = MarkedPlan::of(alloc, plan, text.len())?;
    let context = Context {
        alloc,
        grammar,
        plan: &marked,
        operators: &operators,
        text,
    };
    stopped(context, text, turns)
}

/// The state in which a run stops, if it does after so many turns at most.
fn stopped<'a>(
    context: Context<'_>,
    text: &'a Text,
    turns: usize,
) -> Result<Option<Running<'a>>, AllocError>
    ensures { IfOk result (λ ran. IfSome ran (λ s. (table : Value) → table.operators ≡ context.entry.operators.now → (n : ℕ) × (tape_run (program_of context.entry) table n (first_tape (program_of context.entry)) ≡ Some (shown s)))) }
{
    let mut running = first(context.alloc, context.plan, text)?;
    let code = context.plan.code();
    for _ in 0..turns {
        match running.turn(context, code)? {
            Step::GoesOn => {}
            Step::Stops => return Ok(Some(running)),
            Step::GivesUp => return Ok(None),
        }
    }
    Ok(None)
}

/// The state in which a run begins.
fn first<'a>(
    alloc: Global,
    plan: &MarkedPlan<'_>,
    text: &'a Text,
) -> Result<Running<'a>, AllocError>
    ensures { IfOk result (λ s. shown s ≡ tape plan.now.entry 0 (Returns 0 ∷ []) [] 0 false) }
{
    let mut frames = Vec::new(alloc);
    frames.push(Frame::Returns(0))?;
    let mut trees = PlacedForest::new(alloc, text.characters());
    trees.reserve()?;
    Ok(Running {
        pc: plan.entry(),
        place: 0,
        frames,
        trees,
        nodes: 0,
        taken: false,
    })
}
