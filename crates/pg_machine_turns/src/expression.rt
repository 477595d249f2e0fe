//! Expressions: rows of operators over a term.
//!
//! Everything between two terms is one turn: the rows get the term's outcome one after the other, until one
//! of them reads an infix operator and the term runs again, or the expression ends.

ghost use Rattle.std.specs.Prelude.{◌≡◌, ◌∷◌, Some, IfOk};
ghost use Rattle.pg_grammar_form.specs.Contents.{all_builders};
ghost use Rattle.pg_pred.specs.Offer.{offer_of};
ghost use Rattle.pg_grammar_value.specs.Fits.{BuildersFit};
ghost use Rattle.pg_machine_turns.specs.Tape.{tape_at, on_expression, tape_climbed, tape_expression, tape_failed, tape_to_expression};
ghost use Rattle.pg_machine_lists.specs.TapeLevels.{on_climb, on_failed};
ghost use Rattle.pg_machine_turns.specs.View.{on_lists, tape_of};
ghost use Rattle.pg_machine_lists.specs.ViewLevels.{failure_of, given_of, setting_of, stretch_of};

use crate::frame::{Frame, Mode, Reply};
use crate::machine::Machine;
use pg_grammar_form::{NodeId, OperatorBuilders, OperatorsItem};
use pg_grammar_value::{AppliedOperators, TrailItem};
use pg_language_operators::InForce;
use pg_machine_lists::{Climbed, Context, ExpressionFrame, Failure, Levels, Setting, Stretch};
use pg_table::Table;
use std::alloc::{AllocError, Global};
use std::rc::Rc;

impl<'a> Machine<'a> {
    /// Begins the rows of the table in force, and then the term, by the operators item, if there is one.
    #[inline(never)]
    pub(crate) fn enter_expression(
        &mut self,
        context: Context<'_, 'a>,
        builders: &'a OperatorBuilders,
        term: NodeId,
        place: usize,
    ) -> Result<Mode, AllocError>
        ensures { IfOk result (λ mode. tape_of mode self.new ≡
            on_lists (λ fs v t x T. tape_expression (given_of context.entry.given) builders.now term place fs v t x T context.entry.given.grammar.now.operators) self.old) }
    {
        match context.given.grammar.operators_item() {
            Some(item) => self.enter_rows(context, item, builders, term, place),
            None => Ok(Mode::Endless),
        }
    }

    /// As `enter_expression`, with this item.
    #[tactic(auto, using(crate::proofs::ExpressionSteps::down_tape))]
    fn enter_rows(
        &mut self,
        context: Context<'_, 'a>,
        item: &'a OperatorsItem,
        builders: &'a OperatorBuilders,
        term: NodeId,
        place: usize,
    ) -> Result<Mode, AllocError>
        requires { context.given.grammar.now.operators ≡ Some item.now }
        ensures { IfOk result (λ mode. tape_of mode self.new ≡
            on_lists (λ fs v t x T. tape_expression (given_of context.entry.given) builders.now term place fs v t x T (Some item.now)) self.old) }
    {
        let alloc = context.alloc;
        let in_force = in_force(alloc, &mut self.in_force, &self.table)?;
        let slot = self.lists.trail.len();
        let none = AppliedOperators::new(alloc, Vec::new(alloc))?;
        self.lists.trail.push(TrailItem::Ops(none))?;
        let rows = in_force.rows();
        let setting = Setting {
            item,
            builders,
            term,
            in_force,
            slot,
        };
        let mut levels = Levels::new(alloc);
        let place = self
            .lists
            .down(context, &setting, &mut levels, rows, place)?;
        let frame = Box::new(alloc, ExpressionFrame { setting, levels })?;
        self.run_term(frame, place)
    }

    /// Runs the term, with a frame that waits for it.
    fn run_term(
        &mut self,
        frame: Box<ExpressionFrame<'a>>,
        place: usize,
    ) -> Result<Mode, AllocError>
        ensures { IfOk result (λ mode. tape_of mode self.new ≡
            tape_at frame.entry.value.setting.term place
            (on_expression (setting_of frame.entry.value.setting) frame.entry.value.levels ∷ self.old.frames)
            self.old.lists.forest self.old.lists.trail.items self.old.lists.messages self.old.table) }
    {
        let term = frame.setting.term;
        self.enter_part(Frame::Expression(frame), term, place)
    }

    /// Passes an answer of the term to the levels.
    #[inline(never)]
    pub(crate) fn hand_to_expression(
        &mut self,
        context: Context<'_, 'a>,
        mut frame: Box<ExpressionFrame<'a>>,
        reply: Reply,
    ) -> Result<Mode, AllocError>
        requires item { context.given.grammar.now.operators ≡ Some frame.value.setting.item.now }
        requires offered { BuildersFit (offer_of context.registry.now) (all_builders frame.value.setting.builders.now) }
        ensures { IfOk result (λ mode. tape_of mode self.new ≡
            on_lists (tape_to_expression (given_of context.entry.given) (setting_of frame.entry.value.setting) frame.entry.value.levels reply) self.old) }
    {
        match reply {
            Reply::Succeeded {
                consumed,
                end,
                error,
            } => {
                let stretch = Stretch {
                    consumed,
                    place: end,
                    error,
                };
                self.hand_stretch(context, frame, stretch)
            }
            Reply::Failed { consumed, error } => {
                self.hand_failure(&mut frame, Failure { consumed, error })
            }
            Reply::EmptyRound => Ok(Mode::With(Reply::EmptyRound)),
        }
    }

    /// Passes the ok answer of the term to the levels.
    #[tactic(auto, using(crate::proofs::ExpressionSteps::again_tape, crate::proofs::ExpressionSteps::ended_tape))]
    fn hand_stretch(
        &mut self,
        context: Context<'_, 'a>,
        mut frame: Box<ExpressionFrame<'a>>,
        stretch: Stretch,
    ) -> Result<Mode, AllocError>
        requires item { context.given.grammar.now.operators ≡ Some frame.value.setting.item.now }
        requires offered { BuildersFit (offer_of context.registry.now) (all_builders frame.value.setting.builders.now) }
        ensures { IfOk result (λ mode. tape_of mode self.new ≡
            tape_climbed (given_of context.entry.given) (setting_of frame.entry.value.setting)
            (on_climb (given_of context.entry.given) (setting_of frame.entry.value.setting) frame.entry.value.levels (stretch_of stretch self.old.lists))
            self.old.frames self.old.table) }
    {
        let ExpressionFrame { setting, levels } = &mut *frame;
        let climbed = self.lists.climb(context, setting, levels, stretch)?;
        match climbed {
            Climbed::Ended(stretch) => {
                Ok(Mode::With(Reply::Succeeded {
                    consumed: stretch.consumed,
                    end: stretch.place,
                    error: stretch.error,
                }))
            }
            Climbed::Again(place) => self.run_term(frame, place),
        }
    }

    /// Passes the failure of the term to the levels.
    #[tactic(auto, using(crate::proofs::ExpressionSteps::failed_tape))]
    fn hand_failure(
        &mut self,
        frame: &mut ExpressionFrame<'a>,
        failure: Failure,
    ) -> Result<Mode, AllocError>
        ensures { IfOk result (λ mode. tape_of mode self.new ≡
            tape_failed (on_failed frame.old.levels (failure_of failure self.old.lists))
            self.old.frames self.old.lists.forest self.old.lists.trail.items self.old.table) }
    {
        let failure = self.lists.fail_levels(&mut frame.levels, failure)?;
        Ok(Mode::With(Reply::Failed {
            consumed: failure.consumed,
            error: failure.error,
        }))
    }
}

/// The operators of the table, prepared for the rows; the last expression's are reused if the table is the same.
fn in_force(
    alloc: Global,
    last: &mut Option<Rc<InForce>>,
    table: &Table,
) -> Result<Rc<InForce>, AllocError>
    ensures { IfOk result (λ in_force. in_force.value ≡ table.now.operators) }
{
    if let Some(in_force) = last {
        if in_force.is_of(table.operators()) {
            return in_force.clone();
        }
    }
    let made = Rc::new(alloc, InForce::of(alloc, table)?)?;
    *last = Some(made.clone()?);
    Ok(made)
}
