//! Passes a stretch from level to level of an expression, until one of them needs another operand.

ghost use Rattle.std.specs.Prelude.{◌≡◌, Some, IfOk, OnOk};
ghost use Rattle.std.specs.Option.{option_copied};
ghost use Rattle.pg_grammar_form.specs.Contents.{all_builders};
ghost use Rattle.pg_pred.specs.Offer.{offer_of};
ghost use Rattle.pg_grammar_value.specs.Fits.{BuildersFit};
ghost use Rattle.pg_machine_lists.specs.TapeLevels.{failed_after, failed_before, level_failed, on_climb, on_failed, was_read};
ghost use Rattle.pg_machine_lists.specs.ViewLevels.{climbed_of, failure_of, given_of, level_of, preceding_of, setting_of, stretch_of};

use crate::descend::{look_at, look_on};
use crate::level::{Climbed, Context, Failure, Followed, Level, Preceding, Setting, Stretch};
use crate::levels::Levels;
use crate::lists::Lists;
use pg_message_tape::KeptError;
use std::alloc::AllocError;

impl<'a> Lists<'a> {
    /// Passes a stretch to the levels, innermost first: each turns what the one before it produced into its own. The result is the stretch of the whole
    /// expression, or the place where the term runs again, after an infix operator and the prefixes behind it; `levels` are then those that wait for that
    /// run. A row continues as in `buildExpressionParser` of Text.Parsec.Expr: after a right-associative operator it reads only right-associative ones,
    /// after a left-associative one only left-associative ones, and an operator that may not follow is reported as an ambiguous use, without consumption.
    /// The operators item must be the grammar's, and the registry must offer the builders.
    #[tactic(auto, using(crate::proofs::LevelSteps::climb_hands, crate::proofs::LevelSteps::climb_runs))]
    pub fn climb(
        &mut self,
        context: Context<'_, 'a>,
        setting: &Setting<'a>,
        levels: &mut Levels<'a>,
        stretch: Stretch,
    ) -> Result<Climbed, AllocError>
        requires item { context.given.grammar.now.operators ≡ Some setting.now.item.now }
        requires offered { BuildersFit (offer_of context.registry.now) (all_builders setting.now.builders.now) }
        ensures climbed { IfOk result (λ climbed. climbed_of climbed levels.new self.new ≡
            on_climb (given_of context.entry.given) (setting_of setting.now) levels.old (stretch_of stretch self.old)) }
    {
        let mut stretch = stretch;
        let mut look = look_at(context, setting, stretch.place);
        while let Some(level) = levels.pop() {
            look = look_on(look, stretch.place);
            match self.level_on(look, level, stretch)? {
                Followed::Hands(next) => stretch = next,
                Followed::Runs(runs) => {
                    let place = self.operand_down(context, setting, levels, runs)?;
                    return Ok(Climbed::Again(place));
                }
            }
        }
        Ok(Climbed::Ended(stretch))
    }

    /// Passes a failure of the term to the levels, innermost first. A failure after a prefix or an infix operator has consumed; the error
    /// of one that had not is merged with the error from before. Trees and operators stay as they are.
    pub fn fail_levels(
        &mut self,
        levels: &mut Levels<'a>,
        failure: Failure,
    ) -> Result<Failure, AllocError>
        ensures failure { IfOk result (λ after. failure_of after self.new ≡ on_failed levels.old (failure_of failure self.old)) }
        ensures forest { OnOk result (self.new.forest ≡ self.old.forest) }
        ensures trail { OnOk result (self.new.trail ≡ self.old.trail) }
    {
        let mut failure = failure;
        while let Some(level) = levels.pop() {
            failure = self.level_failed(level, failure)?;
        }
        Ok(failure)
    }

    /// As `fail_levels`, for one level.
    fn level_failed(&mut self, level: Level<'a>, failure: Failure) -> Result<Failure, AllocError>
        ensures failure { IfOk result (λ after. failure_of after self.new ≡ level_failed (level_of level.entry) (failure_of failure self.old)) }
        ensures forest { OnOk result (self.new.forest ≡ self.old.forest) }
        ensures trail { OnOk result (self.new.trail ≡ self.old.trail) }
    {
        match level {
            Level::Row(level) => {
                let consumed = was_read(level.prefix);
                let failure = self.failed_after(consumed, level.entry, failure)?;
                self.failed_before(level.before, failure)
            }
            Level::RightSide(operator) => self.failed_after(true, operator.after, failure),
        }
    }

    /// As `fail_levels`, for what precedes an operand.
    fn failed_before(
        &mut self,
        before: Preceding<'a>,
        failure: Failure,
    ) -> Result<Failure, AllocError>
        ensures failure { IfOk result (λ after. failure_of after self.new ≡ failed_before (preceding_of before.entry) (failure_of failure self.old)) }
        ensures forest { OnOk result (self.new.forest ≡ self.old.forest) }
        ensures trail { OnOk result (self.new.trail ≡ self.old.trail) }
    {
        match before {
            Preceding::Nothing => Ok(failure),
            Preceding::Right(operator) => self.failed_after(true, operator.after, failure),
            Preceding::Left(operator) => self.failed_after(true, operator.after, failure),
            Preceding::Non(operator) => self.failed_after(true, operator.after, failure),
        }
    }

    /// The failure put after a kept error. `consumed` says whether what precedes it consumed.
    fn failed_after(
        &mut self,
        consumed: bool,
        kept: KeptError,
        failure: Failure,
    ) -> Result<Failure, AllocError>
        ensures failure { IfOk result (λ after. failure_of after self.new ≡ failed_after consumed kept (failure_of failure self.old)) }
        ensures forest { OnOk result (self.new.forest ≡ self.old.forest) }
        ensures trail { OnOk result (self.new.trail ≡ self.old.trail) }
    {
        let error = self.error_after(kept, failure.consumed, failure.error)?;
        Ok(Failure {
            consumed: consumed || failure.consumed,
            error,
        })
    }
}

/// Whether a prefix was read.
fn was_read(prefix: Option<&[char]>) -> bool
    ensures { result ≡ was_read (option_copied prefix.entry) }
{
    match prefix {
        Some(_) => true,
        None => false,
    }
}
