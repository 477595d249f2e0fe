//! Reads what follows an operand of a row: after an infix operator another operand runs, or the row ends.

ghost use Rattle.std.specs.Prelude.{◌≡◌, ◌||◌, ℕ, suc, Some, None, IfOk, OnOk};
ghost use Rattle.pg_expand.specs.Rows.{row_numbered};
ghost use Rattle.pg_grammar_form.specs.Contents.{all_builders};
ghost use Rattle.pg_pred.specs.Offer.{offer_of};
ghost use Rattle.pg_grammar_value.specs.Fits.{BuildersFit};
ghost use Rattle.pg_language_operators.specs.Standings.{read_of};
ghost use Rattle.pg_machine_lists.specs.TapeLevels.{OnSetting, OnStretch, on_hands, on_runs, on_nothing, on_right, on_left, operator_read, lists_after, first_on, row_on, level_on};
ghost use Rattle.pg_language.specs.Answers.{Given};
ghost use Rattle.pg_machine_lists.specs.ViewLevels.{between_of, followed_of, given_of, level_of, lists_of, on_side, operator_of, preceding_of, setting_of, stretch_of, IsLook};

use crate::descend::look_on;
use crate::ends::join;
use crate::level::{
    Followed, Following, InfixRead, Level, Look, Preceding, RowLevel, Runs, Stretch,
};
use crate::lists::Lists;
use crate::said::no_infix_said;
use crate::stretch::note_read;
use pg_grammar_form::Role;
use pg_grammar_value::Fixity;
use pg_language_operators::RowRoles;
use pg_message_tape::{KeptError, Sided};
use std::alloc::AllocError;

impl<'a> Lists<'a> {
    /// What a level turns a stretch into. `look` is at the end of the stretch.
    #[tactic(auto, using(crate::proofs::RowSteps::level_by, crate::proofs::RowSteps::level_without))]
    pub(crate) fn level_on(
        &mut self,
        look: Look<'_, 'a>,
        level: Level<'a>,
        stretch: Stretch,
    ) -> Result<Followed<'a>, AllocError>
        requires look { IsLook look }
        requires item { look.context.given.grammar.now.operators ≡ Some look.setting.now.item.now }
        requires place { stretch.place ≡ look.place }
        requires offered { BuildersFit (offer_of look.context.registry.now) (all_builders look.setting.now.builders.now) }
        ensures followed { IfOk result (λ f. followed_of f self.new ≡
            level_on (given_of look.entry.context.given) (setting_of look.entry.setting.now) (level_of level.entry) (stretch_of stretch self.old)) }
    {
        match level {
            Level::Row(level) => match level.row.checked_sub(1) {
                Some(tighter) => {
                    let stretch = self.operand_of(look, level, stretch)?;
                    let look = look_on(look, stretch.place);
                    self.row_on(look, tighter, level, stretch)
                }
                None => Ok(Followed::Hands(stretch)),
            },
            Level::RightSide(operator) => {
                let stretch = self.after_joined(look, operator, stretch)?;
                Ok(Followed::Hands(stretch))
            }
        }
    }

    /// What a row turns an operand into, after what precedes it.
    #[tactic(auto, using(crate::proofs::RowSteps::non_by))]
    fn row_on(
        &mut self,
        look: Look<'_, 'a>,
        tighter: usize,
        level: RowLevel<'a>,
        stretch: Stretch,
    ) -> Result<Followed<'a>, AllocError>
        requires look { IsLook look }
        requires place { stretch.place ≡ look.place }
        requires row { level.row ≡ suc tighter }
        requires offered { BuildersFit (offer_of look.context.registry.now) (all_builders look.setting.now.builders.now) }
        ensures followed { IfOk result (λ f. followed_of f self.new ≡
            row_on (given_of look.entry.context.given) (setting_of look.entry.setting.now) tighter
            (row_numbered look.entry.setting.now.in_force.value (suc tighter)) level.entry.forest level.entry.messages
            (preceding_of level.entry.before) (stretch_of stretch self.old)) }
    {
        match level.before {
            Preceding::Nothing => self.first_on(look, tighter, level, stretch),
            Preceding::Right(operator) => { self.right_on(look, tighter, level, operator, stretch) }
            Preceding::Left(operator) => { self.left_on(look, tighter, level, operator, stretch) }
            Preceding::Non(operator) => {
                let stretch = self.end_non(look, level.row, operator, stretch)?;
                Ok(Followed::Hands(stretch))
            }
        }
    }

    /// As `row_on`, for the row's first operand.
    #[tactic(auto, using(crate::proofs::RowSteps::first_right, crate::proofs::RowSteps::first_left, crate::proofs::RowSteps::first_non, crate::proofs::RowSteps::first_none))]
    fn first_on(
        &mut self,
        look: Look<'_, 'a>,
        tighter: usize,
        level: RowLevel<'a>,
        stretch: Stretch,
    ) -> Result<Followed<'a>, AllocError>
        requires look { IsLook look }
        requires place { stretch.place ≡ look.place }
        requires row { level.row ≡ suc tighter }
        ensures followed { IfOk result (λ f. followed_of f self.new ≡
            row_on (given_of look.entry.context.given) (setting_of look.entry.setting.now) tighter
            (row_numbered look.entry.setting.now.in_force.value (suc tighter)) level.entry.forest level.entry.messages
            on_nothing (stretch_of stretch self.old)) }
    {
        let (forest, messages) = (level.forest, level.messages);
        if let Some(read) = look.read(level.row, Role::InfixRight) {
            let following = Following {
                read,
                side: Sided::Right,
                forest,
                messages,
            };
            return self.run_after(look, tighter, following, None);
        }
        if let Some(read) = look.read(level.row, Role::InfixLeft) {
            let following = Following {
                read,
                side: Sided::Left,
                forest,
                messages,
            };
            return self.run_after(look, tighter, following, None);
        }
        if let Some(read) = look.read(level.row, Role::InfixNone) {
            let following = Following {
                read,
                side: Sided::Neither,
                forest,
                messages,
            };
            return self.run_after(look, tighter, following, None);
        }
        let stretch = self.says_no_infix(look, level.row, stretch)?;
        Ok(Followed::Hands(stretch))
    }

    /// Adds that no infix operator follows the row's first operand.
    #[tactic(auto, using(crate::proofs::SaidRead::infix_any))]
    fn says_no_infix(
        &mut self,
        look: Look<'_, 'a>,
        row: usize,
        stretch: Stretch,
    ) -> Result<Stretch, AllocError>
        ensures stretch { IfOk result (λ after. (k n m : ℕ) →
            first_on (given_of look.entry.context.given) (setting_of look.entry.setting.now) k (row_numbered look.entry.setting.now.in_force.value row) n m
            (stretch_of stretch self.old) None None None ≡ on_hands (stretch_of after self.new)) }
    {
        let any = has_infix(look.setting.in_force.roles(row));
        let text = look.context.given.text;
        self.said_after(no_infix_said(text, any, stretch.place), stretch)
    }

    /// As `row_on`, after a right-associative operator.
    #[tactic(auto, using(crate::proofs::RowSteps::right_by))]
    fn right_on(
        &mut self,
        look: Look<'_, 'a>,
        tighter: usize,
        level: RowLevel<'a>,
        operator: InfixRead<'a>,
        stretch: Stretch,
    ) -> Result<Followed<'a>, AllocError>
        requires look { IsLook look }
        requires place { stretch.place ≡ look.place }
        requires row { level.row ≡ suc tighter }
        requires offered { BuildersFit (offer_of look.context.registry.now) (all_builders look.setting.now.builders.now) }
        ensures followed { IfOk result (λ f. followed_of f self.new ≡
            row_on (given_of look.entry.context.given) (setting_of look.entry.setting.now) tighter
            (row_numbered look.entry.setting.now.in_force.value (suc tighter)) level.entry.forest level.entry.messages
            (on_right (operator_of operator.entry)) (stretch_of stretch self.old)) }
    {
        match look.read(level.row, Role::InfixRight) {
            Some(read) => {
                let following = Following {
                    read,
                    side: Sided::Right,
                    forest: level.forest,
                    messages: level.messages,
                };
                self.run_after(look, tighter, following, Some(operator))
            }
            None => {
                let stretch = self.end_right(look, level.row, operator, stretch)?;
                Ok(Followed::Hands(stretch))
            }
        }
    }

    /// As `row_on`, after a left-associative operator, which is applied at once.
    #[tactic(auto, using(crate::proofs::RowSteps::left_by))]
    fn left_on(
        &mut self,
        look: Look<'_, 'a>,
        tighter: usize,
        level: RowLevel<'a>,
        operator: InfixRead<'a>,
        stretch: Stretch,
    ) -> Result<Followed<'a>, AllocError>
        requires look { IsLook look }
        requires place { stretch.place ≡ look.place }
        requires row { level.row ≡ suc tighter }
        requires offered { BuildersFit (offer_of look.context.registry.now) (all_builders look.setting.now.builders.now) }
        ensures followed { IfOk result (λ f. followed_of f self.new ≡
            row_on (given_of look.entry.context.given) (setting_of look.entry.setting.now) tighter
            (row_numbered look.entry.setting.now.in_force.value (suc tighter)) level.entry.forest level.entry.messages
            (on_left (operator_of operator.entry)) (stretch_of stretch self.old)) }
    {
        match look.read(level.row, Role::InfixLeft) {
            Some(read) => {
                join(look, operator, &mut self.forest)?;
                let following = Following {
                    read,
                    side: Sided::Left,
                    forest: operator.forest,
                    messages: level.messages,
                };
                self.run_after(look, tighter, following, None)
            }
            None => {
                let stretch = self.end_left(look, level.row, operator, stretch)?;
                Ok(Followed::Hands(stretch))
            }
        }
    }

    /// Runs an operand after an infix operator that was read after a stretch: notes the operator, and keeps its first messages. `between` is the
    /// operator whose right side the operand begins, if there is one.
    fn run_after(
        &mut self,
        look: Look<'_, 'a>,
        tighter: usize,
        following: Following<'_, 'a>,
        between: Option<InfixRead<'a>>,
    ) -> Result<Followed<'a>, AllocError>
        requires { following.read.symbol.now ≡ following.read.operator.now.symbol }
        ensures followed { IfOk result (λ f. (G : Given) (e : OnSetting) (z : OnStretch) → e.slot ≡ look.entry.setting.now.slot → z.lists ≡ lists_of self.old →
            followed_of f self.new ≡ on_runs tighter following.entry.read.end
            (on_side following.entry.side (operator_read (read_of following.entry.read) following.entry.forest following.entry.messages))
            (between_of between.entry) (lists_after G e (read_of following.entry.read) following.entry.messages z)) }
    {
        let Following {
            read,
            side,
            forest,
            messages,
        } = following;
        note_read(
            look.context.alloc,
            &mut self.trail,
            look.setting.slot,
            Fixity::Infix,
            read.symbol,
        )?;
        self.messages.cut(messages);
        let after = KeptError {
            place: read.end,
            from: messages,
            upto: messages,
        };
        let operator = InfixRead {
            symbol: read.symbol,
            forest,
            after,
        };
        Ok(Followed::Runs(Runs {
            tighter,
            place: read.end,
            before: preceding(side, operator),
            between,
        }))
    }
}

/// An infix operator as what precedes an operand.
fn preceding(side: Sided, operator: InfixRead<'_>) -> Preceding<'_>
    ensures { preceding_of result ≡ on_side side (operator_of operator.entry) }
{
    match side {
        Sided::Left => Preceding::Left(operator),
        Sided::Right => Preceding::Right(operator),
        Sided::Neither => Preceding::Non(operator),
    }
}

/// Whether a row with these roles has infix operators.
fn has_infix(roles: RowRoles) -> bool
    ensures { result ≡ ((roles.right || roles.left) || roles.non) }
{
    roles.right || roles.left || roles.non
}
