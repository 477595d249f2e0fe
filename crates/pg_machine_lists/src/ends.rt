//! The end of a row after an infix operator: reports what may not follow, and applies the operator.

ghost use Rattle.std.specs.Prelude.{◌≡◌, ◌<◌, ℕ, None, IfOk, OnOk};
ghost use Rattle.std.specs.Str.{encode_utf8_all};
ghost use Rattle.pg_expand.specs.Rows.{row_numbered};
ghost use Rattle.pg_grammar_form.specs.Contents.{all_builders};
ghost use Rattle.pg_pred.specs.Offer.{offer_of};
ghost use Rattle.pg_grammar_value.specs.Fits.{BuildersFit};
ghost use Rattle.pg_language.specs.Answers as language;
ghost use Rattle.pg_machine_lists.specs.RunTrees.{built_after};
ghost use Rattle.pg_machine_lists.specs.TapeLevels.{after_read, joined_from, left_on, on_hands, on_non, right_on, row_on, says_right, says_left, says_non};
ghost use Rattle.pg_machine_lists.specs.ViewLevels.{given_of, operator_of, setting_of, stretch_of, IsLook};

use crate::level::{InfixRead, Look, Stretch};
use crate::lists::Lists;
use crate::run_forest::RunForest;
use crate::said::{ambiguous_said, unread_said};
use crate::stretch::apply;
use pg_grammar_form::Role;
use pg_message_tape::Sided;
use std::alloc::AllocError;

impl<'a> Lists<'a> {
    /// Ends a row after the operand of a right-associative operator, where no further one is read.
    #[tactic(auto, using(crate::proofs::RowSteps::ended_right))]
    pub(crate) fn end_right(
        &mut self,
        look: Look<'_, 'a>,
        row: usize,
        operator: InfixRead<'a>,
        stretch: Stretch,
    ) -> Result<Stretch, AllocError>
        requires look { IsLook look }
        requires place { stretch.place ≡ look.place }
        requires row { 0 < row }
        requires offered { BuildersFit (offer_of look.context.registry.now) (all_builders look.setting.now.builders.now) }
        ensures stretch { IfOk result (λ after. (k n m : ℕ) →
            right_on (given_of look.entry.context.given) (setting_of look.entry.setting.now) k (row_numbered look.entry.setting.now.in_force.value row) n m
            (operator_of operator.entry) (stretch_of stretch self.old) None ≡ on_hands (stretch_of after self.new)) }
    {
        let text = look.context.given.text;
        let any = look.setting.in_force.roles(row).right;
        let stretch = self.said_after(unread_said(text, any, stretch.place), stretch)?;
        let stretch = self.says_left(look, row, stretch)?;
        let stretch = self.says_non(look, row, stretch)?;
        let stretch = self.after_joined(look, operator, stretch)?;
        Ok(stretch)
    }

    /// Ends a row after the operand of a left-associative operator, where no further one is read.
    #[tactic(auto, using(crate::proofs::RowSteps::ended_left))]
    pub(crate) fn end_left(
        &mut self,
        look: Look<'_, 'a>,
        row: usize,
        operator: InfixRead<'a>,
        stretch: Stretch,
    ) -> Result<Stretch, AllocError>
        requires look { IsLook look }
        requires place { stretch.place ≡ look.place }
        requires row { 0 < row }
        requires offered { BuildersFit (offer_of look.context.registry.now) (all_builders look.setting.now.builders.now) }
        ensures stretch { IfOk result (λ after. (k m : ℕ) →
            left_on (given_of look.entry.context.given) (setting_of look.entry.setting.now) k (row_numbered look.entry.setting.now.in_force.value row) m
            (operator_of operator.entry) (stretch_of stretch self.old) None ≡ on_hands (stretch_of after self.new)) }
    {
        let text = look.context.given.text;
        let any = look.setting.in_force.roles(row).left;
        let stretch = self.said_after(unread_said(text, any, stretch.place), stretch)?;
        let stretch = self.says_right(look, row, stretch)?;
        let stretch = self.says_non(look, row, stretch)?;
        let stretch = self.after_joined(look, operator, stretch)?;
        Ok(stretch)
    }

    /// Ends a row after the operand of a non-associative operator.
    #[tactic(auto, using(crate::proofs::RowSteps::ended_non))]
    pub(crate) fn end_non(
        &mut self,
        look: Look<'_, 'a>,
        row: usize,
        operator: InfixRead<'a>,
        stretch: Stretch,
    ) -> Result<Stretch, AllocError>
        requires look { IsLook look }
        requires place { stretch.place ≡ look.place }
        requires row { 0 < row }
        requires offered { BuildersFit (offer_of look.context.registry.now) (all_builders look.setting.now.builders.now) }
        ensures stretch { IfOk result (λ after. (k n m : ℕ) →
            row_on (given_of look.entry.context.given) (setting_of look.entry.setting.now) k (row_numbered look.entry.setting.now.in_force.value row) n m
            (on_non (operator_of operator.entry)) (stretch_of stretch self.old) ≡ on_hands (stretch_of after self.new)) }
    {
        let stretch = self.says_right(look, row, stretch)?;
        let stretch = self.says_left(look, row, stretch)?;
        let stretch = self.says_non(look, row, stretch)?;
        let stretch = self.after_joined(look, operator, stretch)?;
        Ok(stretch)
    }

    /// Applies the operator to its left and right operands, and puts its error before the stretch's.
    pub(crate) fn after_joined(
        &mut self,
        look: Look<'_, 'a>,
        operator: InfixRead<'a>,
        stretch: Stretch,
    ) -> Result<Stretch, AllocError>
        requires { BuildersFit (offer_of look.context.registry.now) (all_builders look.setting.now.builders.now) }
        ensures stretch { IfOk result (λ after. (G : language.Given) → stretch_of after self.new ≡
            after_read G (setting_of look.entry.setting.now) (operator_of operator.entry) (joined_from G (setting_of look.entry.setting.now) (operator_of operator.entry) (stretch_of stretch self.old))) }
    {
        join(look, operator, &mut self.forest)?;
        self.after_kept(true, operator.after, stretch)
    }

    /// At the end of a stretch, adds that no right-associative operator of the row is read, or that the one that is would be an ambiguous use.
    fn says_right(
        &mut self,
        look: Look<'_, 'a>,
        row: usize,
        stretch: Stretch,
    ) -> Result<Stretch, AllocError>
        requires look { IsLook look }
        requires place { stretch.place ≡ look.place }
        requires row { 0 < row }
        ensures stretch { IfOk result (λ after. stretch_of after self.new ≡
            says_right (given_of look.entry.context.given) (setting_of look.entry.setting.now) (row_numbered look.entry.setting.now.in_force.value row)
            (stretch_of stretch self.old)) }
        ensures place { IfOk result (λ after. after.place ≡ stretch.place) }
    {
        let read = look.read(row, Role::InfixRight);
        let any = look.setting.in_force.roles(row).right;
        let text = look.context.given.text;
        let said = ambiguous_said(Sided::Right, text, any, stretch.place, read);
        self.said_after(said, stretch)
    }

    /// As `says_right`, for left-associative operators.
    fn says_left(
        &mut self,
        look: Look<'_, 'a>,
        row: usize,
        stretch: Stretch,
    ) -> Result<Stretch, AllocError>
        requires look { IsLook look }
        requires place { stretch.place ≡ look.place }
        requires row { 0 < row }
        ensures stretch { IfOk result (λ after. stretch_of after self.new ≡
            says_left (given_of look.entry.context.given) (setting_of look.entry.setting.now) (row_numbered look.entry.setting.now.in_force.value row)
            (stretch_of stretch self.old)) }
        ensures place { IfOk result (λ after. after.place ≡ stretch.place) }
    {
        let read = look.read(row, Role::InfixLeft);
        let any = look.setting.in_force.roles(row).left;
        let text = look.context.given.text;
        let said = ambiguous_said(Sided::Left, text, any, stretch.place, read);
        self.said_after(said, stretch)
    }

    /// As `says_right`, for non-associative operators.
    fn says_non(
        &mut self,
        look: Look<'_, 'a>,
        row: usize,
        stretch: Stretch,
    ) -> Result<Stretch, AllocError>
        requires look { IsLook look }
        requires place { stretch.place ≡ look.place }
        requires row { 0 < row }
        ensures stretch { IfOk result (λ after. stretch_of after self.new ≡
            says_non (given_of look.entry.context.given) (setting_of look.entry.setting.now) (row_numbered look.entry.setting.now.in_force.value row)
            (stretch_of stretch self.old)) }
        ensures place { IfOk result (λ after. after.place ≡ stretch.place) }
    {
        let read = look.read(row, Role::InfixNone);
        let any = look.setting.in_force.roles(row).non;
        let text = look.context.given.text;
        let said = ambiguous_said(Sided::Neither, text, any, stretch.place, read);
        self.said_after(said, stretch)
    }
}

/// Applies the operator to its left and right operands.
pub(crate) fn join(
    look: Look<'_, '_>,
    operator: InfixRead<'_>,
    forest: &mut RunForest,
) -> Result<(), AllocError>
    requires { BuildersFit (offer_of look.context.registry.now) (all_builders look.setting.now.builders.now) }
    ensures { OnOk result (forest.new ≡ built_after look.entry.setting.now.builders.now.infix.shape (encode_utf8_all operator.entry.symbol.now)
        operator.entry.forest forest.old) }
{
    apply(
        look.context,
        &look.setting.builders.infix,
        operator.symbol,
        operator.forest,
        forest,
    )
}
