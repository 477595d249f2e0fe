//! Turns a stretch into an operand of a level's row, and reads what follows it.

ghost use Rattle.std.specs.Prelude.{◌≡◌, ◌<◌, ℕ, Some, None, IfOk, OnOk};
ghost use Rattle.std.specs.Option.{option_copied};
ghost use Rattle.pg_expand.specs.Rows.{row_numbered};
ghost use Rattle.pg_grammar_form.specs.Contents.{all_builders};
ghost use Rattle.pg_pred.specs.Offer.{offer_of};
ghost use Rattle.pg_expand.specs.declared.rows.Row.{Row};
ghost use Rattle.pg_language.specs.Answers.{Given};
ghost use Rattle.pg_machine_lists.specs.declared.level.Stretch.{Stretch};
ghost use Rattle.pg_grammar_value.specs.Fits.{BuildersFit};
ghost use Rattle.pg_language_operators.specs.Standings.{read_of};
ghost use Rattle.pg_machine_lists.specs.TapeLevels.{from_entry, to_postfix, operand_of};
ghost use Rattle.pg_machine_lists.specs.ViewLevels.{given_of, setting_of, stretch_of, IsLook};

use crate::level::{Look, RowLevel, Stretch};
use crate::lists::Lists;
use crate::said::no_affix_said;
use crate::stretch::{apply, note_read};
use pg_grammar_form::Role;
use pg_grammar_value::Fixity;
use pg_language_operators::Read;
use std::alloc::AllocError;

impl<'a> Lists<'a> {
    /// An operand of a row, with its prefix and its postfix.
    #[tactic(auto, using(crate::proofs::RowSteps::operand_by))]
    pub(crate) fn operand_of(
        &mut self,
        look: Look<'_, 'a>,
        level: RowLevel<'a>,
        stretch: Stretch,
    ) -> Result<Stretch, AllocError>
        requires look { IsLook look }
        requires place { stretch.place ≡ look.place }
        requires row { 0 < level.row }
        requires offered { BuildersFit (offer_of look.context.registry.now) (all_builders look.setting.now.builders.now) }
        ensures stretch { IfOk result (λ after. stretch_of after self.new ≡
            operand_of (given_of look.entry.context.given) (setting_of look.entry.setting.now)
            (row_numbered look.entry.setting.now.in_force.value level.entry.row) (option_copied level.entry.prefix) level.entry.entry
            level.entry.forest (stretch_of stretch self.old)) }
    {
        let stretch = self.from_entry(look, level, stretch)?;
        match look.read(level.row, Role::Postfix) {
            Some(read) => {
                let stretch = self.with_postfix(look, level.forest, read)?;
                Ok(stretch)
            }
            None => {
                let stretch = self.without_postfix(look, level.row, stretch)?;
                Ok(stretch)
            }
        }
    }

    /// As `operand_of`, where no postfix is read: adds an error.
    fn without_postfix(
        &mut self,
        look: Look<'_, 'a>,
        row: usize,
        stretch: Stretch,
    ) -> Result<Stretch, AllocError>
        ensures stretch { IfOk result (λ after. (n : ℕ) → stretch_of after self.new ≡
            to_postfix (given_of look.entry.context.given) (setting_of look.entry.setting.now) (row_numbered look.entry.setting.now.in_force.value row) n
            (stretch_of stretch self.old) None) }
    {
        let any = look.setting.in_force.roles(row).postfix;
        let said = no_affix_said(look.context.given.text, any, stretch.place);
        self.said_after(said, stretch)
    }

    /// The operand from its start on, with its prefix if it has one.
    fn from_entry(
        &mut self,
        look: Look<'_, 'a>,
        level: RowLevel<'a>,
        stretch: Stretch,
    ) -> Result<Stretch, AllocError>
        requires { BuildersFit (offer_of look.context.registry.now) (all_builders look.setting.now.builders.now) }
        ensures stretch { IfOk result (λ after. (given : Given) → stretch_of after self.new ≡
            from_entry given (setting_of look.entry.setting.now) (option_copied level.entry.prefix) level.entry.entry level.entry.forest (stretch_of stretch self.old)) }
        ensures place { IfOk result (λ after. after.place ≡ stretch.place) }
    {
        match level.prefix {
            Some(symbol) => self.with_prefix(look, symbol, level, stretch),
            None => self.after_kept(false, level.entry, stretch),
        }
    }

    /// The operand with the prefix that was read.
    fn with_prefix(
        &mut self,
        look: Look<'_, 'a>,
        symbol: &'a [char],
        level: RowLevel<'a>,
        stretch: Stretch,
    ) -> Result<Stretch, AllocError>
        requires { BuildersFit (offer_of look.context.registry.now) (all_builders look.setting.now.builders.now) }
        ensures stretch { IfOk result (λ after. (given : Given) → stretch_of after self.new ≡
            from_entry given (setting_of look.entry.setting.now) (Some symbol.now) level.entry.entry level.entry.forest (stretch_of stretch self.old)) }
        ensures place { IfOk result (λ after. after.place ≡ stretch.place) }
    {
        let used = &look.setting.builders.prefix;
        apply(look.context, used, symbol, level.forest, &mut self.forest)?;
        self.after_kept(true, level.entry, stretch)
    }

    /// The operand with the postfix that is read.
    fn with_postfix(
        &mut self,
        look: Look<'_, 'a>,
        forest: usize,
        read: Read<'_, 'a>,
    ) -> Result<Stretch, AllocError>
        requires offered { BuildersFit (offer_of look.context.registry.now) (all_builders look.setting.now.builders.now) }
        requires symbol { read.symbol.now ≡ read.operator.now.symbol }
        ensures stretch { IfOk result (λ after. (given : Given) (row : Row) (stretch : Stretch) → stretch_of after self.new ≡
            to_postfix given (setting_of look.entry.setting.now) row forest (stretch_of stretch self.old) (Some (read_of read.entry))) }
    {
        let used = &look.setting.builders.postfix;
        apply(look.context, used, read.symbol, forest, &mut self.forest)?;
        note_read(
            look.context.alloc,
            &mut self.trail,
            look.setting.slot,
            Fixity::Postfix,
            read.symbol,
        )?;
        let error = self.no_messages_at(read.end);
        Ok(Stretch {
            consumed: true,
            place: read.end,
            error,
        })
    }
}
