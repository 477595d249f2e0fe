//! Begins the rows of an expression, the loosest first, after which the term runs.

ghost use Rattle.std.specs.Prelude.{◌≡◌, ◌++◌, ◌<◌, Some, None, IfOk, IfSome, OnOk};
ghost use Rattle.std.specs.Option.{option_map};
ghost use Rattle.pg_expand.specs.Rows.{of_role, row_numbered};
ghost use Rattle.pg_language.specs.OperatorReads.{read_at};
ghost use Rattle.pg_language_operators.specs.Standings.{read_of};
ghost use Rattle.pg_machine_lists.specs.TapeLevels.{begun, row_begun, down, operand_down};
ghost use Rattle.pg_machine_lists.specs.ViewLevels.{begun_of, between_of, down_of, down_on, given_of, lists_of, preceding_of, setting_of, IsLook};

use crate::level::{Begun, Context, InfixRead, Level, Look, Preceding, RowLevel, Runs, Setting};
use crate::levels::Levels;
use crate::lists::Lists;
use crate::said::{no_affix_said, push_said};
use crate::stretch::note_read;
use pg_grammar_form::Role;
use pg_grammar_value::Fixity;
use pg_language_operators::Read;
use pg_message_tape::TapeError;
use std::alloc::AllocError;

impl<'a> Lists<'a> {
    /// Begins the rows with numbers from `rows` down, the loosest first, over these levels, and gives the place where the term runs. Each row reads a
    /// prefix, if one of its own stands there, and pushes its level; if it reads none, it reports that as Text.Parsec.Expr does. The
    /// operators item must be the grammar's.
    #[tactic(auto, using(crate::proofs::LevelSteps::down_onward))]
    pub fn down(
        &mut self,
        context: Context<'_, 'a>,
        setting: &Setting<'a>,
        levels: &mut Levels<'a>,
        rows: usize,
        place: usize,
    ) -> Result<usize, AllocError>
        requires { context.given.grammar.now.operators ≡ Some setting.now.item.now }
        ensures down { IfOk result (λ next. down_of next levels.new self.new ≡
            down (given_of context.entry.given) (setting_of setting.now) rows place levels.old (lists_of self.old)) }
    {
        let mut place = place;
        let mut row = rows;
        let mut look = look_at(context, setting, place);
        while row > 0 {
            look = look_on(look, place);
            place = self.begin_row(look, levels, row, Preceding::Nothing)?;
            row -= 1;
        }
        Ok(place)
    }

    /// Begins an operand of a row, after what precedes it, and gives the place where the term runs.
    #[tactic(auto, using(crate::proofs::LevelSteps::operand_onward))]
    pub(crate) fn operand_down(
        &mut self,
        context: Context<'_, 'a>,
        setting: &Setting<'a>,
        levels: &mut Levels<'a>,
        runs: Runs<'a>,
    ) -> Result<usize, AllocError>
        requires { context.given.grammar.now.operators ≡ Some setting.now.item.now }
        ensures down { IfOk result (λ next. down_of next levels.new self.new ≡
            operand_down (given_of context.entry.given) (setting_of setting.now) runs.entry.tighter runs.entry.place (preceding_of runs.entry.before)
            (between_of runs.entry.between ++ levels.old) (lists_of self.old)) }
    {
        push_between(levels, runs.between)?;
        let row = runs.tighter.checked_add(1).ok_or(AllocError)?;
        let look = look_at(context, setting, runs.place);
        let place = self.begin_row(look, levels, row, runs.before)?;
        self.down(context, setting, levels, runs.tighter, place)
    }

    /// Begins a row, after what precedes its operand, over these levels, and gives the place after its prefix.
    fn begin_row(
        &mut self,
        look: Look<'_, 'a>,
        levels: &mut Levels<'a>,
        row: usize,
        before: Preceding<'a>,
    ) -> Result<usize, AllocError>
        requires look { IsLook look }
        requires row { 0 < row }
        ensures begun { IfOk result (λ next. down_of next levels.new self.new ≡
            down_on (row_begun (given_of look.entry.context.given) (setting_of look.entry.setting.now) row look.entry.place (preceding_of before.entry) (lists_of self.old))
            levels.old) }
    {
        let begun = self.row_begun(look, row, before)?;
        levels.push(begun.level)?;
        Ok(begun.place)
    }

    /// The level of a row that begins, and the place after its prefix.
    #[tactic(auto, using(crate::proofs::RowSteps::begun_by))]
    fn row_begun(
        &mut self,
        look: Look<'_, 'a>,
        row: usize,
        before: Preceding<'a>,
    ) -> Result<Begun<'a>, AllocError>
        requires look { IsLook look }
        requires row { 0 < row }
        ensures begun { IfOk result (λ b. begun_of b self.new ≡
            row_begun (given_of look.entry.context.given) (setting_of look.entry.setting.now) row look.entry.place (preceding_of before.entry) (lists_of self.old)) }
    {
        match look.read(row, Role::Prefix) {
            Some(read) => self.begun_with(look, row, before, read),
            None => self.begun_without(look, row, before),
        }
    }

    /// As `row_begun`, where no prefix is read: pushes an error.
    fn begun_without(
        &mut self,
        look: Look<'_, 'a>,
        row: usize,
        before: Preceding<'a>,
    ) -> Result<Begun<'a>, AllocError>
        ensures begun { IfOk result (λ b. begun_of b self.new ≡
            begun (given_of look.entry.context.given) (setting_of look.entry.setting.now) row look.entry.place (preceding_of before.entry) (lists_of self.old)
            (row_numbered look.entry.setting.now.in_force.value row) None) }
    {
        let messages = self.messages.len();
        let any = look.setting.in_force.roles(row).prefix;
        push_said(
            &mut self.messages,
            no_affix_said(look.context.given.text, any, look.place),
        )?;
        let entry = self.messages.kept(TapeError {
            place: look.place,
            from: messages,
        });
        let level = Level::Row(RowLevel {
            row,
            prefix: None,
            entry,
            forest: self.forest.len(),
            messages,
            before,
        });
        Ok(Begun {
            place: look.place,
            level,
        })
    }

    /// As `row_begun`, where this prefix is read: notes it in the trail.
    fn begun_with(
        &mut self,
        look: Look<'_, 'a>,
        row: usize,
        before: Preceding<'a>,
        read: Read<'_, 'a>,
    ) -> Result<Begun<'a>, AllocError>
        requires { read.symbol.now ≡ read.operator.now.symbol }
        ensures begun { IfOk result (λ b. begun_of b self.new ≡
            begun (given_of look.entry.context.given) (setting_of look.entry.setting.now) row look.entry.place (preceding_of before.entry) (lists_of self.old)
            (row_numbered look.entry.setting.now.in_force.value row) (Some (read_of read.entry))) }
    {
        note_read(
            look.context.alloc,
            &mut self.trail,
            look.setting.slot,
            Fixity::Prefix,
            read.symbol,
        )?;
        let entry = self.messages.kept(self.no_messages_at(read.end));
        let level = Level::Row(RowLevel {
            row,
            prefix: Some(read.symbol),
            entry,
            forest: self.forest.len(),
            messages: self.messages.len(),
            before,
        });
        Ok(Begun {
            place: read.end,
            level,
        })
    }
}

impl<'o, 'a> Look<'o, 'a> {
    /// The operator of this role that the row reads at the place, if any.
    pub(crate) fn read(&self, row: usize, role: Role) -> Option<Read<'o, 'a>>
        requires look { IsLook self.now }
        requires row { 0 < row }
        ensures read { option_map read_of result ≡ read_at self.now.context.given.grammar.now self.now.context.given.text.now self.now.setting.now.item.now
            (of_role role (row_numbered self.now.setting.now.in_force.value row)) self.now.place }
        ensures symbol { IfSome result (λ r. r.symbol.now ≡ r.operator.now.symbol) }
    {
        self.standing.read(row, role)
    }
}

/// What stands at the place, for the rows.
pub(crate) fn look_at<'o, 'a>(
    context: Context<'o, 'a>,
    setting: &'o Setting<'a>,
    place: usize,
) -> Look<'o, 'a>
    requires { context.given.grammar.now.operators ≡ Some setting.now.item.now }
    ensures look { IsLook result }
    ensures context { result.context ≡ context.entry }
    ensures setting { result.setting.now ≡ setting.now }
    ensures place { result.place ≡ place }
{
    let given = context.given;
    let standing = setting
        .in_force
        .standing(given.grammar, given.text, setting.item, place);
    Look {
        context,
        setting,
        place,
        standing,
    }
}

/// As `look_at`, but keeps `look` if it is at the same place.
pub(crate) fn look_on<'o, 'a>(look: Look<'o, 'a>, place: usize) -> Look<'o, 'a>
    requires look { IsLook look }
    requires item { look.context.given.grammar.now.operators ≡ Some look.setting.now.item.now }
    ensures look { IsLook result }
    ensures context { result.context ≡ look.entry.context }
    ensures setting { result.setting.now ≡ look.entry.setting.now }
    ensures place { result.place ≡ place }
{
    if look.place == place {
        return look;
    }
    look_at(look.context, look.setting, place)
}

/// Pushes the level that waits for the right side of an operator, if there is one.
fn push_between<'a>(
    levels: &mut Levels<'a>,
    between: Option<InfixRead<'a>>,
) -> Result<(), AllocError>
    ensures { OnOk result (levels.new ≡ between_of between.entry ++ levels.old) }
{
    if let Some(operator) = between {
        levels.push(Level::RightSide(operator))?;
    }
    Ok(())
}
