//! The levels of an expression, pushed and popped at the inner end.
//!
//! Rows that began together are kept as one ([`Together`]), and the innermost ones are kept apart from the list. So an expression with
//! no waiting rows but its own has an empty list, which allocates no memory.

ghost use Rattle.std.specs.Prelude.{◌≡◌, ◌∷◌, [], List, IfSome, IfNone, OnOk};
ghost use Rattle.pg_machine_lists.specs.TapeLevels.{OnLevel};
ghost use Rattle.pg_machine_lists.specs.ViewLevels.{all_on, level_of, levels_of, row_level_of, stored_on, tightest_on};

use crate::level::{InfixRead, Level, RowLevel};
use crate::together::{Together, alone, joined, tightest, without_tightest};
use std::alloc::{AllocError, Global};
use std::marker::Model;

/// A level, or the levels of all rows that began together.
#[derive(Clone, Copy)]
pub enum Stored<'a> {
    Row(RowLevel<'a>),
    RightSide(InfixRead<'a>),
    Rows(Together),
}

/// A popped level, and the rows that began together with its row.
#[derive(Clone, Copy)]
pub struct Taken<'a> {
    pub level: Level<'a>,
    pub rest: Option<Together>,
}

/// Levels. Contracts see them as their list, the innermost first.
#[derive(Drop)]
pub struct Levels<'a> {
    /// All levels but the innermost rows, with the inner ones last.
    stored: Vec<Stored<'a>>,
    /// The innermost ones, if they are rows that began together.
    innermost: Option<Together>,
}

impl<'a> Model for Levels<'a> {
    ghost use Rattle.std.specs.Prelude.{List};
    ghost use Rattle.pg_machine_lists.specs.TapeLevels.{OnLevel};
    ghost use Rattle.pg_machine_lists.specs.ViewLevels.{all_on, levels_of};

    ghost Value = { List OnLevel };

    ghost view = { λ l. all_on l.innermost (levels_of l.stored.items) };
}

impl<'a> Levels<'a> {
    /// No levels. It allocates no memory.
    pub fn new(alloc: Global) -> Levels<'a>
        ensures { result ≡ [] }
    {
        Levels {
            stored: Vec::new(alloc),
            innermost: None,
        }
    }

    /// Pushes a level.
    pub(crate) fn push(&mut self, level: Level<'a>) -> Result<(), AllocError>
        ensures { OnOk result (self.new ≡ level_of level.entry ∷ self.old) }
    {
        match level {
            Level::Row(row) => self.push_row(row),
            Level::RightSide(operator) => self.push_apart(Stored::RightSide(operator)),
        }
    }

    /// Pushes a row's level.
    fn push_row(&mut self, row: RowLevel<'a>) -> Result<(), AllocError>
        ensures { OnOk result (self.new ≡ row_level_of row.entry ∷ self.old) }
    {
        match alone(row) {
            Some(one) => self.push_one(one),
            None => self.push_apart(Stored::Row(row)),
        }
    }

    /// Pushes a row that may have begun together with the innermost ones.
    fn push_one(&mut self, one: Together) -> Result<(), AllocError>
        requires { one.looser ≡ 0 }
        ensures { OnOk result (self.new ≡ tightest_on one ∷ self.old) }
    {
        match joined(self.innermost, one) {
            Some(rows) => self.innermost = Some(rows),
            None => {
                put_away(&mut self.stored, self.innermost)?;
                self.innermost = Some(one);
            }
        }
        Ok(())
    }

    /// Pushes a level that didn't begin together with other rows.
    fn push_apart(&mut self, level: Stored<'a>) -> Result<(), AllocError>
        ensures { OnOk result (self.new ≡ stored_on level.entry self.old) }
    {
        put_away(&mut self.stored, self.innermost)?;
        self.innermost = None;
        put(&mut self.stored, level)
    }

    /// Pops the innermost level, if there is one. It allocates no memory.
    pub(crate) fn pop(&mut self) -> Option<Level<'a>>
        ensures some { IfSome result (λ level. self.old ≡ level_of level ∷ self.new) }
        ensures none { IfNone result (self.old ≡ []) }
    {
        let stored = take_off(&mut self.stored, self.innermost)?;
        let taken = split(stored);
        self.innermost = taken.rest;
        Some(taken.level)
    }
}

/// Moves the innermost rows to the list of the other levels.
fn put_away<'a>(stored: &mut Vec<Stored<'a>>, innermost: Option<Together>) -> Result<(), AllocError>
    ensures { OnOk result (levels_of stored.new.items ≡ all_on innermost (levels_of stored.old.items)) }
{
    if let Some(rows) = innermost {
        put(stored, Stored::Rows(rows))?;
    }
    Ok(())
}

/// Appends a level to the list. Its capacity grows one by one for the first two, since most nested expressions have no
/// more.
#[tactic(auto, using(crate::proofs::LevelStack::level_stored))]
fn put<'a>(stored: &mut Vec<Stored<'a>>, level: Stored<'a>) -> Result<(), AllocError>
    ensures { OnOk result (levels_of stored.new.items ≡ stored_on level.entry (levels_of stored.old.items)) }
{
    if stored.len() < 2 {
        stored.reserve_exact(1)?;
    }
    stored.push(level)?;
    Ok(())
}

/// Takes the innermost rows, or else the last of the other levels.
#[tactic(auto, using(crate::proofs::LevelStack::level_stored))]
fn take_off<'a>(stored: &mut Vec<Stored<'a>>, innermost: Option<Together>) -> Option<Stored<'a>>
    ensures some { IfSome result (λ last. all_on innermost (levels_of stored.old.items) ≡ stored_on last (levels_of stored.new.items)) }
    ensures none { IfNone result (all_on innermost (levels_of stored.old.items) ≡ []) }
{
    match innermost {
        Some(rows) => Some(Stored::Rows(rows)),
        None => stored.pop(),
    }
}

/// The innermost level of these, and the others.
fn split(stored: Stored<'_>) -> Taken<'_>
    ensures { (below : List OnLevel) → stored_on stored.entry below ≡ level_of result.level ∷ all_on result.rest below }
{
    match stored {
        Stored::Row(row) => Taken {
            level: Level::Row(row),
            rest: None,
        },
        Stored::RightSide(operator) => Taken {
            level: Level::RightSide(operator),
            rest: None,
        },
        Stored::Rows(rows) => Taken {
            level: Level::Row(tightest(rows)),
            rest: without_tightest(rows),
        },
    }
}
