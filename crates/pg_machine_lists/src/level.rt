//! The levels that wait in an expression while its term runs: one for each row between the expression and the term.
//!
//! A level stands for one call of the parser that Text.Parsec.Expr's `buildExpressionParser` makes for a row, at the point where
//! that call waits for its operand. The rows are those of the table at the expression's start. Trees, operators and messages lie
//! on the lists, so a level keeps only how long these were; its symbols lie in the text. Places are counted in
//! characters.

use crate::levels::Levels;
use pg_grammar_form::{NodeId, OperatorBuilders, OperatorsItem};
use pg_grammar_value::Grammar;
use pg_language::Reading;
use pg_language_operators::{InForce, Read, Standing};
use pg_message_tape::{KeptError, Sided, TapeError};
use pg_pred::Registry;
use pg_text::Text;
use std::alloc::Global;
use std::rc::Rc;

/// The input of a run: a grammar and a text, in a reading of choice.
#[derive(Clone, Copy)]
pub struct Given<'a> {
    pub reading: Reading,
    pub grammar: &'a Grammar,
    pub text: &'a Text,
}

/// What stays the same during a run, handed on to each of its steps.
#[derive(Clone, Copy)]
pub struct Context<'r, 'a> {
    pub alloc: Global,
    /// The predicates and the builders that the grammar names.
    pub registry: &'r Registry,
    pub given: Given<'a>,
}

/// An infix operator that was read, whose right operand runs.
#[derive(Clone, Copy)]
pub struct InfixRead<'a> {
    pub symbol: &'a [char],
    /// How many trees came before those of its left operand.
    pub forest: usize,
    /// The error without messages after it.
    pub after: KeptError,
}

/// What precedes a running operand of a row.
#[derive(Clone, Copy)]
pub enum Preceding<'a> {
    Nothing,
    Right(InfixRead<'a>),
    Left(InfixRead<'a>),
    Non(InfixRead<'a>),
}

/// The level of a row whose operand runs.
#[derive(Clone, Copy)]
pub struct RowLevel<'a> {
    /// The number of the row, from 1, the tightest.
    pub row: usize,
    /// The prefix before the operand, if one was read.
    pub prefix: Option<&'a [char]>,
    /// The error from the operand's start.
    pub entry: KeptError,
    /// How many trees came before those of the operand.
    pub forest: usize,
    /// How many messages came before the operand.
    pub messages: usize,
    pub before: Preceding<'a>,
}

/// A level: it waits for an outcome in an expression.
#[derive(Clone, Copy)]
pub enum Level<'a> {
    Row(RowLevel<'a>),
    /// The right side of a right-associative operator runs.
    RightSide(InfixRead<'a>),
}

/// The parts of an expression that don't change while it runs.
#[derive(Drop)]
pub struct Setting<'a> {
    pub item: &'a OperatorsItem,
    pub builders: &'a OperatorBuilders,
    pub term: NodeId,
    /// The operators of the table at its start.
    pub in_force: Rc<InForce>,
    /// The index of its item in the trail.
    pub slot: usize,
}

/// The frame of an expression whose term runs. The innermost of its levels is that of the tightest row that has begun.
#[derive(Drop)]
pub struct ExpressionFrame<'a> {
    pub setting: Setting<'a>,
    pub levels: Levels<'a>,
}

/// A successful stretch of an expression: whether it consumed, the place after it, and its error. Its trees and messages are
/// the last on the lists.
#[derive(Clone, Copy)]
pub struct Stretch {
    pub consumed: bool,
    pub place: usize,
    pub error: TapeError,
}

/// A row that has begun: the place after its prefix, and its waiting level.
#[derive(Clone, Copy)]
pub struct Begun<'a> {
    pub place: usize,
    pub level: Level<'a>,
}

/// An operand of a row to run from a place, after what precedes it.
#[derive(Clone, Copy)]
pub struct Runs<'a> {
    /// The number of the next tighter row, or 0.
    pub tighter: usize,
    pub place: usize,
    pub before: Preceding<'a>,
    /// The operator whose right side this operand begins, if there is one.
    pub between: Option<InfixRead<'a>>,
}

/// An infix operator that follows an operand of a row.
#[derive(Clone, Copy)]
pub struct Following<'o, 'a> {
    pub read: Read<'o, 'a>,
    pub side: Sided,
    /// How many trees come before those of its left operand.
    pub forest: usize,
    /// How many messages are kept after it.
    pub messages: usize,
}

/// What a level turns a stretch into: another stretch, or an operand to run.
#[derive(Clone, Copy)]
pub enum Followed<'a> {
    Hands(Stretch),
    Runs(Runs<'a>),
}

/// The failure of levels whose term failed: whether they consumed, and their error, whose messages are the last on the lists.
#[derive(Clone, Copy)]
pub struct Failure {
    pub consumed: bool,
    pub error: TapeError,
}

/// What stands at a place of the text, where the rows of an expression look for their operators.
#[derive(Clone, Copy)]
pub struct Look<'o, 'a> {
    pub context: Context<'o, 'a>,
    pub setting: &'o Setting<'a>,
    pub place: usize,
    pub standing: Standing<'o, 'a>,
}

/// What all levels turn a stretch into: the stretch of the whole expression, or a place where its term runs again over the levels
/// that are left.
#[derive(Clone, Copy)]
pub enum Climbed {
    Ended(Stretch),
    Again(usize),
}
