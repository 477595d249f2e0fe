//! Rows of an expression that began together: at one place, with nothing read between them.
//!
//! They differ only in their numbers and in how many messages came before each, so one record stands for all of them. So the memory of
//! an expression whose term runs doesn't grow with the rows of its table.

ghost use Rattle.std.specs.Prelude.{◌≡◌, ◌∷◌, ◌-◌, List, None, IsTrue, IfSome};
ghost use Rattle.std.specs.Option.{option_copied};
ghost use Rattle.pg_machine_lists.specs.TapeLevels.{OnLevel, on_nothing};
ghost use Rattle.pg_machine_lists.specs.ViewLevels.{all_on, fewer_on, preceding_of, row_level_of, tightest_on, together_on};

use crate::level::{Preceding, RowLevel};
use pg_message_tape::KeptError;

/// Rows that began together, with no prefix, nothing before their operands and equally many messages each.
#[derive(Clone, Copy)]
pub struct Together {
    /// The number of the loosest row, which began first.
    pub loosest: usize,
    /// How many of the rows are looser than the tightest.
    pub looser: usize,
    /// The place where they began, in characters.
    pub place: usize,
    /// How many trees came before.
    pub forest: usize,
    /// How many messages there were before the tightest row began.
    pub from: usize,
    /// How many messages there were after it began.
    pub upto: usize,
}

/// The row as a group of its own, if nothing of it has been read yet.
#[tactic(auto, using(crate::proofs::TogetherRows::is_alone))]
pub(crate) fn alone(level: RowLevel<'_>) -> Option<Together>
    ensures row { IfSome result (λ one. tightest_on one ≡ row_level_of level.entry) }
    ensures one { IfSome result (λ one. one.looser ≡ 0) }
{
    if !is_bare(level.prefix, level.before) || level.entry.from != level.messages {
        return None;
    }
    Some(Together {
        loosest: level.row,
        looser: 0,
        place: level.entry.place,
        forest: level.forest,
        from: level.messages,
        upto: level.entry.upto,
    })
}

/// Whether an operand has no prefix, and nothing precedes it.
fn is_bare(prefix: Option<&[char]>, before: Preceding<'_>) -> bool
    ensures prefix { IsTrue result → option_copied prefix.entry ≡ None }
    ensures before { IsTrue result → preceding_of before.entry ≡ on_nothing }
{
    match prefix {
        Some(_) => false,
        None => match before {
            Preceding::Nothing => true,
            Preceding::Right(_) | Preceding::Left(_) | Preceding::Non(_) => false,
        },
    }
}

/// The rows with one more, if they began together.
#[tactic(auto, using(crate::proofs::TogetherRows::only_one))]
pub(crate) fn joined(rows: Option<Together>, one: Together) -> Option<Together>
    requires { one.looser ≡ 0 }
    ensures { IfSome result (λ all. (below : List OnLevel) → together_on all below ≡ tightest_on one ∷ all_on rows below) }
{
    match rows {
        Some(rows) => with_tighter(rows, one),
        None => Some(one),
    }
}

/// The rows with a tighter one, if it began together with them.
#[tactic(auto, using(crate::proofs::TogetherRows::one_more))]
fn with_tighter(rows: Together, one: Together) -> Option<Together>
    requires { one.looser ≡ 0 }
    ensures { IfSome result (λ all. (below : List OnLevel) → together_on all below ≡ tightest_on one ∷ together_on rows below) }
{
    let looser = rows.looser.checked_add(1)?;
    if one.loosest != rows.loosest.saturating_sub(looser)
        || one.place != rows.place
        || one.forest != rows.forest
        || one.from != rows.upto
        || before_last(one) != rows.from
    {
        return None;
    }
    Some(Together {
        loosest: rows.loosest,
        looser,
        place: rows.place,
        forest: rows.forest,
        from: one.from,
        upto: one.upto,
    })
}

/// How many messages there were before the next looser row began: each row added equally many.
fn before_last(rows: Together) -> usize
    ensures { result ≡ rows.from - (rows.upto - rows.from) }
{
    let said = rows.upto.saturating_sub(rows.from);
    rows.from.saturating_sub(said)
}

/// The level of the tightest of the rows.
pub(crate) fn tightest<'a>(rows: Together) -> RowLevel<'a>
    ensures { row_level_of result ≡ tightest_on rows }
{
    RowLevel {
        row: rows.loosest.saturating_sub(rows.looser),
        prefix: None,
        entry: KeptError {
            place: rows.place,
            from: rows.from,
            upto: rows.upto,
        },
        forest: rows.forest,
        messages: rows.from,
        before: Preceding::Nothing,
    }
}

/// The rows without the tightest of them, if any are left.
#[tactic(auto, using(crate::proofs::TogetherRows::one_less, crate::proofs::TogetherRows::none_left))]
pub(crate) fn without_tightest(rows: Together) -> Option<Together>
    ensures { (below : List OnLevel) → all_on result below ≡ fewer_on rows.loosest rows.place rows.forest rows.from rows.upto rows.looser below }
{
    match rows.looser.checked_sub(1) {
        Some(looser) => Some(Together {
            loosest: rows.loosest,
            looser,
            place: rows.place,
            forest: rows.forest,
            from: before_last(rows),
            upto: rows.from,
        }),
        None => None,
    }
}
