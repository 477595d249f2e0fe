//! Starts as sets list them: each under the number of a word item, and in one order.
//!
//! The order is total, and a start is equal only to itself, so a list in this order has each start once.
ghost use Rattle.std.specs.Prelude.{◌≡◌, IfOk};
ghost use Rattle.std.proofs.Common.{rules};
ghost use Rattle.std.specs.Cmp.{eq_by_cmp_equiv, partial_equiv_from_equiv, partial_order_from_total};
ghost use Rattle.std.specs.Cmp.Lexicographic.{slice_cmp};
ghost use Rattle.std.specs.Cmp.Rules.{comparing};
ghost use Rattle.std.specs.Ordering.{as_partial_cmp, eq_by_cmp};
ghost use Rattle.pg_sets_own.specs.Listed.{kind_number, key_text, ranges_of, heads_of, rest_of, reserved_of, start_order, start_order_total, text_order};

use pg_start::{Start, StartKind};
use pg_text::Characters;
use std::alloc::{AllocError, Global};
use std::cmp::Ordering;

/// A start of a set.
#[derive(Debug, Drop)]
pub struct ListedStart {
    /// The start itself.
    pub start: Start,
    /// For a word start, the number of the first word item that reads just its words, or the number of word items if none does;
    /// 0 for every other start.
    pub word: usize,
}

impl ListedStart {
    /// An equal start in memory of its own.
    pub fn copy(&self, alloc: Global) -> Result<ListedStart, AllocError>
        ensures { IfOk result (λ copy. copy ≡ self.now) }
    {
        let word = self.word;
        let start = match self.start.view() {
            StartKind::Class(class) => Start::class(class)?,
            StartKind::Key(key, excluded) => Start::key(alloc, key.as_slice(), excluded)?,
            StartKind::Word(heads, rest, reserved) => { Start::word(heads, rest, reserved)? }
            StartKind::End => Start::end(),
        };
        Ok(ListedStart { start, word })
    }
}

impl PartialEq for ListedStart {
    ghost eq = { eq_by_cmp start_order };

    ghost laws = { partial_equiv_from_equiv (eq_by_cmp_equiv start_order_total) };

    fn eq(&self, other: &ListedStart) -> bool {
        order(self, other).is_eq()
    }
}

impl Eq for ListedStart {
    ghost laws = { eq_by_cmp_equiv start_order_total };
}

impl Ord for ListedStart {
    ghost cmp = { start_order };

    ghost total = { start_order_total };

    ghost matches_partial_cmp = { Prim.search (comparing, rules) };

    ghost matches_eq = { Prim.search (comparing, rules) };

    fn cmp(&self, other: &ListedStart) -> Ordering {
        order(self, other)
    }
}

impl PartialOrd for ListedStart {
    ghost partial_cmp = { as_partial_cmp start_order };

    ghost laws = { partial_order_from_total start_order_total };

    fn partial_cmp(&self, other: &ListedStart) -> Option<Ordering> {
        Some(self.cmp(other))
    }
}

/// Which of two starts stands first. Compares a part only where the parts before it are equal: classes and reserved texts may be long.
fn order(one: &ListedStart, other: &ListedStart) -> Ordering
    ensures { result ≡ start_order one.now other.now }
{
    let (a, b) = (one.start.view(), other.start.view());
    let keys = kind_number(a)
        .cmp(&kind_number(b))
        .then(key_text(a).cmp(key_text(b)));
    if keys.is_ne() {
        return keys;
    }
    let named = ranges_of(a)
        .cmp(ranges_of(b))
        .then(one.word.cmp(&other.word));
    if named.is_ne() {
        return named;
    }
    heads_of(a)
        .cmp(heads_of(b))
        .then(rest_of(a).cmp(rest_of(b)))
        .then(texts_order(reserved_of(a), reserved_of(b)))
}

fn kind_number(kind: &StartKind) -> usize
    ensures { result ≡ kind_number kind.now }
{
    match kind {
        StartKind::Class(_) => 0,
        StartKind::Key(_, _) => 1,
        StartKind::Word(_, _, _) => 2,
        StartKind::End => 3,
    }
}

fn key_text(kind: &StartKind) -> &[char]
    ensures { result.now ≡ key_text kind.now }
{
    match kind {
        StartKind::Key(text, _) => text.as_slice(),
        StartKind::Class(_) | StartKind::Word(_, _, _) | StartKind::End => &[],
    }
}

fn ranges_of(kind: &StartKind) -> &[(char, char)]
    ensures { result.now ≡ ranges_of kind.now }
{
    match kind {
        StartKind::Class(class) | StartKind::Key(_, class) => class.ranges(),
        StartKind::Word(_, _, _) | StartKind::End => &[],
    }
}

fn heads_of(kind: &StartKind) -> &[(char, char)]
    ensures { result.now ≡ heads_of kind.now }
{
    match kind {
        StartKind::Word(heads, _, _) => heads.ranges(),
        StartKind::Class(_) | StartKind::Key(_, _) | StartKind::End => &[],
    }
}

fn rest_of(kind: &StartKind) -> &[(char, char)]
    ensures { result.now ≡ rest_of kind.now }
{
    match kind {
        StartKind::Word(_, rest, _) => rest.ranges(),
        StartKind::Class(_) | StartKind::Key(_, _) | StartKind::End => &[],
    }
}

fn reserved_of(kind: &StartKind) -> &[Characters]
    ensures { result.now ≡ reserved_of kind.now }
{
    match kind {
        StartKind::Word(_, _, reserved) => reserved.as_slice(),
        StartKind::Class(_) | StartKind::Key(_, _) | StartKind::End => &[],
    }
}

/// Which of two lists of texts stands first, as words in a dictionary do.
pub(crate) fn texts_order(one: &[Characters], other: &[Characters]) -> Ordering
    ensures { result ≡ slice_cmp text_order one.now other.now }
{
    let (mut one, mut other) = (one, other);
    loop {
        match (one.split_first(), other.split_first()) {
            (None, None) => return Ordering::Equal,
            (None, Some(_)) => return Ordering::Less,
            (Some(_), None) => return Ordering::Greater,
            (Some((text, texts)), Some((next, others))) => {
                let order = text.as_slice().cmp(next.as_slice());
                if order.is_ne() {
                    return order;
                }
                one = texts;
                other = others;
            }
        }
    }
}
