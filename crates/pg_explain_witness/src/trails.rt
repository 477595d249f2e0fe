//! Whether two trails are the same.

ghost use Rattle.std.specs.Prelude.{◌≡◌, false};

use pg_grammar_value::{AppliedOperator, TrailItem};

/// Whether these items are the same.
pub(crate) fn are_same(one: &[TrailItem], other: &[TrailItem]) -> bool
    ensures { result ≡ false → one.now ≡ other.now → ⊥ }
{
    let mut rest = one;
    let mut others = other;
    while let Some((item, after)) = rest.split_first() {
        let Some((second, behind)) = others.split_first() else {
            return false;
        };
        if !same_item(item, second) {
            return false;
        }
        rest = after;
        others = behind;
    }
    others.is_empty()
}

pub(crate) fn same_item(one: &TrailItem, other: &TrailItem) -> bool
    ensures { result ≡ false → one.now ≡ other.now → ⊥ }
{
    match (one, other) {
        (TrailItem::Alt(a), TrailItem::Alt(b)) => *a == *b,
        (TrailItem::Rounds(a), TrailItem::Rounds(b)) => *a == *b,
        (TrailItem::Ops(a), TrailItem::Ops(b)) => same_operators(a.as_slice(), b.as_slice()),
        (TrailItem::Alt(_), TrailItem::Rounds(_) | TrailItem::Ops(_))
        | (TrailItem::Rounds(_), TrailItem::Alt(_) | TrailItem::Ops(_))
        | (TrailItem::Ops(_), TrailItem::Alt(_) | TrailItem::Rounds(_)) => false,
    }
}

fn same_operators(one: &[AppliedOperator], other: &[AppliedOperator]) -> bool
    ensures { result ≡ false → one.now ≡ other.now → ⊥ }
{
    let mut rest = one;
    let mut others = other;
    while let Some((operator, after)) = rest.split_first() {
        let Some((second, behind)) = others.split_first() else {
            return false;
        };
        if !same_operator(operator, second) {
            return false;
        }
        rest = after;
        others = behind;
    }
    others.is_empty()
}

fn same_operator(one: &AppliedOperator, other: &AppliedOperator) -> bool
    ensures { result ≡ false → one.now ≡ other.now → ⊥ }
{
    one.fixity == other.fixity && one.symbol.as_slice() == other.symbol.as_slice()
}
