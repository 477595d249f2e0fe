//! The trail of a draft.

use crate::target::Pick;
use pg_grammar_form::{Decl, Role};
use pg_grammar_value::{AppliedOperator, AppliedOperators, Fixity, Trail, TrailItem};
use pg_table::Table;
use pg_text::Characters;
use std::alloc::{AllocError, Global};

/// The trail of these choices under the table. Fails where memory runs out.
pub fn trail_of(alloc: Global, table: &Table, picks: &[Pick]) -> Result<Trail, AllocError> {
    let mut trail = Trail::new(alloc);
    for pick in picks {
        trail.push(item_of(alloc, table, *pick)?)?;
    }
    Ok(trail)
}

fn item_of(alloc: Global, table: &Table, pick: Pick) -> Result<TrailItem, AllocError> {
    Ok(match pick {
        Pick::Alternative(number) => TrailItem::Alt(number),
        Pick::Rounds(count) => TrailItem::Rounds(count),
        Pick::Operator(None) => TrailItem::Ops(AppliedOperators::new(alloc, Vec::new(alloc))?),
        Pick::Operator(Some(number)) => TrailItem::Ops(operators_of(alloc, table, number)?),
    })
}

fn operators_of(
    alloc: Global,
    table: &Table,
    number: usize,
) -> Result<AppliedOperators, AllocError> {
    let mut operators = AppliedOperators::new(alloc, Vec::new(alloc))?;
    if let Some(declared) = table.operators().get(number) {
        operators.push(applied(alloc, declared)?)?;
    }
    Ok(operators)
}

fn applied(alloc: Global, declared: &Decl) -> Result<AppliedOperator, AllocError> {
    let fixity = match declared.role() {
        Role::InfixLeft | Role::InfixRight | Role::InfixNone => Fixity::Infix,
        Role::Prefix => Fixity::Prefix,
        Role::Postfix => Fixity::Postfix,
    };
    let symbol = Characters::new(Vec::from_slice(alloc, declared.symbol())?);
    Ok(AppliedOperator { fixity, symbol })
}
