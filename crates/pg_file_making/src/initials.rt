//! The table of a grammar's initial operators, each admitted by those above it, and the first that isn't admitted.
//!
//! The crate of operator tables decides: for the whole grammar at the end, and for each operator when its item is read, so that the place of the first that
//! isn't admitted is known.

ghost use Rattle.std.specs.Prelude.{◌≡◌, IfOk, IsErrOf};
ghost use Rattle.pg_table.specs.Tables.{initial, whole, ComesFrom};
ghost use Rattle.pg_file_making.specs.Spells.{HasInitialTable};

use crate::handing::{declaration, texts};
use crate::name_fault::{NameFault, NameFaultKind};
use crate::scope::fault;
use pg_file_items::Item;
use pg_file_meaning::MakingError;
use pg_grammar_form::OPERATOR_LIMIT;
use pg_grammar_value::Grammar;
use pg_table::{InitialFault, Table};
use pg_text::Characters;
use std::alloc::{AllocError, Global};

/// The initial table of a grammar. Refused if it has none.
pub fn initial_table(alloc: Global, grammar: &Grammar) -> Result<Table, MakingError>
    ensures ok { IfOk result (λ table. initial grammar.now ≡ whole table) }
    ensures comes { IfOk result (ComesFrom grammar.now) }
    ensures refused { IsErrOf result MakingError.Refused → HasInitialTable grammar.now → ⊥ }
{
    match Table::of(alloc, grammar) {
        Ok(table) => Ok(table),
        Err(InitialFault::NotAdmitted { .. }) => Err(MakingError::Refused),
        Err(InitialFault::Memory) => Err(MakingError::Memory),
    }
}

/// The table of the first operators item, if there is one, without initial operators.
pub fn table_without_initials(alloc: Global, items: &[Item]) -> Result<Option<Table>, AllocError> {
    for item in items {
        if let Item::Operators { reserved, most, .. } = item {
            let most = most.unwrap_or(OPERATOR_LIMIT);
            return Ok(Some(table_with(alloc, reserved.as_slice(), most)?));
        }
    }
    Ok(None)
}

/// The empty table in which these symbols are reserved and which may hold `most` operators, at most 64.
fn table_with(alloc: Global, reserved: &[Characters], most: usize) -> Result<Table, AllocError> {
    let reserved = texts(alloc, reserved)?;
    match Table::of_declarations(alloc, reserved, most.min(OPERATOR_LIMIT), &[]) {
        Ok(table) => Ok(table),
        Err(_) => Err(AllocError),
    }
}

/// The fault of an initial operator: there is no operators item, or the operators above don't admit it. If there is no fault, the operator is added to the
/// table.
pub fn initial_fault(
    alloc: Global,
    table: &mut Option<Table>,
    item: &Item,
) -> Result<Option<NameFault>, AllocError> {
    let Item::Table {
        role,
        precedence,
        symbol,
        place,
        symbol_place,
    } = item
    else {
        return Ok(None);
    };
    let Some(table) = table else {
        return Ok(fault(NameFaultKind::Unknown, *place));
    };
    let Some(declaration) = declaration(alloc, *role, *precedence, symbol)? else {
        return Ok(None);
    };
    if let Err(reason) = table.admit(&declaration) {
        return Ok(fault(NameFaultKind::NotAdmitted(reason), *symbol_place));
    }
    table.extend(declaration)?;
    Ok(None)
}
