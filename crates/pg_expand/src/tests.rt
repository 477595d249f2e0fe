//! What no contract says: rows worked out by hand, and that the call succeeds with ample memory.

ghost use Rattle.std.specs.Prelude.{◌<◌, ◌≤◌, length, IfOk};

use super::*;
use pg_grammar_form::{Decl, NodeId, Role};
use pg_table::Table;
use pg_text::{Characters, Texts};
use std::alloc::{AllocError, Global};
use std::test::Fail;

/// One character.
fn spelled(alloc: Global, c: char) -> Result<Characters, AllocError>
    ensures { IfOk result (λ characters. 0 < length characters) }
{
    let mut characters = Vec::new(alloc);
    characters.push(c)?;
    Ok(Characters::new(characters))
}

/// A declaration of an operator: its role, its precedence and its one character.
type Declared = (Role, u8, char);

/// The table with these declarations.
fn table_of(alloc: Global, declared: &[Declared]) -> Result<Table, Fail> {
    let mut decls = Vec::new(alloc);
    for (role, precedence, c) in declared {
        let precedence = if *precedence < 10 { *precedence } else { 0 };
        decls.push(Decl::new(*role, precedence, spelled(alloc, *c)?))?;
    }
    let reserved = Texts::new(alloc, Vec::new(alloc))?;
    Ok(Table::of_declarations(alloc, reserved, 64, decls.as_slice())?)
}

/// A text with the symbols of some operators after it.
fn with_symbols(mut text: String, operators: &Operators) -> Result<String, Fail> {
    for operator in operators.as_slice() {
        for c in operator.symbol() {
            text.push(*c)?;
        }
    }
    Ok(text)
}

/// The term's number and the rows. Each row shows the symbols of its operators that associate to the right, to the left and to neither side, of its prefixes
/// and of its postfixes.
fn shown(alloc: Global, rows: &Rows) -> Result<String, Fail> {
    let mut text = format!(in alloc; "{}", rows.term.index())?;
    for row in rows.rows.as_slice() {
        for operators in [&row.right, &row.left, &row.non, &row.prefix, &row.postfix] {
            text.push(' ')?;
            text = with_symbols(text, operators)?;
        }
        text.push(';')?;
    }
    Ok(text)
}

#[test]
fn rows_are_by_precedence_and_role(rt: HostRuntime) -> Result<(), Fail> {
    rows_derive_fitting_trees();
    one_tree_per_reading();
    one_tree_per_operators();
    let alloc = rt.alloc();
    let declared = [
        (Role::InfixLeft, 6, '+'),
        (Role::InfixNone, 4, '<'),
        (Role::InfixLeft, 6, '-'),
        (Role::InfixRight, 6, '^'),
        (Role::Prefix, 9, '~'),
        (Role::Postfix, 0, '?'),
        (Role::Postfix, 9, '!'),
        (Role::InfixNone, 4, '='),
        (Role::Prefix, 6, '-'),
    ];
    let table = table_of(alloc, &declared)?;
    let rows = expand(alloc, &table, NodeId::new(3))?;
    assert_eq!(rt;
        shown(alloc, &rows)?.as_str(),
        "3    ~ !; ^ +-  - ;   <=  ;     ?;"
    );
    assert_eq!(rt; rows.rows.as_slice().len(), table.rows());
    Ok(())
}

#[test]
fn a_table_without_operators_has_no_row(rt: HostRuntime) -> Result<(), Fail> {
    let alloc = rt.alloc();
    let table = table_of(alloc, &[])?;
    let rows = expand(alloc, &table, NodeId::new(0))?;
    assert_eq!(rt; shown(alloc, &rows)?.as_str(), "0");
    Ok(())
}

#[test]
fn operators_are_found_by_their_symbol(rt: HostRuntime) -> Result<(), Fail> {
    rows_and_lookups_agree();
    let alloc = rt.alloc();
    let declared = [
        (Role::InfixLeft, 6, '-'),
        (Role::InfixNone, 4, '<'),
        (Role::Prefix, 8, '-'),
        (Role::InfixLeft, 6, '+'),
    ];
    let lookup = Lookup::of(alloc, &table_of(alloc, &declared)?)?;
    let found = lookup.find(&['-']);
    assert_eq!(rt; found.len(), 2);
    assert!(rt; found[0].is_of(2, Role::InfixLeft));
    assert!(rt; found[1].is_of(1, Role::Prefix));
    assert!(rt; lookup.find(&['-', '-']).is_empty());
    Ok(())
}
