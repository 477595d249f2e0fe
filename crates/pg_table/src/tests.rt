//! What no contract says: which of several faults is reported, worked out by hand, the printed text of the faults, and that each call succeeds with ample
//! memory.

ghost use Rattle.std.specs.Prelude.{◌<◌, length, IfOk};

use super::*;
use pg_grammar_form::{Decl, Role};
use pg_text::{Characters, Texts};
use std::alloc::{AllocError, Global};
use std::test::Fail;

/// A symbol: this many times `x`, and then a character.
type Symbol = (usize, char);

/// The characters of a symbol.
fn spelled(alloc: Global, symbol: Symbol) -> Result<Characters, AllocError>
    ensures { IfOk result (λ characters. 0 < length characters) }
{
    let mut characters = Vec::new(alloc);
    for _ in 0..symbol.0 {
        characters.push('x')?;
    }
    characters.push(symbol.1)?;
    Ok(Characters::new(characters))
}

/// A declaration of a symbol, with precedence 6.
fn declared(alloc: Global, role: Role, symbol: Symbol) -> Result<Decl, AllocError> {
    Ok(Decl::new(role, 6, spelled(alloc, symbol)?))
}

/// The table with these declarations, if each is admitted. It may hold `most` operators; `=`, and `=` after 16 times `x`, are reserved.
fn initial_table(
    alloc: Global,
    most: usize,
    initials: &[(Role, Symbol)],
) -> Result<Result<Table, InitialFault>, Fail> {
    let reserved = vec![in alloc; spelled(alloc, (0, '='))?, spelled(alloc, (16, '='))?]?;
    let mut decls = Vec::new(alloc);
    for (role, symbol) in initials {
        decls.push(declared(alloc, *role, *symbol)?)?;
    }
    let most = most.min(64);
    let reserved = Texts::new(alloc, reserved)?;
    Ok(Table::of_declarations(alloc, reserved, most, decls.as_slice()))
}

/// The table with these declarations.
fn table_of(alloc: Global, most: usize, initials: &[(Role, Symbol)]) -> Result<Table, Fail> {
    Ok(initial_table(alloc, most, initials)??)
}

/// Why there is no table with these declarations, with the index of the declaration.
fn refusal(alloc: Global, most: usize, initials: &[(Role, Symbol)]) -> Result<String, Fail> {
    match initial_table(alloc, most, initials)? {
        Ok(_) => Ok(String::from_str(alloc, "none")?),
        Err(InitialFault::NotAdmitted { index, fault }) => {
            let fault = InitialFault::NotAdmitted { index, fault };
            Ok(format!(in alloc; "{index}: {fault}")?)
        }
        Err(InitialFault::Memory) => Ok(String::from_str(alloc, "memory")?),
    }
}

/// The table's answer for one operator: that it is admitted, or the printed fault.
fn admission(alloc: Global, table: &Table, role: Role, symbol: Symbol) -> Result<String, Fail> {
    let decl = declared(alloc, role, symbol)?;
    match table.admit(&decl) {
        Ok(()) => Ok(String::from_str(alloc, "ok")?),
        Err(fault) => Ok(format!(in alloc; "{fault}")?),
    }
}

/// The table's answer for each of these.
fn admissions(alloc: Global, table: &Table, operators: &[(Role, Symbol)]) -> Result<String, Fail> {
    let mut text = String::new(alloc);
    for (role, symbol) in operators {
        let found = admission(alloc, table, *role, *symbol)?;
        text = format!(in alloc; "{text} {}", found.as_str())?;
    }
    Ok(text)
}

/// The symbols of a table in order, each with a blank after it.
fn symbols(alloc: Global, table: &Table) -> Result<String, Fail> {
    let mut text = String::new(alloc);
    for operator in table.operators() {
        for c in operator.symbol() {
            text.push(*c)?;
        }
        text.push(' ')?;
    }
    Ok(text)
}

/// The symbols of the table with one operator more, or why there is no such table.
fn extension(alloc: Global, table: &Table, decl: &Decl) -> Result<String, Fail> {
    match table.extended_copy(alloc, decl) {
        Ok(extended) => symbols(alloc, &extended),
        Err(fault) => Ok(format!(in alloc; "{fault}")?),
    }
}

/// The operators that the tables of the tests begin with.
const INITIALS: [(Role, Symbol); 3] = [
    (Role::Prefix, (0, '-')),
    (Role::InfixLeft, (0, '+')),
    (Role::Postfix, (1, '!')),
];

#[test]
fn tells_symbols_that_are_too_long_or_reserved(rt: HostRuntime) -> Result<(), Fail> {
    let alloc = rt.alloc();
    let asked = [
        (Role::InfixRight, (15, 'y')),
        (Role::InfixRight, (16, 'y')),
        (Role::Prefix, (16, '=')),
        (Role::Prefix, (0, '=')),
        (Role::Postfix, (0, '=')),
        (Role::Prefix, (1, '=')),
    ];
    let with_room = table_of(alloc, 4, &INITIALS)?;
    let found = admissions(alloc, &with_room, &asked)?;
    assert_eq!(rt; found.as_str(), " ok A1 A1 A2 A2 ok");
    let full = table_of(alloc, 3, &INITIALS)?;
    let found = admissions(alloc, &full, &asked)?;
    assert_eq!(rt; found.as_str(), " A5 A1 A1 A2 A2 A5");
    Ok(())
}

#[test]
fn tells_symbols_that_are_there(rt: HostRuntime) -> Result<(), Fail> {
    let alloc = rt.alloc();
    let asked = [
        (Role::Prefix, (0, '-')),
        (Role::Prefix, (0, '+')),
        (Role::Postfix, (0, '-')),
        (Role::InfixRight, (0, '+')),
        (Role::InfixNone, (1, '!')),
        (Role::Postfix, (0, '+')),
    ];
    let with_room = table_of(alloc, 4, &INITIALS)?;
    let found = admissions(alloc, &with_room, &asked)?;
    assert_eq!(rt; found.as_str(), " A3 ok ok A4 A4 A4");
    let full = table_of(alloc, 3, &INITIALS)?;
    let found = admissions(alloc, &full, &asked)?;
    assert_eq!(rt; found.as_str(), " A3 A5 A5 A4 A4 A4");
    Ok(())
}

#[test]
fn tells_the_first_refused_declaration(rt: HostRuntime) -> Result<(), Fail> {
    let alloc = rt.alloc();
    let long = [(Role::Prefix, (16, '='))];
    let found = refusal(alloc, 1, &long)?;
    assert_eq!(rt; found.as_str(), "0: F9 operator not admitted (A1)");
    let prefixes = [
        (Role::Prefix, (0, '-')),
        (Role::Prefix, (0, '-')),
        (Role::Prefix, (0, '=')),
    ];
    let found = refusal(alloc, 64, &prefixes)?;
    assert_eq!(rt; found.as_str(), "1: F9 operator not admitted (A3)");
    let found = refusal(alloc, 2, &INITIALS)?;
    assert_eq!(rt; found.as_str(), "2: F9 operator not admitted (A5)");
    Ok(())
}

#[test]
fn keeps_the_order_of_declarations(rt: HostRuntime) -> Result<(), Fail> {
    let alloc = rt.alloc();
    let table = table_of(alloc, 3, &INITIALS)?;
    assert_eq!(rt; symbols(alloc, &table)?.as_str(), "- + x! ");
    let copy = table.copy(alloc)?;
    assert_eq!(rt; symbols(alloc, &copy)?.as_str(), "- + x! ");
    let found = admission(alloc, &copy, Role::Prefix, (0, '='))?;
    assert_eq!(rt; found.as_str(), "A2");
    Ok(())
}

#[test]
fn extends_a_copy_by_an_admitted_operator(rt: HostRuntime) -> Result<(), Fail> {
    let alloc = rt.alloc();
    let table = table_of(alloc, 4, &INITIALS)?;
    let admitted = declared(alloc, Role::InfixRight, (0, '*'))?;
    let found = extension(alloc, &table, &admitted)?;
    assert_eq!(rt; found.as_str(), "- + x! * ");
    let reserved = declared(alloc, Role::InfixRight, (0, '='))?;
    let found = extension(alloc, &table, &reserved)?;
    assert_eq!(rt; found.as_str(), "operator not admitted: A2");
    assert_eq!(rt; symbols(alloc, &table)?.as_str(), "- + x! ");
    Ok(())
}

#[test]
fn cuts_the_last_operators(rt: HostRuntime) -> Result<(), Fail> {
    let alloc = rt.alloc();
    let mut table = table_of(alloc, 3, &INITIALS)?;
    table.cut(3);
    assert_eq!(rt; symbols(alloc, &table)?.as_str(), "- + x! ");
    table.cut(1);
    assert_eq!(rt; symbols(alloc, &table)?.as_str(), "- ");
    let again = admission(alloc, &table, Role::InfixLeft, (0, '+'))?;
    assert_eq!(rt; again.as_str(), "ok");
    Ok(())
}

#[test]
fn counts_each_precedence_once(rt: HostRuntime) -> Result<(), Fail> {
    let alloc = rt.alloc();
    let table = table_of(alloc, 5, &INITIALS)?;
    assert_eq!(rt; table.rows(), 1);
    let loosest = Decl::new(Role::InfixLeft, 0, spelled(alloc, (0, '*'))?);
    let extended = table.extended_copy(alloc, &loosest)?;
    assert_eq!(rt; extended.rows(), 2);
    let tightest = Decl::new(Role::InfixLeft, 9, spelled(alloc, (0, '^'))?);
    let extended = extended.extended_copy(alloc, &tightest)?;
    assert_eq!(rt; extended.rows(), 3);
    Ok(())
}

#[test]
fn may_hold_no_operator(rt: HostRuntime) -> Result<(), Fail> {
    let alloc = rt.alloc();
    let table = table_of(alloc, 0, &[])?;
    let found = admission(alloc, &table, Role::Prefix, (0, '-'))?;
    assert_eq!(rt; found.as_str(), "A5");
    Ok(())
}
