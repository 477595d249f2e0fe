//! What the items of operators are in a module: the state of a parser, and what operators are written with.

use crate::class::put_class;
use crate::literal::push_string;
use crate::page::Page;
use itoa::Buffer;
use pg_file_items::{Item, WrittenClass};
use pg_grammar_form::Role;
use pg_text::Characters;
use std::alloc::AllocError;

/// How many operators there may be where the file doesn't say it.
const MOST: usize = 64;

/// Puts the table to begin with, and what operators are written with.
pub(crate) fn put_operators(
    page: &mut Page,
    items: &[Item],
    declares: bool,
) -> Result<(), AllocError> {
    put_table(page, items)?;
    for item in items {
        if let Item::Operators {
            class,
            gap,
            reserved,
            most,
            ..
        } = item
        {
            put_characters(page, "isOperatorCharacter", &class.class)?;
            put_characters(page, "isGap", &gap.class)?;
            if declares {
                put_reserved(page, reserved)?;
                put_most(page, most.unwrap_or(MOST))?;
            }
        }
    }
    Ok(())
}

/// Puts the table to begin with.
fn put_table(page: &mut Page, items: &[Item]) -> Result<(), AllocError> {
    page.put("\n-- The operators to begin with.\ninitialTable :: [Operator]\ninitialTable =\n  [")?;
    let mut is_first = true;
    for item in items {
        if let Item::Table {
            role,
            precedence,
            symbol,
            ..
        } = item
        {
            page.put(if is_first { " " } else { "\n  , " })?;
            is_first = false;
            put_entry(page, *role, *precedence, symbol)?;
        }
    }
    page.put(if is_first { "]\n" } else { "\n  ]\n" })
}

/// Puts an operator.
fn put_entry(
    page: &mut Page,
    role: Role,
    precedence: usize,
    symbol: &Characters,
) -> Result<(), AllocError> {
    page.put("Operator ")?;
    page.put(match role {
        Role::InfixLeft => "Infixl ",
        Role::InfixRight => "Infixr ",
        Role::InfixNone => "Infix ",
        Role::Prefix => "Prefix ",
        Role::Postfix => "Postfix ",
    })?;
    put_number(page, precedence)?;
    page.put(" ")?;
    push_string(&mut page.text, symbol.as_slice())
}

fn put_number(page: &mut Page, number: usize) -> Result<(), AllocError> {
    let mut buffer = Buffer::new();
    page.put(buffer.format(number))
}

/// Puts a predicate with this name.
fn put_characters(page: &mut Page, name: &str, class: &WrittenClass) -> Result<(), AllocError> {
    page.put("\n")?;
    page.put(name)?;
    page.put(" :: Char -> Bool\n")?;
    page.put(name)?;
    page.put(" = ")?;
    put_class(page, class)?;
    page.put("\n")
}

/// Puts the symbols that are no operators.
fn put_reserved(page: &mut Page, reserved: &[Characters]) -> Result<(), AllocError> {
    page.put("\nreservedSymbols :: [String]\nreservedSymbols = ")?;
    put_texts(page, reserved)?;
    page.put("\n")
}

/// Puts a list of strings.
pub(crate) fn put_texts(page: &mut Page, texts: &[Characters]) -> Result<(), AllocError> {
    page.put("[")?;
    for (number, text) in texts.iter().enumerate() {
        page.put(if number > 0 { ", " } else { "" })?;
        push_string(&mut page.text, text.as_slice())?;
    }
    page.put("]")
}

/// Puts how many operators there may be.
fn put_most(page: &mut Page, most: usize) -> Result<(), AllocError> {
    page.put("\nmostOperators :: Int\nmostOperators = ")?;
    put_number(page, most)?;
    page.put("\n")
}
