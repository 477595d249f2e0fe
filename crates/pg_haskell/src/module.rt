//! A module: its head, the grammar, and what that uses.

use crate::class::put_class;
use crate::comments::push_comments;
use crate::helpers::{HELPERS, Helper};
use crate::imports::Library;
use crate::literal::push_string;
use crate::names::{Name, Named, Names};
use crate::operators::{put_operators, put_texts};
use crate::page::Page;
use crate::value::put_value;
use pg_file_items::Item;
use std::alloc::{AllocError, Global};

/// What a module's head says.
#[derive(Clone, Copy)]
pub struct ModuleHead<'h> {
    /// The module's name.
    pub name: &'h str,
    /// The grammar file's name.
    pub file: &'h str,
    /// Whether the grammar is accepted.
    pub is_accepted: bool,
}

/// The Haskell module of a grammar file with these characters and items, which a grammar was made of (ours): a parser for each rule over Text.Parsec, with
/// the comments above it, and `parseText`, which parses a whole text by the start rule. The same file gives the same bytes. The only error is that memory ran
/// out.
pub fn haskell_module(
    alloc: Global,
    characters: &[char],
    items: &[Item],
    head: ModuleHead,
) -> Result<String, AllocError> {
    let names = Names::of(alloc, items)?;
    let module = module_of(alloc, characters, items, head, &names);
    drop(names);
    module
}

/// The module with these names.
fn module_of(
    alloc: Global,
    characters: &[char],
    items: &[Item],
    head: ModuleHead,
    names: &Names,
) -> Result<String, AllocError> {
    let mut page = Page::new(alloc, names);
    put_rules(&mut page, characters, items)?;
    let has_table = has_table(&page);
    if has_table {
        let declares = page.has(Helper::Declaration);
        put_operators(&mut page, items, declares)?;
    }
    put_items(&mut page, items)?;
    need_all(&mut page)?;
    put_start(&mut page, items, has_table)?;
    put_types(&mut page, has_table)?;
    put_helpers(&mut page)?;
    with_head(alloc, &page, head, has_table)
}

/// Puts the rules in file order.
fn put_rules(page: &mut Page, characters: &[char], items: &[Item]) -> Result<(), AllocError> {
    page.put("\n-- The grammar\n")?;
    for item in items {
        if let Item::Rule { name, place, body } = item {
            page.put("\n")?;
            push_comments(&mut page.text, characters, *place)?;
            page.put_name(Named::Rule, name.as_slice())?;
            page.put(" :: Parser [Tree]\n")?;
            page.put_name(Named::Rule, name.as_slice())?;
            page.put(" = ")?;
            put_value(page, body.as_slice())?;
            page.put("\n")?;
        }
    }
    Ok(())
}

/// Puts the classes and words that are used, and those that these use.
fn put_items(page: &mut Page, items: &[Item]) -> Result<(), AllocError> {
    let names = page.names;
    let mut next: usize = 0;
    for _ in 0..names.all.len() {
        let Some(number) = page.used.get(next).copied() else {
            break;
        };
        next = next.saturating_add(1);
        if let Some(name) = names.all.get(number) {
            put_item(page, items, name)?;
        }
    }
    Ok(())
}

/// Puts the class or the word with this name.
fn put_item(page: &mut Page, items: &[Item], name: &Name) -> Result<(), AllocError> {
    for item in items {
        match (item, name.of) {
            (
                Item::Class {
                    name: of,
                    class,
                    ..
                },
                Named::Class,
            ) if of.as_slice() == name.written => {
                put_head(page, name, "Char -> Bool")?;
                put_class(page, &class.class)?;
                page.put("\n")?;
            }
            (
                Item::Word {
                    name: of,
                    head,
                    rest,
                    reserved,
                    ..
                },
                Named::Word,
            ) if of.as_slice() == name.written => {
                put_head(page, name, "Parser String")?;
                page.put_helper(Helper::Word)?;
                page.put(" ")?;
                put_class(page, &head.class)?;
                page.put(" ")?;
                put_class(page, &rest.class)?;
                page.put(" ")?;
                put_texts(page, reserved)?;
                page.put("\n")?;
            }
            _ => {}
        }
    }
    Ok(())
}

/// Puts a signature, and what stands before the definition.
fn put_head(page: &mut Page, name: &Name, of: &str) -> Result<(), AllocError> {
    page.put("\n")?;
    page.put(name.haskell.as_str())?;
    page.put(" :: ")?;
    page.put(of)?;
    page.put("\n")?;
    page.put(name.haskell.as_str())?;
    page.put(" = ")
}

/// Notes the helpers that helpers use, and what they import.
fn need_all(page: &mut Page) -> Result<(), AllocError> {
    for next in 0..HELPERS.len() {
        let Some(helper) = page.helpers.get(next).copied() else {
            break;
        };
        for needed in helper.needs() {
            page.need(*needed)?;
        }
        for (library, name) in helper.imports() {
            page.imports.add(*library, *name)?;
        }
    }
    Ok(())
}

/// Whether the state of the module's parsers is a table.
fn has_table(page: &Page) -> bool {
    page.has(Helper::Expression) || page.has(Helper::Declaration)
}

/// Puts the call that parses a text.
fn put_start(page: &mut Page, items: &[Item], has_table: bool) -> Result<(), AllocError> {
    page.put("\n-- The trees of a whole text, or its error. The name stands in errors.\n")?;
    page.put(
        "parseText :: SourceName -> String -> Either ParseError [Tree]\nparseText = runParser (",
    )?;
    for item in items {
        if let Item::Start { name, .. } = item {
            page.put_name(Named::Rule, name.as_slice())?;
        }
    }
    for name in ["ParseError", "Parsec", "SourceName", "eof", "runParser"] {
        page.imports.add(Library::Parsec, name)?;
    }
    page.put(" <* eof) ")?;
    page.put(if has_table { "initialTable\n" } else { "()\n" })
}

/// Puts the types.
fn put_types(page: &mut Page, has_table: bool) -> Result<(), AllocError> {
    page.put("\n-- What every module has, as far as the grammar uses it\n\n")?;
    page.put("data Tree = Leaf String | Node String [Tree] deriving (Eq, Show)\n\n")?;
    if page.has(Helper::Expression) || page.has(Helper::Link) {
        page.put("type Builder = String -> [Tree] -> [Tree]\n\n")?;
    }
    if has_table {
        page.put("data Role = Infixl | Infixr | Infix | Prefix | Postfix deriving (Eq, Show)\n\n")?;
        page.put("data Operator = Operator Role Int String deriving (Eq, Show)\n\n")?;
        return page.put("type Parser = Parsec String [Operator]\n");
    }
    page.put("type Parser = Parsec String ()\n")
}

/// Puts the helpers that are used.
fn put_helpers(page: &mut Page) -> Result<(), AllocError> {
    for helper in HELPERS {
        if page.has(helper) {
            page.put(helper.text())?;
        }
    }
    Ok(())
}

/// A module with its head before it.
fn with_head(
    alloc: Global,
    page: &Page,
    head: ModuleHead,
    has_table: bool,
) -> Result<String, AllocError> {
    let mut module = String::new(alloc);
    push_comment(&mut module, page, head)?;
    push_exports(&mut module, page, head, has_table)?;
    page.imports.push(&mut module)?;
    if page.has(Helper::Expression) {
        module.push_str("import qualified Text.Parsec.Expr as E\n")?;
    }
    module.push_str(page.text.as_str())?;
    Ok(module)
}

/// Pushes the comment at the head: what the module is, whether the grammar is accepted, and which names were changed.
fn push_comment(module: &mut String, page: &Page, head: ModuleHead) -> Result<(), AllocError> {
    module.push_str("-- The grammar ")?;
    for c in head.file.chars() {
        module.push(if (' '..='~').contains(&c) { c } else { '?' })?;
    }
    module.push_str(", as `pgw haskell` prints it: change the grammar and print it again.\n--\n")?;
    module.push_str(if head.is_accepted {
        "-- It is accepted: no text has two trees, no choice loses an alternative, and every parse ends.\n"
    } else {
        "-- It isn't accepted: `pgw explain` says why. A parser may lose texts that the grammar derives, or never end.\n"
    })?;
    for name in &page.names.all {
        if name.is_changed() {
            push_changed(module, name)?;
        }
    }
    Ok(())
}

/// Pushes the line of a name that was changed.
fn push_changed(module: &mut String, name: &Name) -> Result<(), AllocError> {
    module.push_str("-- The rule ")?;
    for c in name.written {
        module.push(*c)?;
    }
    module.push_str(" is ")?;
    module.push_str(name.haskell.as_str())?;
    module.push_str(" here.\n")
}

/// Pushes the name of the module and its exports.
fn push_exports(
    module: &mut String,
    page: &Page,
    head: ModuleHead,
    has_table: bool,
) -> Result<(), AllocError> {
    module.push_str("module ")?;
    module.push_str(head.name)?;
    module.push_str("\n  ( Parser, Tree (..), parseText\n")?;
    if has_table {
        module.push_str("  , Operator (..), Role (..), initialTable\n")?;
    }
    for name in &page.names.all {
        if name.of == Named::Rule {
            module.push_str("  , ")?;
            module.push_str(name.haskell.as_str())?;
            module.push_str("\n")?;
        }
    }
    module.push_str("  ) where\n\n")
}
