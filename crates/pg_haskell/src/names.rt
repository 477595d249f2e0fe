//! The names of a grammar's rules, classes and words in a module.

use crate::helpers::is_of_module;
use crate::taken::is_taken;
use pg_file_items::Item;
use std::alloc::{AllocError, Global};

/// What has a name in a grammar file.
#[derive(Clone, Copy, PartialEq, Eq)]
pub(crate) enum Named {
    Rule,
    Class,
    Word,
}

/// A name as the file has it, and as the module has it.
#[derive(Drop)]
pub(crate) struct Name<'i> {
    pub(crate) of: Named,
    pub(crate) written: &'i [char],
    pub(crate) haskell: String,
}

/// The names of a module.
#[derive(Drop)]
pub(crate) struct Names<'i> {
    pub(crate) all: Vec<Name<'i>>,
}

impl<'i> Names<'i> {
    /// The names of what the items define: first all rules, so that these keep theirs where they can.
    pub(crate) fn of(alloc: Global, items: &'i [Item]) -> Result<Names<'i>, AllocError> {
        let mut names = Names {
            all: Vec::new(alloc),
        };
        names.add_all(alloc, items, Named::Rule)?;
        names.add_all(alloc, items, Named::Class)?;
        names.add_all(alloc, items, Named::Word)?;
        Ok(names)
    }

    /// Adds the names of one kind.
    fn add_all(&mut self, alloc: Global, items: &'i [Item], of: Named) -> Result<(), AllocError> {
        for item in items {
            if let Some(written) = named_by(item, of) {
                self.add(alloc, of, written)?;
            }
        }
        Ok(())
    }

    /// Adds a name, with apostrophes until no other is the same.
    fn add(&mut self, alloc: Global, of: Named, written: &'i [char]) -> Result<(), AllocError> {
        let mut haskell = first_form(alloc, of, written)?;
        for _ in 0..self.all.len().saturating_add(3) {
            if !self.is_used(haskell.as_str()) {
                break;
            }
            haskell.push('\'')?;
        }
        self.all.push(Name {
            of,
            written,
            haskell,
        })?;
        Ok(())
    }

    /// Whether a name is another's in the module, or can't be had.
    fn is_used(&self, name: &str) -> bool {
        is_taken(name)
            || is_of_module(name)
            || self.all.iter().any(|other| other.haskell.as_str() == name)
    }
}

impl Name<'_> {
    /// Whether a rule's name isn't the one that it has in the file.
    pub(crate) fn is_changed(&self) -> bool {
        self.of == Named::Rule
            && !self
                .haskell
                .as_str()
                .chars()
                .eq(self.written.iter().copied())
    }
}

/// The name that an item defines, if it is of the kind.
fn named_by(item: &Item, of: Named) -> Option<&[char]> {
    match (item, of) {
        (Item::Rule { name, .. }, Named::Rule)
        | (Item::Class { name, .. }, Named::Class)
        | (Item::Word { name, .. }, Named::Word) => Some(name.as_slice()),
        _ => None,
    }
}

/// A name that Haskell takes for a variable: of a rule its own with a small letter, of a class `isName`, and of a word `nameWord`.
fn first_form(alloc: Global, of: Named, written: &[char]) -> Result<String, AllocError> {
    let mut name = String::new(alloc);
    if of == Named::Class {
        name.push_str("is")?;
    }
    for (number, c) in written.iter().enumerate() {
        let c = if number > 0 {
            *c
        } else if of == Named::Class {
            c.to_ascii_uppercase()
        } else {
            c.to_ascii_lowercase()
        };
        name.push(c)?;
    }
    if of == Named::Word {
        name.push_str("Word")?;
    }
    Ok(name)
}

/// Whether a module of a grammar can have this name (ours): words with a dot between each two, each a capital letter with letters, digits, `_` and `'` behind it,
/// all of ASCII; but not `Main`, which a program's own module is called, nor the name of one that modules import.
pub fn is_module_name(name: &str) -> bool {
    !IMPORTED.iter().any(|there| *there == name) && name.split('.').all(is_module_word)
}

/// The names of modules that are there already.
const IMPORTED: [&str; 7] = [
    "Main",
    "Prelude",
    "Control.Monad",
    "Data.Char",
    "Text.Parsec",
    "Text.Parsec.Expr",
    "Text.Parsec.Pos",
];

fn is_module_word(word: &str) -> bool {
    word.starts_with(|c: char| c.is_ascii_uppercase())
        && word
            .chars()
            .all(|c| c.is_ascii_alphanumeric() || c == '_' || c == '\'')
}
