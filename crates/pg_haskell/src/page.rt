//! What a module consists of while it is put together: its text, and what that uses.

use crate::helpers::Helper;
use crate::imports::{Imports, Library};
use crate::names::{Named, Names};
use std::alloc::{AllocError, Global};

/// The text of a module so far.
#[derive(Drop)]
pub(crate) struct Page<'n> {
    pub(crate) alloc: Global,
    pub(crate) text: String,
    pub(crate) names: &'n Names<'n>,
    pub(crate) imports: Imports,
    /// The helpers that the text uses, each once.
    pub(crate) helpers: Vec<Helper>,
    /// The classes and words that it uses, by the numbers of their names.
    pub(crate) used: Vec<usize>,
}

impl<'n> Page<'n> {
    pub(crate) fn new(alloc: Global, names: &'n Names<'n>) -> Page<'n> {
        Page {
            alloc,
            text: String::new(alloc),
            names,
            imports: Imports::new(alloc),
            helpers: Vec::new(alloc),
            used: Vec::new(alloc),
        }
    }

    pub(crate) fn put(&mut self, text: &str) -> Result<(), AllocError> {
        self.text.push_str(text)
    }

    /// Puts a name of Text.Parsec, which is imported then.
    pub(crate) fn put_parsec(&mut self, name: &'static str) -> Result<(), AllocError> {
        self.imports.add(Library::Parsec, name)?;
        self.put(name)
    }

    /// Puts the name of a helper, which is printed then.
    pub(crate) fn put_helper(&mut self, helper: Helper) -> Result<(), AllocError> {
        self.need(helper)?;
        self.put(helper.name())
    }

    /// Notes that a helper is used.
    pub(crate) fn need(&mut self, helper: Helper) -> Result<(), AllocError> {
        if self.has(helper) {
            return Ok(());
        }
        self.helpers.push(helper)?;
        Ok(())
    }

    /// Whether a helper is used.
    pub(crate) fn has(&self, helper: Helper) -> bool {
        self.helpers.iter().any(|there| *there == helper)
    }

    /// Puts the module's name for what has this one in the file. A class or a word is printed then.
    pub(crate) fn put_name(&mut self, of: Named, written: &[char]) -> Result<(), AllocError> {
        let names = self.names;
        for (number, name) in names.all.iter().enumerate() {
            if name.of == of && name.written == written {
                self.use_number(of, number)?;
                return self.put(name.haskell.as_str());
            }
        }
        Ok(())
    }

    /// Notes that a class or a word is used.
    fn use_number(&mut self, of: Named, number: usize) -> Result<(), AllocError> {
        if of == Named::Rule || self.used.iter().any(|there| *there == number) {
            return Ok(());
        }
        self.used.push(number)?;
        Ok(())
    }
}
