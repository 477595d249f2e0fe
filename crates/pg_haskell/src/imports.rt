//! What a module imports.

use std::alloc::{AllocError, Global};

/// A module that is imported from. They are printed in this order.
#[derive(Clone, Copy, PartialEq, Eq)]
pub(crate) enum Library {
    Control,
    Characters,
    Parsec,
    Expressions,
    Positions,
}

/// All of them, in order.
const ALL: [Library; 5] = [
    Library::Control,
    Library::Characters,
    Library::Parsec,
    Library::Expressions,
    Library::Positions,
];

/// How many columns a line of names has, before the name that passes them.
const WIDTH: usize = 90;

impl Library {
    /// What stands before the names.
    fn head(self) -> &'static str {
        match self {
            Library::Control => "import Control.Monad (",
            Library::Characters => "import Data.Char (",
            Library::Parsec => "import Text.Parsec (",
            Library::Expressions => "import Text.Parsec.Expr (",
            Library::Positions => "import Text.Parsec.Pos (",
        }
    }
}

/// The names that a module imports, each once and in order.
#[derive(Drop)]
pub(crate) struct Imports {
    names: Vec<(Library, &'static str)>,
}

impl Imports {
    pub(crate) fn new(alloc: Global) -> Imports {
        Imports {
            names: Vec::new(alloc),
        }
    }

    /// Imports a name.
    pub(crate) fn add(&mut self, library: Library, name: &'static str) -> Result<(), AllocError> {
        if self
            .names
            .iter()
            .any(|(of, there)| *of == library && *there == name)
        {
            return Ok(());
        }
        let place = self.names.iter().filter(|(_, there)| *there < name).count();
        self.names.insert(place, (library, name))?;
        Ok(())
    }

    /// Pushes the lines.
    pub(crate) fn push(&self, page: &mut String) -> Result<(), AllocError> {
        for library in ALL {
            self.push_library(page, library)?;
        }
        Ok(())
    }

    /// Pushes the lines of a library, unless nothing of it is used.
    fn push_library(&self, page: &mut String, library: Library) -> Result<(), AllocError> {
        let mut column: usize = 0;
        for (of, name) in &self.names {
            if *of == library {
                column = push_name(page, column, library, name)?;
            }
        }
        page.push_str(if column > 0 { ")\n" } else { "" })
    }
}

/// Pushes a name behind so many columns of a line, and returns how many there are then.
fn push_name(
    page: &mut String,
    column: usize,
    library: Library,
    name: &str,
) -> Result<usize, AllocError> {
    let before = if column == 0 {
        library.head()
    } else if column > WIDTH {
        ",\n  "
    } else {
        ", "
    };
    page.push_str(before)?;
    page.push_str(name)?;
    let line = if column > WIDTH { 0 } else { column };
    Ok(line.saturating_add(before.len()).saturating_add(name.len()))
}
