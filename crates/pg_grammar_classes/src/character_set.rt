//! Sets of characters with fast membership tests.
//!
//! The table agrees with the class, which is an invariant of the type: a set never changes once it is made.

ghost use Rattle.std.specs.Prelude.{◌≡◌, IfOk};
ghost use Rattle.pg_class.specs.Ranges.{has};

use crate::ascii_table::{ASCII_COUNT, AsciiTable};
use pg_class::Class;
use std::alloc::{AllocError, Global};
use std::marker::Model;
use std::rc::Rc;

/// A set of characters, seen as the ranges of its class. Equal sets may share their memory.
#[derive(Drop)]
pub struct CharacterSet {
    class: Class,
    ascii: Rc<AsciiTable>,
}

impl Model for CharacterSet {
    ghost use Rattle.std.specs.Prelude.{List};
    ghost use Rattle.pg_class.specs.Ranges.{Range};
    ghost use Rattle.pg_grammar_classes.specs.Sets.{IsAsciiTable};

    ghost Value = { List Range };

    ghost view = { λ set. set.class };

    ghost invariant = { λ set. IsAsciiTable set.class set.ascii.value };
}

impl CharacterSet {
    /// The set of the characters of the class.
    pub fn new(alloc: Global, class: Class) -> Result<CharacterSet, AllocError>
        ensures { IfOk result (λ set. set ≡ class) }
    {
        let ascii = Rc::new(alloc, AsciiTable::of(&class))?;
        Ok(CharacterSet { class, ascii })
    }

    /// An equal set, which shares the memory of this one. The only error, reported as out of memory, is that it is shared as often as can be counted.
    pub fn share(&self) -> Result<CharacterSet, AllocError>
        ensures { IfOk result (λ set. set ≡ self.now) }
    {
        let class = self.class.share()?;
        let ascii = self.ascii.clone()?;
        Ok(CharacterSet { class, ascii })
    }

    /// Whether the character is in the set. It takes no memory.
    #[inline]
    pub fn has(&self, c: char) -> bool
        ensures { result ≡ has self.now c }
    {
        let code = u32::from(c) as usize;
        if code < ASCII_COUNT {
            return self.ascii.has(code);
        }
        self.class.has(c)
    }

    /// The class of its characters.
    pub fn class(&self) -> &Class
        ensures { result.now ≡ self.now }
    {
        &self.class
    }
}
