//! An owned list of characters, with no limit on its length.
//!
//! Callers see it as the list of its characters. It holds the names and literals of a grammar file, so that they are
//! compared, printed and indexed by characters and not by bytes.
ghost use Rattle.std.specs.Prelude.{◌≡◌, ◌==◌, length};

use std::fmt;
use std::marker::Model;

/// An owned list of characters, such as a name or a literal of a grammar file.
#[derive(Debug, Drop)]
pub struct Characters {
    characters: Vec<char>,
}

impl Model for Characters {
    ghost use Rattle.std.specs.Prelude.{List, ℕ};

    ghost Value = { List ℕ };

    ghost view = { λ c. c.characters.items };
}

impl Characters {
    /// The list of these characters. It takes no memory.
    pub fn new(characters: Vec<char>) -> Characters
        ensures { result ≡ characters.items }
    {
        Characters { characters }
    }

    /// The characters, borrowed.
    pub fn as_slice(&self) -> &[char]
        ensures { result.now ≡ self.now }
    {
        self.characters.as_slice()
    }

    /// The number of characters. Their bytes may be more.
    pub fn len(&self) -> usize
        ensures { result ≡ length self.now }
    {
        self.characters.len()
    }

    /// Whether there is no character, as in the literal "".
    pub fn is_empty(&self) -> bool
        ensures { result ≡ (length self.now == 0) }
    {
        self.characters.is_empty()
    }
}

impl fmt::Display for Characters {
    ghost use Rattle.std.specs.Prelude.{Some, encode_utf8_all};

    ghost output = { λ c. Some (encode_utf8_all c) };

    fn fmt<W: fmt::Write>(&self, f: &mut fmt::Formatter<W>) -> fmt::Result {
        for c in self.as_slice() {
            f.write_char(*c)?;
        }
        Ok(())
    }
}
