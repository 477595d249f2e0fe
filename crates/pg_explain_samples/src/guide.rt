//! The costs of texts that begin with a given character, for the characters asked for so far.

use crate::basis::Basis;
use crate::shortest::{Costs, solved};
use std::alloc::{AllocError, Global};

/// The costs of texts that begin with a character.
#[derive(Drop)]
struct Begun {
    character: char,
    costs: Costs,
}

/// The costs of texts, by the character that they begin with.
#[derive(Drop)]
pub struct Fronts {
    begun: Vec<Begun>,
}

impl Fronts {
    /// No costs.
    pub fn new(alloc: Global) -> Fronts {
        Fronts {
            begun: Vec::new(alloc),
        }
    }

    /// The costs of texts that begin with this character, if it was asked for.
    pub fn of(&self, c: char) -> Option<&Costs> {
        for begun in &self.begun {
            if begun.character == c {
                return Some(&begun.costs);
            }
        }
        None
    }

    /// Works out the costs of texts that begin with one of these characters, unless they are known. Fails where memory runs out.
    pub fn ask(
        &mut self,
        alloc: Global,
        basis: &Basis<'_>,
        characters: &[char],
    ) -> Result<(), AllocError> {
        for character in characters {
            let character = *character;
            if self.of(character).is_none() {
                let costs = solved(alloc, basis.begun_with(character), Some(&basis.plain))?;
                self.begun.push(Begun { character, costs })?;
            }
        }
        Ok(())
    }
}
