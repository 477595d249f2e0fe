//! The definitions of a file: each name with the place of the item that defines it first.
//!
//! They are noted before any name is looked up, since a word, a rule and the operators may be defined below their use. A class may not: it is above an item
//! if its first definition is at a lower place. A name is defined twice if an item other than the first defines it.

use indexmap::IndexMap;
use pg_file_items::Item;
use pg_text::Characters;
use std::alloc::{AllocError, Global};

/// The definitions of a file. A place counts the characters before it.
#[derive(Drop)]
pub struct Defined<'a> {
    classes: IndexMap<&'a [char], usize>,
    words: IndexMap<&'a [char], usize>,
    rules: IndexMap<&'a [char], usize>,
    operators: Option<usize>,
    start: Option<usize>,
}

impl<'a> Defined<'a> {
    /// The definitions of these items.
    pub fn of(alloc: Global, items: &'a [Item]) -> Result<Defined<'a>, AllocError> {
        let mut defined = Defined {
            classes: IndexMap::new(alloc),
            words: IndexMap::new(alloc),
            rules: IndexMap::new(alloc),
            operators: None,
            start: None,
        };
        defined.note_all(items)?;
        Ok(defined)
    }

    /// Whether a word item has this name.
    pub fn has_word(&self, name: &[char]) -> bool {
        self.words.contains_key(name)
    }

    /// Whether a rule has this name.
    pub fn has_rule(&self, name: &[char]) -> bool {
        self.rules.contains_key(name)
    }

    /// Whether there is an operators item.
    pub fn has_operators(&self) -> bool {
        self.operators.is_some()
    }

    /// Whether a class item of this name is above this place.
    pub fn has_class_above(&self, name: &[char], place: usize) -> bool {
        is_above(self.classes.get(name).copied(), place)
    }

    /// Whether a word item of this name is above this place.
    pub fn has_word_above(&self, name: &[char], place: usize) -> bool {
        is_above(self.words.get(name).copied(), place)
    }

    /// Whether a rule of this name is above this place.
    pub fn has_rule_above(&self, name: &[char], place: usize) -> bool {
        is_above(self.rules.get(name).copied(), place)
    }

    /// Whether an operators item is above this place.
    pub fn has_operators_above(&self, place: usize) -> bool {
        is_above(self.operators, place)
    }

    /// Whether a start item is above this place.
    pub fn has_start_above(&self, place: usize) -> bool {
        is_above(self.start, place)
    }

    /// Notes the definitions of the items.
    fn note_all(&mut self, items: &'a [Item]) -> Result<(), AllocError> {
        for item in items {
            self.note(item)?;
        }
        Ok(())
    }

    /// Notes the definition of an item, which is below those noted so far.
    fn note(&mut self, item: &'a Item) -> Result<(), AllocError> {
        match item {
            Item::Class {
                name,
                name_place,
                ..
            } => note_name(&mut self.classes, name, *name_place),
            Item::Word {
                name,
                name_place,
                ..
            } => note_name(&mut self.words, name, *name_place),
            Item::Rule { name, place, .. } => note_name(&mut self.rules, name, *place),
            Item::Operators { place, .. } => {
                self.operators = first_of(self.operators, *place);
                Ok(())
            }
            Item::Start { place, .. } => {
                self.start = first_of(self.start, *place);
                Ok(())
            }
            Item::Table { .. } => Ok(()),
        }
    }
}

/// Notes the place where a name is defined, unless it is defined above.
fn note_name<'a>(
    places: &mut IndexMap<&'a [char], usize>,
    name: &'a Characters,
    place: usize,
) -> Result<(), AllocError> {
    let name = name.as_slice();
    if !places.contains_key(name) {
        places.insert(name, place)?;
    }
    Ok(())
}

/// The place noted before, or otherwise this one.
fn first_of(noted: Option<usize>, place: usize) -> Option<usize> {
    Some(noted.unwrap_or(place))
}

/// Whether the first definition, if there is one, is above this place.
fn is_above(first: Option<usize>, place: usize) -> bool {
    match first {
        Some(first) => first < place,
        None => false,
    }
}
