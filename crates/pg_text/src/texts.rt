//! A list of texts with fast lookup, such as the words that a language reserves.
//!
//! Contracts see it as a list of lists of characters. Longer lists are hashed, so a lookup among thousands of reserved words takes no longer than among ten.
//! An empty text may be among them.
ghost use Rattle.std.specs.Prelude.{◌≡◌, IfOk, OnOk};
ghost use Rattle.pg_text.specs.Texts.{is_among, Spell, SpellsOneMore};

use crate::characters::Characters;
use indexmap::IndexSet;
use std::alloc::{AllocError, Global};
use std::marker::Model;
use std::rc::Rc;

/// Up to this many texts are compared one by one, which takes less time than hashing.
const FEW: usize = 16;

/// Texts in order, seen as the list of their characters. Copies share their memory.
#[derive(Debug)]
pub struct Texts {
    kept: Rc<Kept>,
}

// Written out, so that the crates above needn't prove again how each part is dropped.
impl Drop for Texts {
    fn drop(self) {
        let Texts { kept } = self;
        drop(kept);
    }
}

/// The texts themselves, seen as the list of their characters.
#[derive(Debug, Drop)]
struct Kept {
    texts: Vec<Characters>,
    /// The set of the texts, if there are more than a few.
    spelled: IndexSet<Vec<char>>,
}

impl Model for Texts {
    ghost use Rattle.std.specs.Prelude.{ℕ, List};

    ghost Value = { List (List ℕ) };

    ghost view = { λ t. t.kept.value };
}

impl Model for Kept {
    ghost use Rattle.std.specs.Prelude.{◌<◌, ℕ, List, length};
    ghost use Rattle.pg_text.specs.Texts.{Spell};

    ghost Value = { List (List ℕ) };

    ghost view = { λ t. t.texts.items };

    ghost invariant = { λ t. 16 < length t.texts.items → Spell t.spelled.keys t.texts.items };
}

impl Texts {
    /// The list of these texts, taken over.
    pub fn new(alloc: Global, texts: Vec<Characters>) -> Result<Texts, AllocError>
        ensures { IfOk result (λ made. made ≡ texts.items) }
    {
        let kept = keep(alloc, texts)?;
        let kept = Rc::new(alloc, kept)?;
        Ok(Texts { kept })
    }

    /// A list of copies of these texts.
    pub fn of(alloc: Global, texts: &[Characters]) -> Result<Texts, AllocError>
        ensures { IfOk result (λ made. made ≡ texts.now) }
    {
        let mut copies = Vec::new(alloc);
        for text in texts {
            let characters = Vec::from_slice(alloc, text.as_slice())?;
            copies.push(Characters::new(characters))?;
        }
        Texts::new(alloc, copies)
    }

    /// An equal list, which shares the memory of this one and takes none. The only error, reported as out of memory, is that it is shared as often as can be
    /// counted.
    pub fn share(&self) -> Result<Texts, AllocError>
        ensures { IfOk result (λ texts. texts ≡ self.now) }
    {
        Ok(Texts {
            kept: self.kept.clone()?,
        })
    }

    /// The texts, in order.
    pub fn as_slice(&self) -> &[Characters]
        ensures { result.now ≡ self.now }
    {
        self.kept.as_slice()
    }

    /// Whether this is one of the texts. It takes no memory, and time that doesn't grow with their number.
    pub fn contains(&self, text: &[char]) -> bool
        ensures { result ≡ is_among self.now text.now }
    {
        self.kept.contains(text)
    }
}

impl Kept {
    fn as_slice(&self) -> &[Characters]
        ensures { result.now ≡ self.now }
    {
        self.texts.as_slice()
    }

    fn contains(&self, text: &[char]) -> bool
        ensures { result ≡ is_among self.now text.now }
    {
        if self.texts.len() > FEW {
            self.spelled.contains(text)
        } else {
            is_among(self.texts.as_slice(), text)
        }
    }
}

/// The texts, with a set of them if there are more than a few.
fn keep(alloc: Global, texts: Vec<Characters>) -> Result<Kept, AllocError>
    ensures { IfOk result (λ kept. kept ≡ texts.items) }
{
    let spelled = if texts.len() > FEW {
        spelled(alloc, texts.as_slice())?
    } else {
        IndexSet::new(alloc)
    };
    Ok(Kept { texts, spelled })
}

/// Whether the text is one of these. It compares them one by one.
fn is_among(texts: &[Characters], text: &[char]) -> bool
    ensures { result ≡ is_among texts.now text.now }
{
    texts.iter().any(|other| other.as_slice() == text)
}

/// The set of the texts.
fn spelled(alloc: Global, texts: &[Characters]) -> Result<IndexSet<Vec<char>>, AllocError>
    ensures { IfOk result (λ set. Spell set.keys texts.now) }
{
    let mut set = IndexSet::with_capacity(alloc, texts.len())?;
    for text in texts {
        add(&mut set, Vec::from_slice(alloc, text.as_slice())?)?;
    }
    Ok(set)
}

/// Adds a text to the set.
fn add(set: &mut IndexSet<Vec<char>>, text: Vec<char>) -> Result<(), AllocError>
    ensures { OnOk result (SpellsOneMore text.items set.old.keys set.new.keys) }
{
    set.insert(text)?;
    Ok(())
}
