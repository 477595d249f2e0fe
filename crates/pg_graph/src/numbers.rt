//! Lists of numbers, one for each numbered thing.
//!
//! Contracts see each as the list of its numbers, so a slice of them is a list of lists.
ghost use Rattle.std.specs.Prelude.{◌≡◌, [], ◌∷◌, ◌++◌, replicate, OnOk, IfOk};
ghost use Rattle.pg_graph.specs.Graphs.{numbers_at, joined, joined_each};

use std::alloc::{AllocError, Global};
use std::marker::Model;

/// A list of numbers.
#[derive(Drop)]
pub struct Numbers {
    numbers: Vec<usize>,
}

impl Model for Numbers {
    ghost use Rattle.std.specs.Prelude.{ℕ, List};

    ghost Value = { List ℕ };

    ghost view = { λ list. list.numbers.items };
}

impl Numbers {
    /// The empty list. It takes no memory.
    pub fn new(alloc: Global) -> Numbers
        ensures { result ≡ [] }
    {
        Numbers {
            numbers: Vec::new(alloc),
        }
    }

    /// The numbers, in order.
    pub fn as_slice(&self) -> &[usize]
        ensures { result.now ≡ self.now }
    {
        self.numbers.as_slice()
    }

    /// Appends a number.
    pub fn push(&mut self, number: usize) -> Result<(), AllocError>
        ensures { OnOk result (self.new ≡ self.old ++ number ∷ []) }
    {
        self.numbers.push(number)?;
        Ok(())
    }
}

/// `count` empty lists.
pub fn empty_lists(alloc: Global, count: usize) -> Result<Vec<Numbers>, AllocError>
    ensures { IfOk result (λ lists. lists.items ≡ replicate count []) }
{
    let mut lists = Vec::new(alloc);
    for _ in 0..count {
        lists.push(Numbers::new(alloc))?;
    }
    Ok(lists)
}

/// The list with this index; empty if there is none.
pub fn numbers_at(lists: &[Numbers], list: usize) -> &[usize]
    ensures { result.now ≡ numbers_at lists.now list }
{
    match lists.get(list) {
        Some(numbers) => numbers.as_slice(),
        None => &[],
    }
}

/// Appends a number to the list with this index, if it exists.
pub fn join(lists: &mut [Numbers], list: usize, number: usize) -> Result<(), AllocError>
    ensures { OnOk result (lists.new ≡ joined lists.old list number) }
{
    if list < lists.len() {
        lists[list].push(number)?;
    }
    Ok(())
}

/// Appends a number to each of the lists with these indices, as far as they exist.
pub(crate) fn join_each(
    lists: &mut [Numbers],
    at: &[usize],
    number: usize,
) -> Result<(), AllocError>
    ensures { OnOk result (lists.new ≡ joined_each lists.old at.now number) }
{
    for list in at {
        join(lists, *list, number)?;
    }
    Ok(())
}
