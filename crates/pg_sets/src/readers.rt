//! The nodes that read words, item by item. Their one start enters a map once, however many nodes read it, since starts
//! with many reserved texts take long to compare.
ghost use Rattle.std.specs.Prelude.{◌≡◌, ◌↔◌, ◌⊎◌, ◌++◌, ℕ, true, length, IfOk, OnOk};
ghost use Rattle.pg_graph.specs.Graphs.{has};
ghost use Rattle.pg_sets_own.specs.declared.listed.ListedStart.{ListedStart};
ghost use Rattle.pg_sets.specs.Origins.{HoldsIt, IsThere, item_read, AreReaders};

use crate::origins::taken_sets;
use pg_grammar_form::Node;
use pg_grammar_value::Grammar;
use pg_graph::{Numbers, empty_lists, join};
use pg_sets_own::ListedStart;
use std::alloc::{AllocError, Global};
use std::collections::BTreeMap;

/// For each word item the nodes that read its words.
pub(crate) fn readers_of_words(alloc: Global, grammar: &Grammar) -> Result<Vec<Numbers>, AllocError>
    ensures { IfOk result (λ readers. AreReaders grammar.now (length grammar.now.nodes) readers.items) }
{
    let mut readers = empty_lists(alloc, grammar.word_items().len())?;
    for (number, node) in grammar.nodes().iter().enumerate() {
        if let Some(item) = item_read(node) {
            join(&mut readers, item, number)?;
        }
    }
    Ok(readers)
}

/// The number of the word item whose words the node reads, if it reads any.
pub(crate) fn item_read(node: &Node) -> Option<usize>
    ensures { result ≡ item_read node.now }
{
    match node.named_word() {
        Some(word) => Some(word.index()),
        None => None,
    }
}

/// Adds the sets that hold a start by themselves; with no sets the map stays as it is.
pub(crate) fn add_readers(
    alloc: Global,
    origins: &mut BTreeMap<ListedStart, Numbers>,
    listed: ListedStart,
    readers: &[usize],
) -> Result<(), AllocError>
    ensures held { OnOk result ((other : ListedStart) (v : ℕ) →
        HoldsIt origins.new other v ↔ (HoldsIt origins.old other v ⊎ ((listed ≡ other) × (has readers.now v ≡ true)))) }
    ensures there { OnOk result ((other : ListedStart) → IsThere origins.new other → IsThere origins.old other ⊎ (listed ≡ other)) }
{
    if readers.is_empty() {
        return Ok(());
    }
    let mut sets = taken_sets(alloc, origins, &listed);
    push_all(&mut sets, readers)?;
    origins.insert(listed, sets)?;
    Ok(())
}

/// Adds numbers at the end.
fn push_all(numbers: &mut Numbers, more: &[usize]) -> Result<(), AllocError>
    ensures { OnOk result (numbers.new ≡ numbers.old ++ more.now) }
{
    for number in more {
        numbers.push(*number)?;
    }
    Ok(())
}
