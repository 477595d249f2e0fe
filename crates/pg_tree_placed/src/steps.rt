//! Steps: which one is to be made, and the list of them.

ghost use Rattle.std.specs.Prelude.{◌≡◌, List, ◌++◌, if◌then◌else◌, ◌∷◌, [], true, IfSome, OnOk, OnErr};
ghost use Rattle.pg_tree_placed.specs.Made.{IsPlacedAt, IsAround, IsPlacedAround};
ghost use Rattle.pg_tree_placed.specs.declared.entry.Entry.{Entry};
ghost use Rattle.pg_tree_placed.specs.declared.entry.Entry.TheVariants.{Node, Flat};

use crate::entry::Entry;
use std::alloc::AllocError;

/// Appends a step.
pub(crate) fn push_entry(entries: &mut Vec<Entry>, entry: Entry) -> Result<(), AllocError>
    ensures ok { OnOk result (entries.new.items ≡ entries.old.items ++ entry ∷ []) }
    ensures err { OnErr result (entries.new.items ≡ entries.old.items) }
{
    entries.push(entry)?;
    Ok(())
}

/// The leaf of these characters, if they stand in the text from this place on.
pub(crate) fn leaf_of(text: &[char], characters: &[char], from: usize) -> Option<Entry>
    ensures { IfSome result (λ entry. IsPlacedAt text.now characters.now entry) }
{
    let to = from.checked_add(characters.len())?;
    if to > text.len() || !are_same(&text[from..to], characters) {
        return None;
    }
    match (u32::try_from(from), u32::try_from(to)) {
        (Ok(from), Ok(to)) => Some(Entry::Leaf(from, to)),
        (Ok(_) | Err(_), _) => None,
    }
}

/// Whether these are the same characters. One is compared at once, since most leaves are short.
fn are_same(some: &[char], others: &[char]) -> bool
    ensures { result ≡ true → some.now ≡ others.now }
{
    match (some, others) {
        ([one], [other]) => *one == *other,
        (_, _) => some == others,
    }
}

/// The step that makes a node with the label of this number around the leaf that another step makes.
pub(crate) fn single_of(number: usize, last: Entry) -> Option<Entry>
    ensures { IfSome result (IsAround number last) }
{
    match last {
        Entry::Leaf(from, to) => match u16::try_from(number) {
            Ok(label) => Some(Entry::Single(label, from, to)),
            Err(_) => None,
        },
        Entry::Node(_, _) | Entry::Flat(_, _) | Entry::Single(_, _, _) | Entry::Join(_) => None,
    }
}

/// The step that makes a node with the label of this number around the leaf of these characters, if they stand in the text from this place on.
pub(crate) fn placed_single(
    number: usize,
    text: &[char],
    characters: &[char],
    from: usize,
) -> Option<Entry>
    ensures { IfSome result (IsPlacedAround number text.now characters.now) }
{
    single_of(number, leaf_of(text, characters, from)?)
}

/// Puts a step in the place of the last one.
pub(crate) fn put_last(entries: &mut Vec<Entry>, entry: Entry)
    ensures { (before : List Entry) (last : Entry) → entries.old.items ≡ before ++ last ∷ [] → entries.new.items ≡ before ++ entry ∷ [] }
{
    if let Some(last) = entries.len().checked_sub(1) {
        entries[last] = entry;
    }
}

/// The node with the label of this number and so many kids.
pub(crate) fn node_of(label: usize, kids: usize, is_flat: bool) -> Option<Entry>
    ensures { IfSome result (λ entry. entry ≡ (if is_flat then Flat label kids else Node label kids)) }
{
    match (u32::try_from(label), u32::try_from(kids)) {
        (Ok(label), Ok(kids)) => Some(if is_flat {
            Entry::Flat(label, kids)
        } else {
            Entry::Node(label, kids)
        }),
        (Ok(_) | Err(_), _) => None,
    }
}
