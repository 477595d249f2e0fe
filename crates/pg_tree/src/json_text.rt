//! The text in JSON of a forest.
//!
//! The text is compact: a forest is an array, a leaf a string, and a node an object with the members `kids` and `node`,
//! in this order. A run prints its results as this text. A node stands after its kids, but its text begins before
//! theirs. So a first pass counts the nodes that begin at each entry, and a second pass writes. Neither needs a stack.
//! Nothing is written for a node that flattening took away.

ghost use Rattle.std.specs.Prelude.{◌≡◌, ◌++◌, take, drop, codes, IfOk, OnOk};
ghost use Rattle.pg_tree.specs.Json.{quoted, json, json_kids};
ghost use Rattle.pg_tree.specs.Kept.{kepts_of, trees_of};
ghost use Rattle.pg_tree.specs.Stored.{kept_in, Keeps};
ghost use Rattle.pg_tree.specs.Written.{braces, separator, own_json};

use crate::entry::Entry;
use crate::forest::Forest;
use crate::openings::openings;
use crate::quoted::push_quoted;
use crate::store::Store;
use std::alloc::{AllocError, Global};

/// The whole text of a forest.
pub(crate) fn json_text(alloc: Global, forest: &Forest) -> Result<Vec<u8>, AllocError>
    ensures { IfOk result (λ text. text.items ≡ json forest.now) }
{
    stored_text(alloc, &forest.store)
}

/// The whole text of the trees in a store.
fn stored_text(alloc: Global, store: &Store) -> Result<Vec<u8>, AllocError>
    requires { Keeps store.now (kept_in store.now) }
    ensures { IfOk result (λ text. text.items ≡ codes "[" ++ (json_kids (trees_of (kepts_of (kept_in store.now))) ++ codes "]")) }
{
    let openings = openings(alloc, store.entries.as_slice())?;
    let mut texts = store.texts.as_slice();
    let mut labels = store.labels.as_slice();
    let mut later = false;
    let mut text = Vec::from_slice(alloc, b"[")?;
    for i in 0..store.entries.len() {
        let (entry, count) = (store.entries[i], openings[i]);
        push_separator(later, count, entry, &mut text)?;
        push_braces(count, &mut text)?;
        push_own(entry, texts, labels, &mut text)?;
        later = entry.ended(later, count);
        texts = rest(texts, entry.own_text());
        labels = rest(labels, entry.own_label());
    }
    text.push(b']')?;
    Ok(text)
}

/// Appends the comma before this entry, if a tree ended before it and another begins at it. This many nodes begin at the entry.
fn push_separator(
    later: bool,
    count: usize,
    entry: Entry,
    text: &mut Vec<u8>,
) -> Result<(), AllocError>
    ensures { OnOk result (text.new.items ≡ text.old.items ++ separator later count entry) }
{
    if later && entry.begins(count) {
        text.push(b',')?;
    }
    Ok(())
}

/// Appends the opening text of this many nodes.
fn push_braces(count: usize, text: &mut Vec<u8>) -> Result<(), AllocError>
    ensures { OnOk result (text.new.items ≡ text.old.items ++ braces count) }
{
    for _ in 0..count {
        text.extend_from_slice(b"{\"kids\":[")?;
    }
    Ok(())
}

/// Appends the text of a leaf, or the closing text of a node. Its own text or label is the first of those given.
fn push_own(entry: Entry, texts: &[u8], labels: &[u8], text: &mut Vec<u8>) -> Result<(), AllocError>
    ensures { OnOk result (text.new.items ≡ text.old.items ++ own_json entry texts.now labels.now) }
{
    match entry {
        Entry::Leaf(count) => push_quoted(first(texts, count as usize), text),
        Entry::Node { away: true, .. } => Ok(()),
        Entry::Node {
            away: false,
            label,
            ..
        } => push_node(first(labels, label as usize), text),
    }
}

/// Appends the closing text of a node.
fn push_node(label: &[u8], text: &mut Vec<u8>) -> Result<(), AllocError>
    ensures { OnOk result (text.new.items ≡ text.old.items ++ (codes "],\"node\":" ++ (quoted label.now ++ codes "}"))) }
{
    text.extend_from_slice(b"],\"node\":")?;
    push_quoted(label, text)?;
    text.extend_from_slice(b"}")
}

/// The first `count` bytes.
fn first(bytes: &[u8], count: usize) -> &[u8]
    ensures { result.now ≡ take count bytes.now }
{
    &bytes[..count.min(bytes.len())]
}

/// The bytes after the first `count`.
fn rest(bytes: &[u8], count: usize) -> &[u8]
    ensures { result.now ≡ drop count bytes.now }
{
    &bytes[count.min(bytes.len())..]
}
