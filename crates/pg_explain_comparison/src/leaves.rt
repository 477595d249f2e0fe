//! Where leaves can end. They end where they are read, but a declaration may end anywhere.

use pg_grammar_classes::ClassSite;
use pg_grammar_form::{Leaf, NodeId, WordId};
use pg_grammar_value::Grammar;

/// The places where a leaf that begins at this place can end, one bit each.
pub(crate) fn leaf_ends(
    grammar: &Grammar,
    text: &[char],
    node: NodeId,
    leaf: &Leaf<WordId>,
    place: usize,
) -> u32 {
    let here = bit(place);
    match leaf {
        Leaf::Satisfy(_) => only_where(has(grammar, text, ClassSite::Node(node), place), here << 1),
        Leaf::NotFollowedBy(_) => only_where(
            !has(grammar, text, ClassSite::Node(node), place),
            here,
        ),
        Leaf::String(string) => string_end(text, string.as_slice(), place),
        Leaf::Word(word) => word_end(grammar, text, *word, place),
        Leaf::EndOfText => only_where(place == text.len(), here),
        Leaf::Declare(_) => only_where(begins_declaration(text, place), !0),
    }
}

/// The bit of a place.
pub(crate) fn bit(place: usize) -> u32 {
    if place < 32 { 1 << place } else { 0 }
}

/// Whether a place is among these.
pub(crate) fn is_among(places: u32, place: usize) -> bool {
    places & bit(place) != 0
}

/// These places if the condition holds, else none.
fn only_where(is_so: bool, places: u32) -> u32 {
    if is_so { places } else { 0 }
}

/// Whether the class at the site has the character at the place.
pub(crate) fn has(grammar: &Grammar, text: &[char], site: ClassSite, place: usize) -> bool {
    match text.get(place) {
        Some(c) => grammar.contains(site, *c),
        None => false,
    }
}

/// Where the string ends if it stands at the place.
fn string_end(text: &[char], string: &[char], place: usize) -> u32 {
    let end = place.saturating_add(string.len());
    match text.get(place..end) {
        Some(found) if found == string => bit(end),
        Some(_) | None => 0,
    }
}

/// Where a word ends that stands at the place and isn't reserved.
fn word_end(grammar: &Grammar, text: &[char], word: WordId, place: usize) -> u32 {
    if !has(grammar, text, ClassSite::Head(word), place) {
        return 0;
    }
    let mut end = place.saturating_add(1);
    for _ in place..text.len() {
        if has(grammar, text, ClassSite::Rest(word), end) {
            end = end.saturating_add(1);
        }
    }
    match (text.get(place..end), grammar.word_items().get(word.index())) {
        (Some(found), Some(item)) if !item.reserved.contains(found) => bit(end),
        (_, _) => 0,
    }
}

/// Whether a declaration could begin at the place.
fn begins_declaration(text: &[char], place: usize) -> bool {
    matches!(text.get(place), Some('i' | 'p'))
}
