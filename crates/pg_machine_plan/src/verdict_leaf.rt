//! Verdicts on leaves, by the next character.

ghost use Rattle.std.specs.Prelude.{◌≡◌, slice_get, Some};
ghost use Rattle.std.specs.List.{list_any};
ghost use Rattle.pg_grammar_form.specs.declared.form.Form.TheVariants as form;
ghost use Rattle.pg_grammar_value.specs.Sites.{class_at};
ghost use Rattle.pg_machine_plan.specs.Verdicts.{begins_with, end_verdict, first_verdict, leaf_verdict, not_followed_verdict, on_class, on_head, satisfy_verdict, string_verdict, word_verdict};

use crate::next::Next;
use crate::verdict::Verdict;
use pg_grammar_classes::ClassSite;
use pg_grammar_form::{Leaf, NodeId, WordId};
use pg_grammar_value::Grammar;
use pg_text::Characters;

/// The verdict on the leaf at a node.
pub(crate) fn leaf_verdict(
    grammar: &Grammar,
    id: NodeId,
    leaf: &Leaf<WordId>,
    next: Next,
) -> Verdict
    requires { slice_get grammar.now.nodes id ≡ Some (form.Leaf leaf.now) }
    ensures { result ≡ leaf_verdict grammar.now leaf.now next }
{
    match leaf {
        Leaf::Satisfy(_) => satisfy_verdict(grammar, id, next),
        Leaf::String(characters) => string_verdict(characters.as_slice(), next),
        Leaf::Word(word) => word_verdict(grammar, *word, next),
        Leaf::NotFollowedBy(_) => not_followed_verdict(grammar, id, next),
        Leaf::EndOfText => end_verdict(next),
        Leaf::Declare(_) => Verdict::Unknown,
    }
}

/// That on one character of the node's class.
fn satisfy_verdict(grammar: &Grammar, node: NodeId, next: Next) -> Verdict
    ensures { result ≡ satisfy_verdict grammar.now (class_at grammar.now (ClassSite.Node node)) next }
{
    match next {
        Next::Ascii(c) => on_class(grammar.contains(ClassSite::Node(node), c)),
        Next::Other => Verdict::Unknown,
        Next::End => Verdict::Fails(0),
    }
}

/// That on what no character of the node's class may follow.
fn not_followed_verdict(grammar: &Grammar, node: NodeId, next: Next) -> Verdict
    ensures { result ≡ not_followed_verdict grammar.now (class_at grammar.now (ClassSite.Node node)) next }
{
    match next {
        Next::Ascii(c) => {
            if grammar.contains(ClassSite::Node(node), c) {
                Verdict::Fails(0)
            } else {
                Verdict::Empty(0)
            }
        }
        Next::Other => Verdict::Unknown,
        Next::End => Verdict::Empty(0),
    }
}

/// That on a string, by its first character.
fn string_verdict(characters: &[char], next: Next) -> Verdict
    ensures { result ≡ string_verdict characters.now next }
{
    match characters.first() {
        Some(first) => first_verdict(*first, next),
        None => Verdict::Unknown,
    }
}

/// That on a string with this first character.
fn first_verdict(first: char, next: Next) -> Verdict
    ensures { result ≡ first_verdict first next }
{
    match next {
        Next::Ascii(c) => on_class(first == c),
        Next::Other => {
            if (first as u32) < 128 {
                Verdict::Fails(0)
            } else {
                Verdict::Unknown
            }
        }
        Next::End => Verdict::Fails(0),
    }
}

/// That on a word.
fn word_verdict(grammar: &Grammar, word: WordId, next: Next) -> Verdict
    ensures { result ≡ word_verdict grammar.now (slice_get grammar.now.words word) next }
{
    let Some(item) = grammar.word_items().get(word.index()) else {
        return Verdict::Unknown;
    };
    match next {
        Next::Ascii(c) => on_head(
            grammar.contains(ClassSite::Head(word), c),
            begins_one(item.reserved.as_slice(), c),
        ),
        Next::Other => Verdict::Unknown,
        Next::End => Verdict::Fails(0),
    }
}

/// That on the end of the text.
fn end_verdict(next: Next) -> Verdict
    ensures { result ≡ end_verdict next }
{
    match next {
        Next::Ascii(_) | Next::Other => Verdict::Fails(0),
        Next::End => Verdict::Unknown,
    }
}

/// By whether the next character is one that is taken.
fn on_class(has: bool) -> Verdict
    ensures { result ≡ on_class has }
{
    if has {
        Verdict::Takes
    } else {
        Verdict::Fails(0)
    }
}

/// By whether the next character begins a word, and whether it begins a reserved text.
fn on_head(head: bool, reserved: bool) -> Verdict
    ensures { result ≡ on_head head reserved }
{
    if !head {
        Verdict::Fails(0)
    } else if reserved {
        Verdict::Unknown
    } else {
        Verdict::Takes
    }
}

/// Whether one of the texts begins with the character.
fn begins_one(texts: &[Characters], c: char) -> bool
    ensures { result ≡ list_any (begins_with c) texts.now }
{
    texts.iter().any(|text| begins_with(text.as_slice(), c))
}

/// Whether a text begins with the character.
fn begins_with(text: &[char], c: char) -> bool
    ensures { result ≡ begins_with c text.now }
{
    match text.first() {
        Some(first) => *first == c,
        None => false,
    }
}
