//! What leaves read.

ghost use Rattle.std.specs.Prelude.{◌≡◌, ◌≤◌, nat_eq, length, drop, slice_get, Some, IfSome};
ghost use Rattle.std.specs.List.{common_prefix_len, prefix_len};
ghost use Rattle.pg_grammar_form.specs.ClassItems.{has_character};
ghost use Rattle.pg_grammar_value.specs.Sites.{class_at};
ghost use Rattle.pg_language.specs.Leaves.{satisfy_outcome, not_followed_outcome, string_outcome, end_outcome};
ghost use Rattle.pg_machine_quick.specs.Readings.{Reads, IsReadAt, IsUndeclaredAt, IsWordReadAt};
ghost use Rattle.pg_machine_quick.specs.Tape.{spot_at};
ghost use Rattle.pg_table.specs.Tables.{Table};

use pg_grammar_classes::ClassSite;
use pg_grammar_form::{Leaf, Node, NodeId, WordId, WordItem};
use pg_grammar_value::Grammar;
use pg_language_declarations::{Declaration, declaration_at};
use pg_text::Text;

/// What a leaf reads.
#[derive(Clone, Copy)]
pub enum Reading {
    /// So many characters.
    Took(usize),
    /// Nothing, and it is ok.
    Nothing,
    /// It fails, and says whether something was consumed.
    Failed(bool),
}

/// What the leaf at a node reads at the place. None where the node isn't a leaf, or where the text declares an operator, since the table changes then.
#[inline(always)]
pub(crate) fn reading_at(
    grammar: &Grammar,
    text: &Text,
    id: NodeId,
    node: &Node,
    place: usize,
) -> Option<Reading>
    requires { slice_get grammar.now.nodes id ≡ Some node.now }
    ensures { IfSome result (λ reading. (table : Table) → IsReadAt grammar.now text.now table place node.now reading) }
{
    match node.leaf()? {
        Leaf::Satisfy(_) => Some(satisfy(grammar, text, id, place)),
        Leaf::String(characters) => Some(string(text, characters.as_slice(), place)),
        Leaf::NotFollowedBy(_) => Some(not_followed(grammar, text, id, place)),
        Leaf::EndOfText => Some(end(text, place)),
        Leaf::Word(number) => word(grammar, text, *number, place),
        Leaf::Declare(_) => undeclared(grammar, text, id, place),
    }
}

/// Reads one character of the node's class.
#[inline(always)]
pub(crate) fn satisfy(grammar: &Grammar, text: &Text, node: NodeId, place: usize) -> Reading
    ensures { (table : Table) → Reads text.now table place (satisfy_outcome grammar.now text.now (class_at grammar.now (ClassSite.Node node)) (spot_at table place)) result }
{
    match text.char_at(place) {
        Some(c) => {
            if grammar.contains(ClassSite::Node(node), c) {
                Reading::Took(1)
            } else {
                Reading::Failed(false)
            }
        }
        None => Reading::Failed(false),
    }
}

/// Checks that no character of the node's class comes next.
#[inline(never)]
pub(crate) fn not_followed(grammar: &Grammar, text: &Text, node: NodeId, place: usize) -> Reading
    ensures { (table : Table) → Reads text.now table place (not_followed_outcome grammar.now text.now (class_at grammar.now (ClassSite.Node node)) (spot_at table place)) result }
{
    match text.char_at(place) {
        Some(c) => {
            if grammar.contains(ClassSite::Node(node), c) {
                Reading::Failed(false)
            } else {
                Reading::Nothing
            }
        }
        None => Reading::Nothing,
    }
}

/// Checks that the text ends.
pub(crate) fn end(text: &Text, place: usize) -> Reading
    ensures { (table : Table) → Reads text.now table place (end_outcome text.now (spot_at table place)) result }
{
    if place == text.len() {
        Reading::Nothing
    } else {
        Reading::Failed(false)
    }
}

/// Reads all of these characters, one after another.
#[inline(never)]
pub(crate) fn string(text: &Text, characters: &[char], place: usize) -> Reading
    ensures { (table : Table) → Reads text.now table place (string_outcome text.now characters.now (spot_at table place)) result }
{
    let count = matched(characters, after(text.characters(), place));
    if count == characters.len() {
        Reading::Took(count)
    } else {
        Reading::Failed(count > 0)
    }
}

/// How a declaration fails. None where the text declares an operator.
#[inline(never)]
fn undeclared(grammar: &Grammar, text: &Text, node: NodeId, place: usize) -> Option<Reading>
    ensures { IfSome result (λ reading. (table : Table) → IsUndeclaredAt grammar.now text.now table place (class_at grammar.now (ClassSite.Node node)) reading) }
{
    let item = grammar.operators_item()?;
    match declaration_at(grammar, text, item, ClassSite::Node(node), place) {
        Declaration::NoKeyword => Some(Reading::Failed(false)),
        Declaration::NoDigit(_) => Some(Reading::Failed(true)),
        Declaration::NoSymbol(_) => Some(Reading::Failed(true)),
        Declaration::Declared(_) => None,
    }
}

/// Reads a word of the item with this number. None where there is no such item.
#[inline(never)]
fn word(grammar: &Grammar, text: &Text, number: WordId, place: usize) -> Option<Reading>
    ensures { IfSome result (λ reading. (table : Table) → IsWordReadAt grammar.now text.now table place number reading) }
{
    match grammar.word_items().get(number.index()) {
        Some(item) => Some(word_of(grammar, text, number, item, place)),
        None => None,
    }
}

/// Reads a word of the item: the whole word first, and then whether it is reserved.
fn word_of(grammar: &Grammar, text: &Text, number: WordId, item: &WordItem, place: usize) -> Reading
    requires { slice_get grammar.now.words number ≡ Some item.now }
    ensures { (table : Table) → IsWordReadAt grammar.now text.now table place number result }
{
    let there = after(text.characters(), place);
    match there {
        [] => Reading::Failed(false),
        [first, ..] => {
            if !grammar.contains(ClassSite::Head(number), *first) {
                return Reading::Failed(false);
            }
            let count = counted(grammar, ClassSite::Rest(number), after(there, 1));
            if item.reserved.contains(&there[..count + 1]) {
                Reading::Failed(false)
            } else {
                Reading::Took(count + 1)
            }
        }
    }
}

/// How many of these characters stand at the front, one after another.
fn matched(characters: &[char], rest: &[char]) -> usize
    ensures { result ≡ common_prefix_len nat_eq characters.now rest.now }
{
    let mut count = 0;
    for wanted in characters {
        match rest.get(count) {
            Some(found) => {
                if *found != *wanted {
                    return count;
                }
            }
            None => return count,
        }
        count += 1;
    }
    count
}

/// The characters from the place on.
pub(crate) fn after(characters: &[char], place: usize) -> &[char]
    ensures { result.now ≡ drop place characters.now }
{
    &characters[place.min(characters.len())..]
}

/// How many characters of the class stand at the front, one after another.
#[inline(always)]
pub(crate) fn counted(grammar: &Grammar, class: ClassSite, characters: &[char]) -> usize
    ensures value { result ≡ prefix_len (has_character grammar.now.classes (class_at grammar.now class)) characters.now }
    ensures within { result ≤ length characters.now }
{
    counted_of(grammar, &class, characters)
}

/// The same of a class that is lent.
#[inline(always)]
fn counted_of(grammar: &Grammar, class: &ClassSite, characters: &[char]) -> usize
    ensures value { result ≡ prefix_len (has_character grammar.now.classes (class_at grammar.now class.now)) characters.now }
    ensures within { result ≤ length characters.now }
{
    let mut count = 0;
    for c in characters {
        if !grammar.contains(*class, *c) {
            return count;
        }
        count += 1;
    }
    count
}
