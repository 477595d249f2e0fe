//! The forms that read the text themselves.

ghost use Rattle.std.specs.Prelude.{◌≡◌, ◌<◌, ◌≤◌, ◌+◌, ◌-◌, ◌∷◌, slice_get, length, drop, option_copied, Some, true, IfOk, IfSome};
ghost use Rattle.std.specs.List.{list_any};
ghost use Rattle.std.specs.Str.{bytes_eq};
ghost use Rattle.pg_grammar_form.specs.Operators.{IsOperator};
ghost use Rattle.pg_grammar_form.specs.ClassItems.{has_character};
ghost use Rattle.pg_grammar_value.specs.Sites.{class_at};
ghost use Rattle.pg_table.specs.Tables.{admit_fault};
ghost use Rattle.pg_grammar_form.specs.declared.form.Form.TheVariants as form;
ghost use Rattle.pg_language_declarations.specs.Views.{operator_of};
ghost use Rattle.pg_language.specs.Runs.{run_at, stands_at};
ghost use Rattle.pg_trail_replay.specs.Tasks.{told, next_in, satisfied, spelled, unreserved, word_by, word_from, takes, stays_if, declares, declare_turn, leaf_turn};
ghost use Rattle.pg_trail_replay.specs.View.{state_of};

use crate::replay_fault::Mismatch;
use crate::replayer::Replayer;
use crate::task::Halt;
use pg_grammar_classes::ClassSite;
use pg_grammar_form::{ClassExpression, Leaf, NodeId, OperatorsItem, WordId, WordItem};
use pg_grammar_value::Grammar;
use pg_language_declarations::{Declaration, Declared, declaration_at, run_of};
use pg_text::Text;
use std::alloc::{AllocError, Global};

impl Replayer<'_> {
    /// Reads a leaf, or stops.
    #[tactic(auto, using(crate::proofs::LeafClasses::satisfy_class, crate::proofs::LeafClasses::not_followed_class, crate::proofs::LeafClasses::declare_class))]
    pub(crate) fn leaf(
        &mut self,
        alloc: Global,
        grammar: &Grammar,
        text: &Text,
        node: NodeId,
        leaf: &Leaf<WordId>,
    ) -> Result<Option<Halt>, AllocError>
        requires { slice_get grammar.now.nodes node ≡ Some (form.Leaf leaf.now) }
        ensures { IfOk result (λ halt. told halt (state_of self.new) ≡ leaf_turn grammar.now text.now leaf.now (state_of self.old)) }
    {
        let place = self.place;
        match leaf {
            Leaf::Satisfy(class) => self.take(text, satisfied(grammar, text, node, class, place)),
            Leaf::String(s) => self.take(text, spelled(text, s.as_slice(), place)),
            Leaf::Word(word) => self.take(text, word_at(grammar, text, *word, place)),
            Leaf::NotFollowedBy(class) => {
                Ok(stays_if(!next_in(grammar, node, class, text.char_at(place))))
            }
            Leaf::EndOfText => Ok(stays_if(place == text.len())),
            Leaf::Declare(class) => self.declare(alloc, grammar, text, node, class),
        }
    }

    /// Consumes this many characters, as one tree.
    fn take(&mut self, text: &Text, count: Option<usize>) -> Result<Option<Halt>, AllocError>
        requires { IfSome count (λ n. n ≤ length text.now - self.old.place) }
        ensures { IfOk result (λ halt. told halt (state_of self.new) ≡ takes text.now count (state_of self.old)) }
    {
        match count {
            Some(count) => {
                let rest = after(text, self.place);
                self.forest.push_leaf(&rest[..count])?;
                self.move_to(self.place + count);
                Ok(None)
            }
            None => Ok(Some(Halt::Stopped(Mismatch::TextDiffers))),
        }
    }

    /// Reads a declaration by the operators item, if there is one.
    fn declare(
        &mut self,
        alloc: Global,
        grammar: &Grammar,
        text: &Text,
        node: NodeId,
        class: &ClassExpression,
    ) -> Result<Option<Halt>, AllocError>
        requires { class_at grammar.now (ClassSite.Node node) ≡ class.now }
        ensures { IfOk result (λ halt. told halt (state_of self.new) ≡ declare_turn grammar.now text.now class.now grammar.now.operators (state_of self.old)) }
    {
        match grammar.operators_item() {
            Some(item) => match declaration_at(
                grammar,
                text,
                item,
                ClassSite::Node(node),
                self.place,
            ) {
                Declaration::NoKeyword | Declaration::NoDigit(_) | Declaration::NoSymbol(_) => Ok(
                    Some(Halt::Stopped(Mismatch::TextDiffers)),
                ),
                Declaration::Declared(declared) => self.admit(alloc, declared),
            },
            None => Ok(Some(Halt::Stopped(Mismatch::TextDiffers))),
        }
    }

    /// Appends the operator to the table, unless it is refused.
    fn admit(&mut self, alloc: Global, declared: Declared<'_>) -> Result<Option<Halt>, AllocError>
        requires { IsOperator (operator_of declared) }
        ensures { IfOk result (λ halt. told halt (state_of self.new) ≡
            declares (operator_of declared.entry) declared.entry.end (admit_fault self.old.table (operator_of declared.entry)) (state_of self.old)) }
    {
        let operator = declared.operator(alloc)?;
        if self.table.admit(&operator).is_err() {
            return Ok(Some(Halt::Stopped(Mismatch::NotAdmitted)));
        }
        self.forest.push(declared.tree(alloc)?)?;
        self.table.extend(operator)?;
        self.move_to(declared.end);
        Ok(None)
    }
}

/// Consumes nothing, and stops unless `so`.
fn stays_if(so: bool) -> Option<Halt>
    ensures { (s : _) → told result s ≡ stays_if so s }
{
    if so {
        None
    } else {
        Some(Halt::Stopped(Mismatch::TextDiffers))
    }
}

/// Whether a character of the class comes next.
fn next_in(grammar: &Grammar, node: NodeId, class: &ClassExpression, next: Option<char>) -> bool
    requires { class_at grammar.now (ClassSite.Node node) ≡ class.now }
    ensures { result ≡ next_in grammar.now class.now next }
{
    match next {
        Some(c) => grammar.contains(ClassSite::Node(node), c),
        None => false,
    }
}

/// The length of one character of the class.
fn satisfied(
    grammar: &Grammar,
    text: &Text,
    node: NodeId,
    class: &ClassExpression,
    place: usize,
) -> Option<usize>
    requires { class_at grammar.now (ClassSite.Node node) ≡ class.now }
    ensures value { result ≡ satisfied grammar.now text.now class.now place }
    ensures within { IfSome result (λ n. n ≤ length text.now - place) }
{
    if next_in(grammar, node, class, text.char_at(place)) {
        return Some(1);
    }
    None
}

/// The length of these characters, if they stand at the place.
#[tactic(auto, using(crate::proofs::Characters::stands_short))]
fn spelled(text: &Text, characters: &[char], place: usize) -> Option<usize>
    ensures value { result ≡ spelled text.now characters.now place }
    ensures within { IfSome result (λ n. n ≤ length text.now - place) }
{
    if stands_at(text, place, characters) {
        return Some(characters.len());
    }
    None
}

/// Whether the characters stand at the place.
fn stands_at(text: &Text, place: usize, characters: &[char]) -> bool
    ensures { result ≡ stands_at text.now place characters.now }
{
    after(text, place).starts_with(characters)
}

/// The characters from the place on.
pub(crate) fn after(text: &Text, place: usize) -> &[char]
    ensures value { result.now ≡ drop place text.now }
    ensures count { length result.now ≡ length text.now - place }
    ensures limit { length text.now ≤ 1048576 }
{
    let characters = text.characters();
    &characters[place.min(characters.len())..]
}

/// The character at the place, if there is one.
fn next_at(text: &Text, place: usize) -> Option<char>
    ensures value { result ≡ slice_get text.now place }
    ensures within { IfSome result (λ c. place < length text.now) }
    ensures limit { length text.now ≤ 1048576 }
{
    text.characters().get(place).copied()
}

/// The length of a word of the item with this number.
#[tactic(auto, using(pg_grammar_value::proofs::Sites::class_at_head, pg_grammar_value::proofs::Sites::class_at_rest))]
fn word_at(grammar: &Grammar, text: &Text, word: WordId, place: usize) -> Option<usize>
    ensures value { result ≡ word_by grammar.now text.now place (slice_get grammar.now.words word) }
    ensures within { IfSome result (λ n. n ≤ length text.now - place) }
{
    match item_at(grammar.word_items(), word.index()) {
        Some(item) => word_of(grammar, text, word, item, place),
        None => None,
    }
}

/// The word item with this number, if there is one.
fn item_at(items: &[WordItem], number: usize) -> Option<&WordItem>
    ensures { option_copied result ≡ slice_get items.now number }
{
    items.get(number)
}

/// The length of a word of the item.
#[tactic(auto, using(crate::proofs::Characters::whole_word, crate::proofs::Characters::run_short))]
fn word_of(
    grammar: &Grammar,
    text: &Text,
    word: WordId,
    item: &WordItem,
    place: usize,
) -> Option<usize>
    requires head { class_at grammar.now (ClassSite.Head word) ≡ item.now.head }
    requires rest { class_at grammar.now (ClassSite.Rest word) ≡ item.now.rest }
    ensures value { result ≡ word_from grammar.now text.now item.now place (slice_get text.now place) }
    ensures within { IfSome result (λ n. n ≤ length text.now - place) }
{
    match next_at(text, place) {
        Some(c) => {
            if !begins_word(grammar, word, item, c) {
                return None;
            }
            let count = rest_at(grammar, text, word, item, place + 1).len() + 1;
            unreserved(item, &after(text, place)[..count])
        }
        None => None,
    }
}

/// Whether a word of the item can begin with the character.
fn begins_word(grammar: &Grammar, word: WordId, item: &WordItem, c: char) -> bool
    requires { class_at grammar.now (ClassSite.Head word) ≡ item.now.head }
    ensures { result ≡ has_character grammar.now.classes item.now.head c }
{
    grammar.contains(ClassSite::Head(word), c)
}

/// The characters at the place that can continue a word of the item.
fn rest_at<'a>(
    grammar: &Grammar,
    text: &'a Text,
    word: WordId,
    item: &WordItem,
    place: usize,
) -> &'a [char]
    requires rest { class_at grammar.now (ClassSite.Rest word) ≡ item.now.rest }
    requires place { place ≤ length text.now }
    ensures value { result.now ≡ run_at grammar.now text.now item.now.rest place }
    ensures within { place + length result.now ≤ length text.now }
    ensures limit { length text.now ≤ 1048576 }
{
    run_of(grammar, text, ClassSite::Rest(word), place)
}

/// The length of the word, unless it is reserved.
fn unreserved(item: &WordItem, word: &[char]) -> Option<usize>
    ensures value { result ≡ unreserved item.now word.now }
    ensures count { IfSome result (λ n. n ≡ length word.now) }
{
    if item.reserved.contains(word) {
        return None;
    }
    Some(word.len())
}
