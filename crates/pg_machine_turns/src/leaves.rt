//! The forms that read the text themselves.

ghost use Rattle.std.specs.Prelude.{◌≡◌, ◌<◌, ◌≤◌, ◌+◌, ◌^◌, ◌++◌, ◌∷◌, [], false, nat_eq, length, drop, slice_get, Some, IfOk, OnOk, IfSome};
ghost use Rattle.std.specs.List.{list_any, prefix_len, common_prefix_len};
ghost use Rattle.std.specs.Str.{bytes_eq};
ghost use Rattle.pg_grammar_form.specs.ClassItems.{has_character};
ghost use Rattle.pg_grammar_value.specs.Sites.{class_at};
ghost use Rattle.pg_language.specs.Leaves.{taken, satisfy_outcome, string_outcome, word_outcome, word_read, not_followed_outcome, end_outcome};
ghost use Rattle.pg_message_tape.specs.Messages.{tape_message_of};
ghost use Rattle.pg_machine_turns.specs.Spots.{spot_at};
ghost use Rattle.pg_machine_turns.specs.Tape.{tape_with, tape_leaf};
ghost use Rattle.pg_machine_turns.specs.View.{on_lists, tape_of};
ghost use Rattle.pg_message_tape.specs.TapeErrors.{tape_error};
ghost use Rattle.pg_machine_turns.specs.declared.frame.Reply.TheVariants.{Succeeded, Failed};

use crate::frame::{Mode, Reply};
use crate::machine::Machine;
use pg_grammar_classes::ClassSite;
use pg_grammar_form::{ClassExpression, NodeId, WordId, WordItem};
use pg_grammar_value::Grammar;
use pg_message_tape::{Message, MessageTape, TapeError};
use pg_text::Text;
use std::alloc::AllocError;

impl<'a> Machine<'a> {
    /// Reads one character of the node's class.
    #[inline(always)]
    pub(crate) fn satisfy(
        &mut self,
        grammar: &Grammar,
        text: &Text,
        node: NodeId,
        class: &ClassExpression,
        place: usize,
    ) -> Result<Mode, AllocError>
        requires { class_at grammar.now (ClassSite.Node node) ≡ class.now }
        ensures { IfOk result (λ mode. tape_of mode self.new ≡
            on_lists (tape_leaf (satisfy_outcome grammar.now text.now class.now (spot_at self.old.table place))) self.old) }
    {
        match next_in(text, place) {
            Some(c) => {
                if node_has(grammar, node, class, c) {
                    return self.take(&[c], place, place + 1);
                }
                self.fail(false, place, Message::Stopped(Some(c)))
            }
            None => self.fail(false, place, Message::Stopped(None)),
        }
    }

    /// Reads all of these characters.
    #[inline(always)]
    pub(crate) fn string(
        &mut self,
        text: &'a Text,
        characters: &'a [char],
        place: usize,
    ) -> Result<Mode, AllocError>
        ensures { IfOk result (λ mode. tape_of mode self.new ≡
            on_lists (tape_leaf (string_outcome text.now characters.now (spot_at self.old.table place))) self.old) }
    {
        let rest = after(text.characters(), place);
        let count = matched(characters, rest);
        if count == characters.len() {
            return self.take(characters, place, place + count);
        }
        let next = character_at(rest, count);
        self.fail_wanting(
            count > 0,
            place,
            Message::Stopped(next),
            Message::Wanted(characters),
        )
    }

    /// Reads a word of the item: the whole word first, and then whether it is reserved.
    #[inline(always)]
    pub(crate) fn word(
        &mut self,
        grammar: &Grammar,
        text: &'a Text,
        word: WordId,
        item: &WordItem,
        place: usize,
    ) -> Result<Mode, AllocError>
        requires head { class_at grammar.now (ClassSite.Head word) ≡ item.now.head }
        requires rest { class_at grammar.now (ClassSite.Rest word) ≡ item.now.rest }
        ensures { IfOk result (λ mode. tape_of mode self.new ≡
            on_lists (tape_leaf (word_outcome grammar.now text.now item.now (spot_at self.old.table place))) self.old) }
    {
        match next_in(text, place) {
            Some(c) => {
                if !begins_word(grammar, word, item, c) {
                    return self.fail(false, place, Message::Stopped(Some(c)));
                }
                let rest = after(text.characters(), place + 1);
                let count = run_len(grammar, word, item, rest);
                let characters = &after(text.characters(), place)[..count + 1];
                self.read_word(item, characters, place)
            }
            None => self.fail(false, place, Message::Stopped(None)),
        }
    }

    /// The word that stands at the place, unless it is reserved.
    #[inline(always)]
    fn read_word(
        &mut self,
        item: &WordItem,
        word: &'a [char],
        place: usize,
    ) -> Result<Mode, AllocError>
        requires { place + length word.now < 2 ^ 64 }
        ensures { IfOk result (λ mode. tape_of mode self.new ≡
            on_lists (tape_leaf (word_read item.now (spot_at self.old.table place) word.now)) self.old) }
    {
        if item.reserved.contains(word) {
            return self.fail(false, place, Message::Reserved(word));
        }
        self.take(word, place, place + word.len())
    }

    /// Checks that no character of the class comes next.
    #[inline(always)]
    pub(crate) fn not_followed_by(
        &mut self,
        grammar: &Grammar,
        text: &Text,
        node: NodeId,
        class: &ClassExpression,
        place: usize,
    ) -> Result<Mode, AllocError>
        requires { class_at grammar.now (ClassSite.Node node) ≡ class.now }
        ensures { IfOk result (λ mode. tape_of mode self.new ≡
            on_lists (tape_leaf (not_followed_outcome grammar.now text.now class.now (spot_at self.old.table place))) self.old) }
    {
        match next_in(text, place) {
            Some(c) => {
                if node_has(grammar, node, class, c) {
                    return self.fail(false, place, Message::Refused(Some(c)));
                }
                self.stay(place, Message::Stopped(Some(c)))
            }
            None => self.stay(place, Message::Stopped(None)),
        }
    }

    /// Checks that the text ends.
    #[inline(always)]
    pub(crate) fn end_of_text(&mut self, text: &Text, place: usize) -> Result<Mode, AllocError>
        ensures { IfOk result (λ mode. tape_of mode self.new ≡
            on_lists (tape_leaf (end_outcome text.now (spot_at self.old.table place))) self.old) }
    {
        if place == text.len() {
            return self.stay_wanting(place, Message::Stopped(None), Message::WantedEnd);
        }
        let next = text.char_at(place);
        self.fail_wanting(false, place, Message::Refused(next), Message::WantedEnd)
    }

    /// An ok answer that consumed these characters, with one leaf.
    #[inline(always)]
    fn take(&mut self, characters: &[char], place: usize, end: usize) -> Result<Mode, AllocError>
        requires { end ≡ place + length characters.now }
        ensures { IfOk result (λ mode. tape_of mode self.new ≡
            on_lists (tape_leaf (taken (spot_at self.old.table place) characters.now)) self.old) }
    {
        self.lists.forest.push_leaf(characters)?;
        let consumed = true;
        let error = self.lists.no_messages_at(end);
        Ok(Mode::With(Reply::Succeeded {
            consumed,
            end,
            error,
        }))
    }

    /// A failure with this message.
    #[inline(always)]
    pub(crate) fn fail(
        &mut self,
        consumed: bool,
        place: usize,
        message: Message<'a>,
    ) -> Result<Mode, AllocError>
        ensures { IfOk result (λ mode. tape_of mode self.new ≡
            tape_with (Failed consumed (tape_error place (length self.old.lists.messages)))
            self.old.frames self.old.lists.forest self.old.lists.trail.items (self.old.lists.messages ++ tape_message_of message.entry ∷ [])
            self.old.table) }
    {
        let error = said(&mut self.lists.messages, place, message)?;
        Ok(Mode::With(Reply::Failed { consumed, error }))
    }

    /// A failure with this message and what was expected.
    #[inline(always)]
    pub(crate) fn fail_wanting(
        &mut self,
        consumed: bool,
        place: usize,
        message: Message<'a>,
        wanted: Message<'a>,
    ) -> Result<Mode, AllocError>
        ensures { IfOk result (λ mode. tape_of mode self.new ≡
            tape_with (Failed consumed (tape_error place (length self.old.lists.messages)))
            self.old.frames self.old.lists.forest self.old.lists.trail.items
            (self.old.lists.messages ++ tape_message_of message.entry ∷ tape_message_of wanted.entry ∷ []) self.old.table) }
    {
        let error = both_said(&mut self.lists.messages, place, message, wanted)?;
        Ok(Mode::With(Reply::Failed { consumed, error }))
    }

    /// An ok answer that consumed nothing, with this message.
    #[inline(always)]
    fn stay(&mut self, place: usize, message: Message<'a>) -> Result<Mode, AllocError>
        ensures { IfOk result (λ mode. tape_of mode self.new ≡
            tape_with (Succeeded false place (tape_error place (length self.old.lists.messages)))
            self.old.frames self.old.lists.forest self.old.lists.trail.items (self.old.lists.messages ++ tape_message_of message.entry ∷ [])
            self.old.table) }
    {
        let error = said(&mut self.lists.messages, place, message)?;
        let (consumed, end) = (false, place);
        Ok(Mode::With(Reply::Succeeded {
            consumed,
            end,
            error,
        }))
    }

    /// An ok answer that consumed nothing, with this message and what was expected.
    #[inline(always)]
    fn stay_wanting(
        &mut self,
        place: usize,
        message: Message<'a>,
        wanted: Message<'a>,
    ) -> Result<Mode, AllocError>
        ensures { IfOk result (λ mode. tape_of mode self.new ≡
            tape_with (Succeeded false place (tape_error place (length self.old.lists.messages)))
            self.old.frames self.old.lists.forest self.old.lists.trail.items
            (self.old.lists.messages ++ tape_message_of message.entry ∷ tape_message_of wanted.entry ∷ []) self.old.table) }
    {
        let error = both_said(&mut self.lists.messages, place, message, wanted)?;
        let (consumed, end) = (false, place);
        Ok(Mode::With(Reply::Succeeded {
            consumed,
            end,
            error,
        }))
    }
}

/// An error at the place with this message.
#[inline(always)]
fn said<'a>(
    messages: &mut MessageTape<'a>,
    place: usize,
    message: Message<'a>,
) -> Result<TapeError, AllocError>
    ensures error { IfOk result (λ error. error ≡ tape_error place (length messages.old)) }
    ensures messages { OnOk result (messages.new ≡ messages.old ++ tape_message_of message.entry ∷ []) }
{
    let from = messages.len();
    messages.push(message)?;
    Ok(TapeError { place, from })
}

/// An error at the place with this message and what was expected.
#[inline(always)]
fn both_said<'a>(
    messages: &mut MessageTape<'a>,
    place: usize,
    message: Message<'a>,
    wanted: Message<'a>,
) -> Result<TapeError, AllocError>
    ensures error { IfOk result (λ error. error ≡ tape_error place (length messages.old)) }
    ensures messages { OnOk result (messages.new ≡ messages.old ++ tape_message_of message.entry ∷ tape_message_of wanted.entry ∷ []) }
{
    let error = said(messages, place, message)?;
    messages.push(wanted)?;
    Ok(error)
}

/// The character at the place of the text, if there is one.
fn next_in(text: &Text, place: usize) -> Option<char>
    ensures value { result ≡ slice_get text.now place }
    ensures within { IfSome result (λ c. place < length text.now) }
    ensures limit { length text.now ≤ 1048576 }
{
    character_at(text.characters(), place)
}

/// The characters from the place on.
fn after(characters: &[char], place: usize) -> &[char]
    ensures { result.now ≡ drop place characters.now }
{
    &characters[place.min(characters.len())..]
}

/// The character at the place, if there is one.
fn character_at(characters: &[char], place: usize) -> Option<char>
    ensures { result ≡ slice_get characters.now place }
{
    characters.get(place).copied()
}

/// How many of the characters stand at the front of `rest`.
fn matched(characters: &[char], rest: &[char]) -> usize
    ensures value { result ≡ common_prefix_len nat_eq characters.now rest.now }
    ensures within { result ≤ length rest.now }
{
    let mut count = 0;
    for wanted in characters {
        if character_at(rest, count) != Some(*wanted) {
            break;
        }
        count += 1;
    }
    count
}

/// Whether the node's class has the character.
#[inline(always)]
fn node_has(grammar: &Grammar, node: NodeId, class: &ClassExpression, c: char) -> bool
    requires { class_at grammar.now (ClassSite.Node node) ≡ class.now }
    ensures { result ≡ has_character grammar.now.classes class.now c }
{
    grammar.contains(ClassSite::Node(node), c)
}

/// Whether a word of the item can begin with the character.
#[inline(always)]
fn begins_word(grammar: &Grammar, word: WordId, item: &WordItem, c: char) -> bool
    requires { class_at grammar.now (ClassSite.Head word) ≡ item.now.head }
    ensures { result ≡ has_character grammar.now.classes item.now.head c }
{
    grammar.contains(ClassSite::Head(word), c)
}

/// Whether a word of the item can continue with the character.
#[inline(always)]
fn goes_on(grammar: &Grammar, word: WordId, item: &WordItem, c: char) -> bool
    requires { class_at grammar.now (ClassSite.Rest word) ≡ item.now.rest }
    ensures { result ≡ has_character grammar.now.classes item.now.rest c }
{
    grammar.contains(ClassSite::Rest(word), c)
}

/// How many of these characters can continue a word of the item.
fn run_len(grammar: &Grammar, word: WordId, item: &WordItem, characters: &[char]) -> usize
    requires { class_at grammar.now (ClassSite.Rest word) ≡ item.now.rest }
    ensures value { result ≡ prefix_len (has_character grammar.now.classes item.now.rest) characters.now }
    ensures within { result ≤ length characters.now }
{
    let mut count = 0;
    for c in characters {
        if !goes_on(grammar, word, item, *c) {
            break;
        }
        count += 1;
    }
    count
}
