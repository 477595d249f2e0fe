//! Going along the tokens of a file: what stands around the next one.

ghost use Rattle.std.specs.Prelude.{◌≡◌, [], ◌∷◌, drop, OnOk};
ghost use Rattle.pg_file_tokens.specs.View.{token_of};
ghost use Rattle.pg_server_names.specs.Surroundings.{Standing, at_first, innermost, has_group, opened, with_comma, wanted, after_mark};
ghost use Rattle.pg_server_names.specs.Senses.{is_ended, is_in_word, is_part_word, sense_where, sense_behind, sense_free, sense_of, before_form, before_word, before_name, in_item, after_name, after_token};

use crate::sense::{NameKind, Sense};
use crate::standing::{Before, Group, ItemWord, Next, Wanted, begun, wanted_by};
use pg_file_items::{FormWord, form_word, is_reserved};
use pg_file_tokens::{Mark, Token, is_word};
use std::alloc::{AllocError, Global};
use std::collections::VecDeque;
use std::marker::Model;

/// What stands around a token: the item, the parentheses that are open, and the token before.
#[derive(Drop)]
pub struct Surroundings {
    item: Option<ItemWord>,
    /// The innermost first.
    groups: VecDeque<Group>,
    before: Before,
}

impl Model for Surroundings {
    ghost use Rattle.pg_server_names.specs.Surroundings.{Standing};

    ghost Value = { Standing };

    ghost view = { λ s. record { item = s.item; groups = s.groups.items; before = s.before } };
}

impl Surroundings {
    /// Before the first token of a file. It takes no memory.
    pub fn new(alloc: Global) -> Surroundings
        ensures { result ≡ at_first }
    {
        Surroundings {
            item: None,
            groups: VecDeque::new(alloc),
            before: Before::Other,
        }
    }

    /// The item that it is in, if one has begun.
    pub fn item(&self) -> Option<ItemWord>
        ensures { result ≡ self.now.item }
    {
        self.item
    }

    /// The token before.
    pub fn before(&self) -> Before
        ensures { result ≡ self.now.before }
    {
        self.before
    }

    /// The innermost parenthesis that is open; one of no form, if none is.
    pub fn innermost(&self) -> Group
        ensures { result ≡ innermost self.now.groups }
    {
        match self.groups.front() {
            Some(group) => *group,
            None => Group {
                form: None,
                argument: 0,
            },
        }
    }

    /// Whether a parenthesis is open.
    pub fn is_in_group(&self) -> bool
        ensures { result ≡ has_group self.now.groups }
    {
        !self.groups.is_empty()
    }

    /// What is wanted here.
    #[tactic(auto, unfolding(crate::specs::Surroundings::wanted))]
    pub fn wanted(&self) -> Wanted
        ensures { result ≡ wanted self.now }
    {
        wanted_by(self.innermost(), self.item)
    }

    /// Whether it is outside of the parentheses of a `word` item.
    fn is_in_word(&self) -> bool
        ensures { result ≡ is_in_word self.now.item self.now.groups }
    {
        matches!(self.item, Some(ItemWord::Word)) && self.groups.is_empty()
    }

    /// Whether a name here is `head` or `rest` of a `word` item.
    fn is_part_word(&self, name: &[char]) -> bool
        ensures { result ≡ is_part_word self.now name.now }
    {
        self.is_in_word()
            && is_ended(self.before)
            && (is_word("head", name) || is_word("rest", name))
    }

    /// What a name is that stands here.
    #[tactic(auto, unfolding(crate::specs::Senses::sense_of))]
    pub fn sense(&self, name: &[char], next: Next) -> Sense
        ensures { result ≡ sense_of self.now name.now next }
    {
        if is_reserved(name) || self.is_part_word(name) {
            Sense::Keyword
        } else if begun(self.before, name, next).is_some() {
            Sense::Defines(NameKind::Rule)
        } else {
            sense_behind(self.before, self.wanted())
        }
    }

    /// Goes on behind a token. Fails where memory runs out, and may then stand anywhere.
    pub fn pass(&mut self, token: &Token, next: Next) -> Result<(), AllocError>
        ensures { OnOk result (self.new ≡ after_token self.old (token_of token.now) next) }
    {
        match token {
            Token::Name(name) => {
                self.pass_name(name.as_slice(), next);
                Ok(())
            }
            Token::Mark(mark) => self.pass_mark(*mark),
            Token::Number(_) | Token::Literal(_) | Token::WrongLiteral | Token::Bad => {
                self.before = Before::End;
                Ok(())
            }
        }
    }

    #[tactic(auto, unfolding(crate::specs::Senses::after_name))]
    fn pass_name(&mut self, name: &[char], next: Next)
        ensures { self.new ≡ after_name self.old name.now next }
    {
        let item = begun(self.before, name, next);
        self.before = before_name(self.sense(name, next), item, name);
        if item.is_some() {
            self.item = item;
            self.groups.clear();
        }
    }

    #[tactic(auto, unfolding(crate::specs::Surroundings::after_mark))]
    fn pass_mark(&mut self, mark: Mark) -> Result<(), AllocError>
        ensures { OnOk result (self.new ≡ after_mark mark self.old) }
    {
        match mark {
            Mark::Open => self.open(),
            Mark::Close => {
                self.close();
                Ok(())
            }
            Mark::Comma => self.count(),
            Mark::Semicolon => {
                self.end();
                Ok(())
            }
            Mark::Equals | Mark::Bar | Mark::Dots => {
                self.before = Before::Other;
                Ok(())
            }
        }
    }

    /// Behind an opening parenthesis.
    fn open(&mut self) -> Result<(), AllocError>
        ensures { OnOk result (self.new ≡ record { item = self.old.item; groups = opened self.old.before self.old.groups ∷ self.old.groups; before = Before.Other }) }
    {
        let group = opened(self.before, self.innermost());
        self.before = Before::Other;
        self.groups.push_front(group)?;
        Ok(())
    }

    /// Behind a closing parenthesis.
    fn close(&mut self)
        ensures { self.new ≡ record { item = self.old.item; groups = drop 1 self.old.groups; before = Before.End } }
    {
        let _ = self.groups.pop_front();
        self.before = Before::End;
    }

    /// Behind a comma.
    fn count(&mut self) -> Result<(), AllocError>
        ensures { OnOk result (self.new ≡ record { item = self.old.item; groups = with_comma self.old.groups; before = Before.Other }) }
    {
        self.before = Before::Other;
        if let Some(group) = self.groups.pop_front() {
            let form = group.form;
            let argument = group.argument.min(3) + 1;
            self.groups.push_front(Group { form, argument })?;
        }
        Ok(())
    }

    /// Behind a semicolon.
    fn end(&mut self)
        ensures { self.new ≡ at_first }
    {
        self.item = None;
        self.groups.clear();
        self.before = Before::Other;
    }
}

/// The parenthesis that opens behind a token, in this one.
fn opened(before: Before, around: Group) -> Group
    ensures { result ≡ opened before (around ∷ []) }
{
    match before {
        Before::Form(form) => Group {
            form: Some(form),
            argument: 0,
        },
        Before::Name => Group {
            form: None,
            argument: 0,
        },
        Before::Class | Before::Word | Before::Start | Before::End | Before::Other => around,
    }
}

fn is_ended(before: Before) -> bool
    ensures { result ≡ is_ended before }
{
    match before {
        Before::Name | Before::End => true,
        Before::Class | Before::Word | Before::Start | Before::Form(_) | Before::Other => false,
    }
}

fn sense_where(wanted: Wanted) -> Sense
    ensures { result ≡ sense_where wanted }
{
    match wanted {
        Wanted::Value => Sense::Uses(NameKind::Rule),
        Wanted::Class => Sense::Uses(NameKind::Class),
        Wanted::Word => Sense::Uses(NameKind::Word),
        Wanted::Builder => Sense::Builder,
        Wanted::Nothing => Sense::Stray,
    }
}

/// What a name is that begins no item.
fn sense_behind(before: Before, wanted: Wanted) -> Sense
    ensures { result ≡ sense_behind before wanted }
{
    match before {
        Before::Class => Sense::Defines(NameKind::Class),
        Before::Word => Sense::Defines(NameKind::Word),
        Before::Start => Sense::Uses(NameKind::Rule),
        Before::Form(_) | Before::Name | Before::End | Before::Other => sense_where(wanted),
    }
}

/// The token before, behind a name.
fn before_name(sense: Sense, item: Option<ItemWord>, name: &[char]) -> Before
    ensures { result ≡ before_name sense item name.now }
{
    match sense {
        Sense::Defines(_) | Sense::Uses(_) | Sense::Builder | Sense::Stray => Before::Name,
        Sense::Keyword => before_word(item, name),
    }
}

fn before_word(item: Option<ItemWord>, name: &[char]) -> Before
    ensures { result ≡ before_word item name.now }
{
    match item {
        Some(ItemWord::Class) => Before::Class,
        Some(ItemWord::Word) => Before::Word,
        Some(ItemWord::Start) => Before::Start,
        Some(ItemWord::Operators | ItemWord::Table | ItemWord::Rule) => Before::Other,
        None => before_form(form_word(name)),
    }
}

fn before_form(form: Option<FormWord>) -> Before
    ensures { result ≡ before_form form }
{
    match form {
        Some(form) => Before::Form(form),
        None => Before::Other,
    }
}
