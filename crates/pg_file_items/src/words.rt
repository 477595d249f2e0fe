//! The words of the grammar format: those of the forms, and the reserved ones.
//!
//! To the lexer a word is a name; the parser recognises it by its text. Forms are grouped by the contents of their
//! parentheses, so that each group is read in one way. A reserved word can't name a rule, a class or a word.

ghost use Rattle.std.specs.Prelude.{◌≡◌};
ghost use Rattle.std.specs.List.{list_any};
ghost use Rattle.std.specs.Str.{bytes_eq};
ghost use Rattle.pg_file_items.specs.Proper.{is_reserved};
ghost use Rattle.pg_file_items.specs.Words as words;

use pg_file_tokens::is_word;
use pg_grammar_form::{Role, Side};

/// The words that may not name a rule, a class or a word.
const RESERVED: [&str; 37] = [
    "class",
    "word",
    "operators",
    "gap",
    "reserved",
    "max",
    "table",
    "start",
    "not",
    "infixl",
    "infixr",
    "infix",
    "prefix",
    "postfix",
    "satisfy",
    "string",
    "seq",
    "choice",
    "many",
    "chainl1",
    "chainr1",
    "try",
    "notFollowedBy",
    "eof",
    "expr",
    "declare",
    "text",
    "skip",
    "build",
    "label",
    "local",
    "many1",
    "option",
    "between",
    "sepBy",
    "sepBy1",
    "endBy",
];

/// A form of one class expression.
#[derive(Clone, Copy)]
pub enum ClassForm {
    /// `satisfy`: one character of the class.
    Satisfy,
    /// `notFollowedBy`: matches, without consuming anything, if no character of the class comes next.
    NotFollowedBy,
    /// `declare`: an operator declaration. No character of the class may follow its keyword.
    Declare,
}

/// A form of one value or more.
#[derive(Clone, Copy)]
pub enum SomeForm {
    /// `choice`: the first alternative that succeeds.
    Choice,
    /// `try`: the values one after another; if it fails, nothing counts as consumed.
    Try,
    /// `local`: the values one after another; their declarations end with them.
    Local,
}

/// A form of one value.
#[derive(Clone, Copy)]
pub enum OneForm {
    /// `many`: the value as often as it succeeds.
    Many,
    /// `many1`: the value as often as it succeeds, at least once.
    Many1,
    /// `option`: the value or nothing.
    Option,
    /// `text`: a leaf with the text of the value.
    Text,
    /// `skip`: the value, whose trees are dropped.
    Skip,
}

/// A form of a value and a separator.
#[derive(Clone, Copy)]
pub enum TwoForm {
    /// `sepBy`: any number of values, with a separator between any two.
    SepBy,
    /// `sepBy1`: one value or more, with a separator between any two.
    SepBy1,
    /// `endBy`: any number of values, with a separator after each.
    EndBy,
}

/// A word that begins a form with parentheses.
#[derive(Clone, Copy)]
pub enum FormWord {
    /// A form of a class expression.
    OfClass(ClassForm),
    /// `string`: these characters, one after another.
    String,
    /// `seq`: the values, one after another.
    Seq,
    /// A form of one value or more.
    OfSome(SomeForm),
    /// A form of one value.
    OfOne(OneForm),
    /// A form of a value and a separator.
    OfTwo(TwoForm),
    /// `between`: a value between two others.
    Between,
    /// A chain, folded from this side: a builder, an operand and a separator.
    Chain(Side),
    /// `expr`: operators between and around the operands that a term reads.
    Expression,
    /// `build`: the tree that a builder makes of the value's trees.
    Build,
    /// `label`: the value, named in messages.
    Label,
    /// `word`: a word of a word item.
    Word,
}

fn is_among(words: &[&str], name: &[char]) -> bool
    ensures { result ≡ list_any (λ word. bytes_eq word.now name.now) words.now }
{
    words.iter().any(|word| is_word(word, name))
}

/// Whether the word may not name a rule, a class or a word.
#[tactic(auto, unfolding(crate::specs::Proper::is_reserved))]
pub fn is_reserved(name: &[char]) -> bool
    ensures { result ≡ is_reserved name.now }
{
    is_among(&RESERVED, name)
}

#[tactic(auto, unfolding(crate::specs::Words::class_form))]
fn class_form(name: &[char]) -> Option<ClassForm>
    ensures { result ≡ words.class_form name.now }
{
    if is_word("satisfy", name) {
        Some(ClassForm::Satisfy)
    } else if is_word("notFollowedBy", name) {
        Some(ClassForm::NotFollowedBy)
    } else if is_word("declare", name) {
        Some(ClassForm::Declare)
    } else {
        None
    }
}

#[tactic(auto, unfolding(crate::specs::Words::some_form))]
fn some_form(name: &[char]) -> Option<SomeForm>
    ensures { result ≡ words.some_form name.now }
{
    if is_word("choice", name) {
        Some(SomeForm::Choice)
    } else if is_word("try", name) {
        Some(SomeForm::Try)
    } else if is_word("local", name) {
        Some(SomeForm::Local)
    } else {
        None
    }
}

#[tactic(auto, unfolding(crate::specs::Words::one_form))]
fn one_form(name: &[char]) -> Option<OneForm>
    ensures { result ≡ words.one_form name.now }
{
    if is_word("many", name) {
        Some(OneForm::Many)
    } else if is_word("many1", name) {
        Some(OneForm::Many1)
    } else if is_word("option", name) {
        Some(OneForm::Option)
    } else if is_word("text", name) {
        Some(OneForm::Text)
    } else if is_word("skip", name) {
        Some(OneForm::Skip)
    } else {
        None
    }
}

#[tactic(auto, unfolding(crate::specs::Words::two_form))]
fn two_form(name: &[char]) -> Option<TwoForm>
    ensures { result ≡ words.two_form name.now }
{
    if is_word("sepBy", name) {
        Some(TwoForm::SepBy)
    } else if is_word("sepBy1", name) {
        Some(TwoForm::SepBy1)
    } else if is_word("endBy", name) {
        Some(TwoForm::EndBy)
    } else {
        None
    }
}

#[tactic(auto, unfolding(crate::specs::Words::chain_side))]
fn chain_side(name: &[char]) -> Option<Side>
    ensures { result ≡ words.chain_side name.now }
{
    if is_word("chainl1", name) {
        Some(Side::Left)
    } else if is_word("chainr1", name) {
        Some(Side::Right)
    } else {
        None
    }
}

/// The form, if it is the only one of its kind.
#[tactic(auto, unfolding(crate::specs::Words::single_form))]
fn single_form(name: &[char]) -> Option<FormWord>
    ensures { result ≡ words.single_form name.now }
{
    if is_word("string", name) {
        Some(FormWord::String)
    } else if is_word("seq", name) {
        Some(FormWord::Seq)
    } else if is_word("between", name) {
        Some(FormWord::Between)
    } else if is_word("expr", name) {
        Some(FormWord::Expression)
    } else if is_word("build", name) {
        Some(FormWord::Build)
    } else if is_word("label", name) {
        Some(FormWord::Label)
    } else if is_word("word", name) {
        Some(FormWord::Word)
    } else {
        None
    }
}

/// The form that the word begins, if it begins one.
#[tactic(auto, unfolding(crate::specs::Words::form_word))]
pub fn form_word(name: &[char]) -> Option<FormWord>
    ensures { result ≡ words.form_word name.now }
{
    if let Some(form) = class_form(name) {
        Some(FormWord::OfClass(form))
    } else if let Some(form) = some_form(name) {
        Some(FormWord::OfSome(form))
    } else if let Some(form) = one_form(name) {
        Some(FormWord::OfOne(form))
    } else if let Some(form) = two_form(name) {
        Some(FormWord::OfTwo(form))
    } else if let Some(side) = chain_side(name) {
        Some(FormWord::Chain(side))
    } else {
        single_form(name)
    }
}

/// The role that the word names, if it names one.
#[tactic(auto, unfolding(crate::specs::Words::role_named))]
pub fn role_named(name: &[char]) -> Option<Role>
    ensures { result ≡ words.role_named name.now }
{
    if is_word("infixl", name) {
        Some(Role::InfixLeft)
    } else if is_word("infixr", name) {
        Some(Role::InfixRight)
    } else if is_word("infix", name) {
        Some(Role::InfixNone)
    } else if is_word("prefix", name) {
        Some(Role::Prefix)
    } else if is_word("postfix", name) {
        Some(Role::Postfix)
    } else {
        None
    }
}
