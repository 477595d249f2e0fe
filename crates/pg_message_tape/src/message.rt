//! The messages of errors while a grammar runs, before they become texts.
//!
//! Most errors are dropped, so texts are made only of the messages that are reported in the end. A message points into
//! the grammar and the text that is parsed.

ghost use Rattle.std.specs.Prelude.{◌≡◌, ◌++◌, codes, string_bytes, IfOk};
ghost use Rattle.pg_language.specs.Declarations.{not_admitted};
ghost use Rattle.pg_language.specs.Errors.{quote, next_text};
ghost use Rattle.pg_language.specs.OperatorReads.{ambiguous_words};
ghost use Rattle.pg_message_tape.specs.Messages.{message_kind, message_text, is_expected, side_words};

use pg_message::MessageKind;
use pg_table::AdmitFault;
use pg_text::utf8;
use serde_json::Value;
use std::alloc::{AllocError, Global};

/// One message of an error.
#[derive(Clone, Copy)]
pub enum Message<'a> {
    /// A leaf stopped at this character, or at the end of the text.
    Stopped(Option<char>),
    /// A parser refused this character, or the end of the text.
    Refused(Option<char>),
    /// A parser refused this word because it is reserved.
    Reserved(&'a [char]),
    /// These characters were expected.
    Wanted(&'a [char]),
    /// The end of the text was expected.
    WantedEnd,
    /// Something with this name was expected.
    Named(&'a [char]),
    /// The keyword of a declaration was expected.
    WantedDeclaration,
    /// A digit for the precedence of an operator was expected.
    WantedPrecedence,
    /// The symbol of an operator was expected.
    WantedSymbol,
    /// The operator table doesn't admit an operator with this symbol, for this reason.
    NotAdmitted(AdmitFault, &'a [char]),
    /// Something without a name was expected: a prefix or postfix operator.
    WantedNameless,
    /// An infix operator was expected.
    WantedOperator,
    /// An operator with this associativity is ambiguous here.
    Ambiguous(Sided),
}

/// The side to which an infix operator associates.
#[derive(Clone, Copy)]
pub enum Sided {
    Left,
    Right,
    Neither,
}

impl Message<'_> {
    /// Its kind.
    pub(crate) fn kind(&self) -> MessageKind
        ensures { result ≡ message_kind self.now }
    {
        match self {
            Message::Stopped(_) => MessageKind::SystemUnexpected,
            Message::Refused(_) => MessageKind::Unexpected,
            Message::Reserved(_) => MessageKind::Unexpected,
            Message::Wanted(_) => MessageKind::Expected,
            Message::WantedEnd => MessageKind::Expected,
            Message::Named(_) => MessageKind::Expected,
            Message::WantedDeclaration => MessageKind::Expected,
            Message::WantedPrecedence => MessageKind::Expected,
            Message::WantedSymbol => MessageKind::Expected,
            Message::NotAdmitted(_, _) => MessageKind::Plain,
            Message::WantedNameless => MessageKind::Expected,
            Message::WantedOperator => MessageKind::Expected,
            Message::Ambiguous(_) => MessageKind::Plain,
        }
    }

    /// Whether it says what was expected.
    pub(crate) fn is_expected(&self) -> bool
        ensures { result ≡ is_expected (message_kind self.now) }
    {
        match self {
            Message::Stopped(_)
            | Message::Refused(_)
            | Message::Reserved(_)
            | Message::NotAdmitted(_, _)
            | Message::Ambiguous(_) => false,
            Message::Wanted(_)
            | Message::WantedEnd
            | Message::Named(_)
            | Message::WantedDeclaration
            | Message::WantedPrecedence
            | Message::WantedSymbol
            | Message::WantedNameless
            | Message::WantedOperator => true,
        }
    }

    /// Its text.
    pub(crate) fn text(&self, alloc: Global) -> Result<String, AllocError>
        ensures { IfOk result (λ text. string_bytes text ≡ message_text self.now) }
    {
        match self {
            Message::Stopped(next) => next_text(alloc, *next),
            Message::Refused(next) => next_text(alloc, *next),
            Message::Reserved(word) => reserved_word(alloc, word),
            Message::Wanted(characters) => quote(alloc, characters),
            Message::WantedEnd => String::from_str(alloc, "end of input"),
            Message::Named(name) => utf8(alloc, name),
            Message::WantedDeclaration => String::from_str(alloc, "declaration"),
            Message::WantedPrecedence => String::from_str(alloc, "precedence"),
            Message::WantedSymbol => String::from_str(alloc, "operator symbol"),
            Message::NotAdmitted(fault, symbol) => not_admitted(alloc, symbol, *fault),
            Message::WantedNameless => Ok(String::new(alloc)),
            Message::WantedOperator => String::from_str(alloc, "operator"),
            Message::Ambiguous(side) => String::from_str(alloc, ambiguous(*side)),
        }
    }
}

/// The text for an ambiguous use of an operator.
fn ambiguous(side: Sided) -> &'static str
    ensures { result.now ≡ ambiguous_words (side_words side) }
{
    match side {
        Sided::Left => "ambiguous use of a left associative operator",
        Sided::Right => "ambiguous use of a right associative operator",
        Sided::Neither => "ambiguous use of a non associative operator",
    }
}

/// The characters in double quotes, with the escapes of JSON.
fn quote(alloc: Global, characters: &[char]) -> Result<String, AllocError>
    ensures { IfOk result (λ text. string_bytes text ≡ quote characters.now) }
{
    let text = utf8(alloc, characters)?;
    Value::String(text).to_string(alloc)
}

/// The next character in quotes, or the empty text where there is none.
fn next_text(alloc: Global, next: Option<char>) -> Result<String, AllocError>
    ensures { IfOk result (λ text. string_bytes text ≡ next_text next) }
{
    match next {
        None => Ok(String::new(alloc)),
        Some(c) => quote(alloc, &[c]),
    }
}

/// The text for a reserved word.
fn reserved_word(alloc: Global, word: &[char]) -> Result<String, AllocError>
    ensures { IfOk result (λ said. string_bytes said ≡ codes "reserved word " ++ quote word.now) }
{
    let quoted = quote(alloc, word)?;
    format!(in alloc; "reserved word {quoted}")
}

/// The text for a symbol that the operator table refuses.
fn not_admitted(alloc: Global, symbol: &[char], fault: AdmitFault) -> Result<String, AllocError>
    ensures { IfOk result (λ said. string_bytes said ≡ not_admitted symbol.now fault) }
{
    let quoted = quote(alloc, symbol)?;
    let label = fault.label();
    format!(in alloc; "operator {quoted} not admitted: {label}")
}
