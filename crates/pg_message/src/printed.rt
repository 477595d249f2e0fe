//! The printed text of an error.
//!
//! The first line names the file and the position. The others are Text.Parsec's: what was unexpected, what was
//! expected, and plain messages, each with its texts in the order of their first occurrence. An error without messages
//! gets the words for an unknown error.

ghost use Rattle.std.specs.Prelude.{◌≡◌, ◌++◌, [], map, string_bytes, IfOk, OnOk};
ghost use Rattle.pg_message.specs.Messages.{has_text};
ghost use Rattle.pg_message.specs.Printed.{printed, messages_text, unexpected_line, system_text, line_of, shown_texts, further_texts, joint};

use crate::error::ParseError;
use crate::kind::MessageKind;
use crate::message_text::MessageText;
use crate::messages::Messages;
use pg_text::Pos;
use std::alloc::{AllocError, Global};

/// The text of an error: where it stands in the file with this name, and its messages. Each line ends with a line feed.
pub fn render(alloc: Global, error: &ParseError, name: &str) -> Result<String, AllocError>
    ensures { IfOk result (λ text. string_bytes text ≡ printed error.now name.now) }
{
    let Pos { line, column } = error.position;
    let mut text = format!(in alloc; "\"{name}\" (line {line}, column {column}):")?;
    push_messages(&error.messages, &mut text)?;
    Ok(text)
}

fn push_messages(messages: &Messages, text: &mut String) -> Result<(), AllocError>
    ensures { OnOk result (string_bytes text.new ≡ string_bytes text.old ++ messages_text messages.now) }
{
    if messages.is_empty() {
        return text.push_str("unknown parse error\n");
    }
    text.push_str("\n")?;
    push_unexpected(messages, text)?;
    push_line("expecting ", messages.of_kind(MessageKind::Expected), text)?;
    push_line("", messages.of_kind(MessageKind::Plain), text)
}

fn push_unexpected(messages: &Messages, text: &mut String) -> Result<(), AllocError>
    ensures { OnOk result (string_bytes text.new ≡ string_bytes text.old ++ unexpected_line messages.now) }
{
    let unexpected = messages.of_kind(MessageKind::Unexpected);
    if !unexpected.is_empty() {
        return push_line("unexpected ", unexpected, text);
    }
    match messages.of_kind(MessageKind::SystemUnexpected).first() {
        None => Ok(()),
        Some(first) => push_system(first.as_str(), text),
    }
}

fn push_system(first: &str, text: &mut String) -> Result<(), AllocError>
    ensures { OnOk result (string_bytes text.new ≡ string_bytes text.old ++ system_text first.now) }
{
    if first.is_empty() {
        return text.push_str("unexpected end of input\n");
    }
    write!(text, "unexpected {first}\n")
}

/// Pushes a line of some words and the texts that aren't empty, or nothing if there are none.
fn push_line(words: &str, texts: &[MessageText], text: &mut String) -> Result<(), AllocError>
    ensures { OnOk result (string_bytes text.new ≡
        string_bytes text.old ++ line_of words.now (shown_texts texts.now)) }
{
    let shown = shown(*text.allocator(), texts)?;
    let Some((first, rest)) = shown.split_first() else {
        return Ok(());
    };
    text.push_str(words)?;
    text.push_str(first)?;
    push_further(rest, text)?;
    text.push_str("\n")
}

fn push_further(rest: &[&str], text: &mut String) -> Result<(), AllocError>
    ensures { OnOk result (string_bytes text.new ≡
        string_bytes text.old ++ further_texts (map (λ one. one.now) rest.now)) }
{
    for (index, one) in rest.iter().enumerate() {
        text.push_str(joint(&rest[index + 1..]))?;
        text.push_str(one)?;
    }
    Ok(())
}

/// The joint before a text, from the texts after it.
fn joint(rest: &[&str]) -> &'static str
    ensures { result.now ≡ joint (map (λ one. one.now) rest.now) }
{
    if rest.is_empty() { " or " } else { ", " }
}

/// The texts that aren't empty, each once.
fn shown(alloc: Global, texts: &[MessageText]) -> Result<Vec<&str>, AllocError>
    ensures { IfOk result (λ shown. map (λ one. one.now) shown.items ≡ shown_texts texts.now) }
{
    let mut shown = Vec::new(alloc);
    for text in texts {
        let text = text.as_str();
        if !text.is_empty() && !is_among(shown.as_slice(), text) {
            shown.push(text)?;
        }
    }
    Ok(shown)
}

fn is_among(texts: &[&str], text: &str) -> bool
    ensures { result ≡ has_text (map (λ one. one.now) texts.now) text.now }
{
    texts.contains(&text)
}
