//! The pieces of a line: quoted texts and numbers, each after a prefix.

ghost use Rattle.std.specs.Prelude.{◌≡◌, ◌++◌, decimal, string_bytes, IfOk, OnOk};
ghost use Rattle.pg_tree.specs.Json.{quoted};

use serde_json::Value;
use std::alloc::{AllocError, Global};

/// The text in double quotes, with the escapes of JSON.
pub(crate) fn quoted(alloc: Global, text: &str) -> Result<String, AllocError>
    ensures { IfOk result (λ json. string_bytes json ≡ quoted text.now) }
{
    let text = String::from_str(alloc, text)?;
    Value::String(text).to_string(alloc)
}

/// The text with the escapes of JSON, without the quotes. The parts of a text can be escaped one by one.
pub(crate) fn escaped(alloc: Global, text: &str) -> Result<String, AllocError> {
    let quoted = quoted(alloc, text)?;
    let inner = quoted
        .as_str()
        .strip_prefix('"')
        .and_then(|rest| rest.strip_suffix('"'));
    String::from_str(alloc, inner.unwrap_or(""))
}

/// Appends a prefix, and a text in double quotes.
pub(crate) fn push_text(
    alloc: Global,
    page: &mut String,
    before: &str,
    text: &str,
) -> Result<(), AllocError>
    ensures { OnOk result (string_bytes page.new ≡ string_bytes page.old ++ (before.now ++ quoted text.now)) }
{
    page.push_str(before)?;
    let text = quoted(alloc, text)?;
    page.push_str(text.as_str())
}

/// Appends a prefix and a number.
pub(crate) fn push_number(
    alloc: Global,
    page: &mut String,
    before: &str,
    number: usize,
) -> Result<(), AllocError>
    ensures { OnOk result (string_bytes page.new ≡ string_bytes page.old ++ (before.now ++ decimal number)) }
{
    let digits = format!(in alloc; "{before}{number}")?;
    page.push_str(digits.as_str())
}
