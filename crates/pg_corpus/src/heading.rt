//! The first line of a case: its mark, its name, and the rule at which it starts.

ghost use Rattle.std.specs.Prelude.{◌≡◌, ◌<◌, Some, slice_get, length, IfOk, IfSome};
ghost use Rattle.std.specs.Option.{option_copied};
ghost use Rattle.pg_corpus.specs.Lines.{begins_case};
ghost use Rattle.pg_corpus.specs.Headings.{IsHeading, Reads};

use crate::fault::FaultKind;
use crate::lines::{begins_case, behind, equals, without_feed};

/// A fault, and how many bytes stand before it.
#[derive(Clone, Copy)]
pub(crate) struct Refusal {
    pub kind: FaultKind,
    pub place: usize,
}

/// What the first line of a case says.
#[derive(Clone, Copy)]
pub(crate) struct Heading<'a> {
    /// How many `=` it begins with.
    pub size: usize,
    /// The name, without the blanks around it.
    pub name: &'a [u8],
    /// The rule in brackets behind the name, without the blanks around it.
    pub start: Option<&'a [u8]>,
}

/// Reads the first line of a case. The faults are that it begins none, that it has no name, and that its brackets aren't closed or name no rule.
pub(crate) fn read_heading<'a>(line: &'a [u8], otherwise: FaultKind) -> Result<Heading<'a>, Refusal>
    ensures { IfOk result (λ h. IsHeading line.now h.size h.name.now (option_copied h.start)) }
{
    if !begins_case(line) {
        return Err(Refusal {
            kind: otherwise,
            place: 0,
        });
    }
    let size = equals(line);
    let label = without_feed(behind(line, size)).trim_ascii();
    match labelled(label) {
        Ok((name, start)) => Ok(Heading { size, name, start }),
        Err(kind) => Err(Refusal { kind, place: size }),
    }
}

/// The name in a label, and the rule in brackets behind it.
fn labelled<'a>(label: &'a [u8]) -> Result<(&'a [u8], Option<&'a [u8]>), FaultKind>
    ensures reads { IfOk result (λ r. Reads label.now r.0.now (option_copied r.1)) }
    ensures named { IfOk result (λ r. 0 < length r.0.now) }
{
    let Some(place) = opening(label) else {
        return plain(label);
    };
    if closes_early(&label[place..]) {
        return plain(label);
    }
    bracketed(label, place)
}

/// A label that is all name.
fn plain<'a>(label: &'a [u8]) -> Result<(&'a [u8], Option<&'a [u8]>), FaultKind>
    ensures reads { IfOk result (λ r. Reads label.now r.0.now (option_copied r.1)) }
    ensures named { IfOk result (λ r. 0 < length r.0.now) }
{
    if label.is_empty() {
        return Err(FaultKind::NoName);
    }
    Ok((label, None))
}

/// A label with brackets from a place on.
fn bracketed<'a>(label: &'a [u8], place: usize) -> Result<(&'a [u8], Option<&'a [u8]>), FaultKind>
    requires { slice_get label.now place ≡ Some 91 }
    ensures reads { IfOk result (λ r. Reads label.now r.0.now (option_copied r.1)) }
    ensures named { IfOk result (λ r. 0 < length r.0.now) }
{
    let last = label.len() - 1;
    if label[last] != b']' {
        return Err(FaultKind::BadBrackets);
    }
    let name = label[..place].trim_ascii();
    let rule = label[place + 1..last].trim_ascii();
    if rule.is_empty() {
        return Err(FaultKind::BadBrackets);
    }
    if name.is_empty() {
        return Err(FaultKind::NoName);
    }
    Ok((name, Some(rule)))
}

/// Where the last `[` of a label stands, if nothing or a blank is before it.
fn opening(label: &[u8]) -> Option<usize>
    ensures { IfSome result (λ place. slice_get label.now place ≡ Some 91) }
{
    let mut left = label.len();
    while left > 0 {
        left -= 1;
        if label[left] == b'[' {
            return if left == 0 || label[left - 1].is_ascii_whitespace() {
                Some(left)
            } else {
                None
            };
        }
    }
    None
}

/// Whether a `]` stands in these bytes, but not at their end.
fn closes_early(bytes: &[u8]) -> bool {
    match bytes.iter().position(|byte| *byte == b']') {
        Some(place) => place.saturating_add(1) < bytes.len(),
        None => false,
    }
}
