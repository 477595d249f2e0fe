//! A case of a corpus, read from the line that begins it to the next one.

ghost use Rattle.std.specs.Prelude.{◌≡◌, ◌++◌, ◌<◌, length, IfOk};
ghost use Rattle.std.specs.Option.{option_copied};
ghost use Rattle.pg_corpus.specs.Cases.{IsOpening, IsWanting, IsCase, case_bytes};

use crate::fault::FaultKind;
use crate::heading::{Heading, Refusal, read_heading};
use crate::lines::{Part, behind, cut, first_line, without_feed};

/// A case: what is to come of a text (ours). All slices are parts of the file.
#[derive(Clone, Copy)]
pub struct Case<'a> {
    /// The number of its first line, from 1.
    pub line: u32,
    /// Its name, without the blanks around it. It is never empty.
    pub name: &'a [u8],
    /// The rule at which the grammar starts, if that isn't the grammar's own start.
    pub start: Option<&'a [u8]>,
    /// Its text: what stands between the line that begins the case and the line of as many `-`, without the last line feed.
    pub text: &'a [u8],
    /// What is wanted: its lines, without the last line feed. It is never empty.
    pub wanted: &'a [u8],
    /// All before what is wanted.
    pub before: &'a [u8],
    /// All behind what is wanted, up to the next case.
    pub after: &'a [u8],
}

/// What stands before what is wanted, and the rest of the file.
#[derive(Clone, Copy)]
struct Opening<'a> {
    heading: Heading<'a>,
    text: &'a [u8],
    before: &'a [u8],
    rest: &'a [u8],
}

/// What is wanted, and the rest of the file.
#[derive(Clone, Copy)]
struct Wants<'a> {
    wanted: &'a [u8],
    after: &'a [u8],
    rest: &'a [u8],
}

/// Reads a case, whose first line has this number, and returns the rest of the file too. If the bytes begin with no case, that is the fault `otherwise`.
pub(crate) fn read_case<'a>(
    bytes: &'a [u8],
    line: u32,
    otherwise: FaultKind,
) -> Result<(Case<'a>, &'a [u8]), Refusal>
    requires { 0 < length bytes.now }
    ensures case { IfOk result (λ read. IsCase read.0) }
    ensures joined { IfOk result (λ read. bytes.now ≡ case_bytes read.0 ++ read.1.now) }
    ensures shorter { IfOk result (λ read. length read.1.now < length bytes.now) }
{
    let opening = read_opening(bytes, otherwise)?;
    let wants = read_wants(opening.rest)?;
    let case = Case {
        line,
        name: opening.heading.name,
        start: opening.heading.start,
        text: opening.text,
        wanted: wants.wanted,
        before: opening.before,
        after: wants.after,
    };
    Ok((case, wants.rest))
}

/// Reads a case up to what is wanted.
#[tactic(auto, using(crate::proofs::Parts::opened))]
fn read_opening<'a>(bytes: &'a [u8], otherwise: FaultKind) -> Result<Opening<'a>, Refusal>
    requires { 0 < length bytes.now }
    ensures opening { IfOk result (λ o. IsOpening o.before.now o.heading.name.now (option_copied o.heading.start) o.text.now) }
    ensures joined { IfOk result (λ o. bytes.now ≡ o.before.now ++ o.rest.now) }
{
    let mark = first_line(bytes);
    let heading = read_heading(mark, otherwise)?;
    let (between, left) = cut(behind(bytes, mark.len()), Part::Between(heading.size));
    if left.is_empty() {
        return Err(refused(FaultKind::NoEnd));
    }
    let rule = first_line(left);
    let (_, rest) = cut(behind(left, rule.len()), Part::Around);
    Ok(Opening {
        heading,
        text: without_feed(between),
        before: &bytes[..bytes.len() - rest.len()],
        rest,
    })
}

/// Reads what is wanted, and what stands behind it.
#[tactic(auto, using(crate::proofs::Parts::wants))]
fn read_wants<'a>(bytes: &'a [u8]) -> Result<Wants<'a>, Refusal>
    ensures wanting { IfOk result (λ w. IsWanting w.wanted.now w.after.now) }
    ensures joined { IfOk result (λ w. bytes.now ≡ w.wanted.now ++ (w.after.now ++ w.rest.now)) }
{
    let (block, left) = cut(bytes, Part::Wanted);
    let wanted = without_feed(block);
    if wanted.is_empty() {
        return Err(refused(FaultKind::NothingWanted));
    }
    let (_, rest) = cut(left, Part::Around);
    Ok(Wants {
        wanted,
        after: &bytes[wanted.len()..bytes.len() - rest.len()],
        rest,
    })
}

/// A fault of the line that begins the case.
fn refused(kind: FaultKind) -> Refusal {
    Refusal { kind, place: 0 }
}
