//! The line of a finding.

use crate::listing::Listing;
use pg_predict::{Finding, ViolationKind};
use pg_predict_lines::{Named, alternatives_of, starts_of};
use pg_text_pieces::Piece;

/// The line of a finding, with its line feed. `more` has further fields for its end.
pub(crate) fn line_of<'p>(
    listing: &'p Listing,
    finding: &Finding,
    more: &'p str,
) -> [Piece<'p>; 43] {
    let (first, last) = listing.ends(finding.node());
    let code = Piece::Text(finding.code());
    let [one, and, other] = alternatives(finding.kind());
    let [open, start, between, second, close] = starts(listing, finding.kind());
    let [a, b, c, d, e, f, g, h] = listing.texts.words(finding.kind());
    [
        Piece::Text("{\"file\":"),
        Piece::Text(listing.file.as_str()),
        Piece::Text(",\"line\":"),
        Piece::Number(first.line),
        Piece::Text(",\"column\":"),
        Piece::Number(first.column),
        Piece::Text(",\"last_line\":"),
        Piece::Number(last.line),
        Piece::Text(",\"last_column\":"),
        Piece::Number(last.column),
        Piece::Text(",\"rule\":\""),
        Piece::Text(listing.texts.name(finding.rule())),
        Piece::Text("\",\"node\":"),
        Piece::Number(finding.number()),
        Piece::Text(",\"code\":\""),
        code,
        Piece::Text("\",\"alternatives\":["),
        one,
        and,
        other,
        Piece::Text("],\"starts\":["),
        open,
        start,
        between,
        second,
        close,
        Piece::Text("],\"message\":\""),
        code,
        Piece::Text(" "),
        a,
        b,
        c,
        d,
        e,
        f,
        g,
        h,
        Piece::Text("\",\"character\":"),
        Piece::Number(first.character),
        Piece::Text(",\"last_character\":"),
        Piece::Number(last.character),
        Piece::Text(more),
        Piece::Text("}\n"),
    ]
}

/// The numbers of the alternatives that a finding names, separated by commas.
fn alternatives<'p>(kind: &ViolationKind<usize>) -> [Piece<'p>; 3] {
    let nothing = Piece::Text("");
    match alternatives_of(kind) {
        Named::Nothing => [nothing, nothing, nothing],
        Named::One(number) => [Piece::Number(number), nothing, nothing],
        Named::Two(one, other) => [Piece::Number(one), Piece::Text(","), Piece::Number(other)],
    }
}

/// The starts that meet, in double quotes, separated by commas.
fn starts<'p>(listing: &'p Listing, kind: &ViolationKind<usize>) -> [Piece<'p>; 5] {
    match starts_of(kind) {
        Named::Nothing => no_start(),
        Named::One(start) => one_start(listing, start),
        Named::Two(one, other) => two_starts(listing, one, other),
    }
}

fn two_starts<'p>(listing: &'p Listing, one: usize, other: usize) -> [Piece<'p>; 5] {
    [
        Piece::Text("\""),
        Piece::Text(listing.texts.start(one)),
        Piece::Text("\",\""),
        Piece::Text(listing.texts.start(other)),
        Piece::Text("\""),
    ]
}

fn one_start<'p>(listing: &'p Listing, start: usize) -> [Piece<'p>; 5] {
    [
        Piece::Text("\""),
        Piece::Text(listing.texts.start(start)),
        Piece::Text("\""),
        Piece::Text(""),
        Piece::Text(""),
    ]
}

fn no_start<'p>() -> [Piece<'p>; 5] {
    let nothing = Piece::Text("");
    [nothing, nothing, nothing, nothing, nothing]
}
