//! Numbers: which are counts, and which have a value at all.
//!
//! `serde_json` refuses a number that is too large for a float. It reads a number with a point or an exponent, a negative one or one of more
//! than 64 bits as something other than a count.

ghost use Rattle.std.specs.Prelude.{◌≡◌, ◌∷◌, ◌==◌, ◌<◌, ℕ, List, true, false, length, slice_index, IsTrue, MatchOption};
ghost use Rattle.json.specs.Reads.{token_of};
ghost use Rattle.json.specs.Token.{number};
ghost use Rattle.serde_json.specs.Data.{unsigned};
ghost use Rattle.serde_json.specs.Read.{number_of, number_from, float_of};
ghost use Rattle.pg_trail.specs.Ahead.{data_at};
ghost use Rattle.pg_trail.specs.Readings.{Finds, Reads};
ghost use Rattle.pg_trail.specs.TrailJson.{count_value};

use crate::skip::skip_rest;
use crate::trail_fault::TrailFault;
use fast_float::Numeral;
use json::{Reader, Token};

/// The count at the front; none if another value stands there.
#[tactic(auto, using(crate::proofs::Ahead::no_token))]
pub(crate) fn read_count(reader: &mut Reader<'_>) -> Result<Option<usize>, TrailFault>
    ensures { Reads count_value (data_at 125 reader.old) reader.new result }
{
    match reader.next() {
        Some(token) => count_from(reader, token),
        None => Err(TrailFault::NotATrail),
    }
}

/// As `read_count`, where this token has been read.
fn count_from(reader: &mut Reader<'_>, token: Token<'_>) -> Result<Option<usize>, TrailFault>
    ensures { Reads count_value (data_at 125 (token_of token.entry ∷ reader.old)) reader.new result }
{
    match number_text(token) {
        Some(text) => count_of(text),
        None => {
            skip_rest(reader, token, 125)?;
            Ok(None)
        }
    }
}

fn number_text<'a>(token: Token<'a>) -> Option<&'a str>
    ensures { MatchOption result ((text : List ℕ) → ¬ (token_of token.entry ≡ number text)) (λ text. token_of token.entry ≡ number text.now) }
{
    match token {
        Token::Number(text) => Some(text),
        _ => None,
    }
}

/// The count in the text of a number; none if it isn't a count.
pub(crate) fn count_of(text: &str) -> Result<Option<usize>, TrailFault>
    ensures { Finds unsigned (number_of text.now) result }
{
    let bytes = text.as_bytes();
    if has_minus(bytes) {
        negative(&Numeral::scan(&bytes[1..]))
    } else {
        not_negative(&Numeral::scan(bytes))
    }
}

fn has_minus(bytes: &[u8]) -> bool
    ensures value { result ≡ (slice_index bytes.now 0 == 45) }
    ensures len { IsTrue result → 0 < length bytes.now }
{
    !bytes.is_empty() && bytes[0] == b'-'
}

/// The count of a number without a sign; none if it isn't a count.
fn not_negative(numeral: &Numeral<'_>) -> Result<Option<usize>, TrailFault>
    ensures { Finds unsigned (number_from false numeral.now) result }
{
    match numeral.to_u64() {
        Some(count) => Ok(Some(count as usize)),
        None => float(false, numeral),
    }
}

/// A number below 0 or `-0`, which is no count.
fn negative(numeral: &Numeral<'_>) -> Result<Option<usize>, TrailFault>
    ensures { Finds unsigned (number_from true numeral.now) result }
{
    match numeral.to_i64(true) {
        Some(number) if number < 0 => Ok(None),
        Some(_) | None => float(true, numeral),
    }
}

/// A float, which is no count.
fn float(negative: bool, numeral: &Numeral<'_>) -> Result<Option<usize>, TrailFault>
    ensures { Finds unsigned (float_of negative numeral.now) result }
{
    if numeral.to_float::<f64>(negative).is_finite() {
        Ok(None)
    } else {
        Err(TrailFault::NotATrail)
    }
}
