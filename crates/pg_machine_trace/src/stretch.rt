//! Stretches of the text.

use pg_grammar_form::Node;
use pg_text::Characters;

/// The characters between two places.
pub(crate) fn between(characters: &[char], from: usize, upto: usize) -> &[char] {
    let upto = upto.min(characters.len());
    let from = from.min(upto);
    &characters[from..upto]
}

/// The place up to which a leaf read that was entered at `place`, consumed and failed, with its error at `error`. The error of a string
/// stands where the string begins, as Text.Parsec.Prim's `tokens` has it.
pub(crate) fn failing(form: Option<&Node>, text: &[char], place: usize, error: usize) -> usize {
    match string_read(form) {
        Some(characters) => {
            let rest = between(text, place, text.len());
            place.saturating_add(common(characters.as_slice(), rest))
        }
        None => error,
    }
}

fn string_read(form: Option<&Node>) -> Option<&Characters> {
    form?.string()
}

/// How many of the first characters are equal.
fn common(one: &[char], other: &[char]) -> usize {
    one.iter().zip(other).take_while(|(c, d)| c == d).count()
}
