//! Whether a start matches at a place of a text.
//!
//! Only the characters from the place on count, so each kind looks at the beginning of the rest of the text.
ghost use Rattle.std.specs.Prelude.{◌≡◌, ◌↔◌, ◌≤◌, drop, false, length, IsTrue};
ghost use Rattle.pg_start.specs.Prefixes.{begins_in, IsPrefix};
ghost use Rattle.pg_start.specs.Starts.{MatchesAt};

use crate::kind::StartKind;
use crate::prefix::{begins_in, begins_with, word_prefix};
use crate::start::Start;
use pg_class::Class;
use pg_text::Text;

/// Whether the start matches at the place, which may be the end of the text. It takes no memory.
pub fn matches_at(start: &Start, text: &Text, place: usize) -> bool
    requires { place ≤ length text.now }
    ensures { IsTrue result ↔ MatchesAt start.now text.now place }
{
    let ahead = &text.characters()[place..];
    match start.view() {
        StartKind::Class(class) => begins_in(ahead, class),
        StartKind::Key(key, excluded) => begins_with_key(ahead, key.as_slice(), excluded),
        StartKind::Word(heads, rest, reserved) => {
            begins_in(ahead, heads) && !reserved.contains(word_prefix(ahead, rest))
        }
        StartKind::End => ahead.is_empty(),
    }
}

/// Whether the text begins with the key, and no excluded character follows it.
fn begins_with_key(text: &[char], key: &[char], excluded: &Class) -> bool
    ensures { IsTrue result ↔ (IsPrefix key.now text.now × (begins_in excluded.now (drop (length key.now) text.now) ≡ false)) }
{
    begins_with(text, key) && !begins_in(&text[key.len()..], excluded)
}
