//! The choice of a character from a class: the least printable one, so that people can type it, or another where a draft is varied.

use pg_class::Class;

/// The number of printable characters of ASCII other than the space.
const PRINTABLE: usize = 94;

/// A character of `class` that isn't in `other`: a printable one, else the space, else the first character of a range. The search begins after the first
/// `passed` printable ones and wraps around.
pub fn character_of(class: &Class, other: Option<&Class>, passed: usize) -> Option<char> {
    for number in 0..PRINTABLE {
        let c = printable(number.saturating_add(passed) % PRINTABLE);
        if takes(class, other, c) {
            return Some(c);
        }
    }
    if takes(class, other, ' ') {
        return Some(' ');
    }
    for range in class.ranges() {
        if takes(class, other, range.0) {
            return Some(range.0);
        }
    }
    None
}

/// The printable character with this number, counting from 0.
fn printable(number: usize) -> char {
    if number < PRINTABLE {
        char::from(33 + number as u8)
    } else {
        '~'
    }
}

/// Whether `class` has the character and `other`, if given, doesn't.
fn takes(class: &Class, other: Option<&Class>, c: char) -> bool {
    let excluded = match other {
        Some(other) => other.has(c),
        None => false,
    };
    class.has(c) && !excluded
}
