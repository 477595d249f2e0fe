//! The characters of Unicode's general categories, as tests and as classes; and the class of given ranges.
//!
//! A test and a class of the same name agree on every character, so the two make a predicate. The tables are those of
//! the `unicode` crate. They may hold surrogates, which aren't characters and are left out. `kind.rt` makes the
//! program's predicates of these.

ghost use Rattle.std.specs.Prelude.{◌≡◌, ◌≤◌, ◌||◌, ℕ, false, All, IfOk, IfSome, IsNone};
ghost use Rattle.std.specs.Char.{IsScalar};
ghost use Rattle.pg_class.specs.Ranges.{in_range, has};
ghost use Rattle.unicode.specs.Sets.{in_set};
ghost use Rattle.pg_pred_program.specs.Categories.{is_letter, is_number, is_alphanumeric, is_space, HasJust};

use pg_class::{Class, ClassFault};
use std::alloc::{AllocError, Global};
use unicode::properties::{GeneralCategory, GeneralCategoryGroup};
use unicode::sets::Set;

/// Whether a character is a letter, by its general category.
pub fn is_letter(c: char) -> bool
    ensures { result ≡ is_letter c }
{
    GeneralCategoryGroup::Letter.contains(GeneralCategory::for_char(c))
}

/// Whether a character is a letter or a number, by its general category.
pub fn is_alphanumeric(c: char) -> bool
    ensures { result ≡ is_alphanumeric c }
{
    is_letter(c) || is_number(c)
}

/// Whether a character is a space separator, or a control character from the tab to the carriage return.
pub fn is_space(c: char) -> bool
    ensures { result ≡ is_space c }
{
    GeneralCategory::for_char(c) == GeneralCategory::SpaceSeparator || ('\t' <= c && c <= '\r')
}

fn is_number(c: char) -> bool
    ensures { result ≡ is_number c }
{
    GeneralCategoryGroup::Number.contains(GeneralCategory::for_char(c))
}

/// The class of the letters.
pub fn letters(alloc: Global) -> Result<Class, AllocError>
    ensures { IfOk result (λ class. HasJust class is_letter) }
{
    let class = class_of(alloc, Set::CategoryGroup(GeneralCategoryGroup::Letter))?;
    Ok(class)
}

/// The class of the letters and numbers.
pub fn alphanumerics(alloc: Global) -> Result<Class, AllocError>
    ensures { IfOk result (λ class. HasJust class is_alphanumeric) }
{
    let letters = letters(alloc)?;
    let numbers = class_of(alloc, Set::CategoryGroup(GeneralCategoryGroup::Number))?;
    let class = letters.union(alloc, &numbers)?;
    Ok(class)
}

/// The class of the spaces.
pub fn spaces(alloc: Global) -> Result<Class, AllocError>
    ensures { IfOk result (λ class. HasJust class is_space) }
{
    let separators = class_of(alloc, Set::Category(GeneralCategory::SpaceSeparator))?;
    let controls = ranged(alloc, &[('\t', '\r')])?;
    let class = separators.union(alloc, &controls)?;
    Ok(class)
}

/// The class of these ranges. None of them descends.
pub fn ranged(alloc: Global, ranges: &[(char, char)]) -> Result<Class, AllocError>
    requires { All (λ r. r.0 ≤ r.1) ranges.now }
    ensures { IfOk result (λ class. HasJust class (has ranges.now)) }
{
    match Class::from_ranges(alloc, ranges) {
        Ok(class) => Ok(class),
        Err(ClassFault::Descends) => unreachable!(),
        Err(ClassFault::Memory) => Err(AllocError),
    }
}

/// The class of the characters of a set of code points.
fn class_of(alloc: Global, set: Set) -> Result<Class, AllocError>
    ensures { IfOk result (λ class. HasJust class (in_set set)) }
{
    let ranges = set.ranges(alloc)?;
    let characters = char_ranges(alloc, ranges.as_slice())?;
    let class = ranged(alloc, characters.as_slice())?;
    Ok(class)
}

/// The characters of ranges of code points.
fn char_ranges(alloc: Global, ranges: &[(u32, u32)]) -> Result<Vec<(char, char)>, AllocError>
    ensures ascend { IfOk result (λ v. All (λ r. r.0 ≤ r.1) v.items) }
    ensures members { IfOk result (λ v. HasJust v.items (has ranges.now)) }
{
    let mut out = Vec::new(alloc);
    for r in ranges {
        if let Some(chars) = chars_between(r.0, r.1) {
            out.push(chars)?;
        }
    }
    Ok(out)
}

/// The characters from one code point to another, or none if there are none.
fn chars_between(first: u32, last: u32) -> Option<(char, char)>
    ensures ascends { IfSome result (λ r. r.0 ≤ r.1) }
    ensures some { IfSome result (λ r. (c : ℕ) → IsScalar c → in_range c r ≡ in_range c (first, last)) }
    ensures none { IsNone result → (c : ℕ) → IsScalar c → in_range c (first, last) ≡ false }
{
    let low = if first < 0xd800 || 0xe000 <= first {
        first
    } else {
        0xe000
    };
    let high = if last < 0xd800 {
        last
    } else if last < 0xe000 {
        0xd7ff
    } else {
        last.min(0x10_ffff)
    };
    let (Some(low), Some(high)) = (char::from_u32(low), char::from_u32(high)) else {
        return None;
    };
    if low <= high { Some((low, high)) } else { None }
}
