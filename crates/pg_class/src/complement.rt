//! The characters that a class leaves out, as a class.
//!
//! A gap is a range of characters between two neighbours of a class, before its first range or after its last. Gaps
//! ascend as the ranges do, and a whole range lies between any two of them, so they are a class too. Only `class.rt`
//! calls this.
ghost use Rattle.std.specs.Prelude.{◌≡◌, ◌<◌, ℕ, not, unwrap_or, IfOk};
ghost use Rattle.std.specs.Char.{IsScalar};
ghost use Rattle.pg_class.specs.Gaps.{after, before, gaps};
ghost use Rattle.pg_class.specs.Ranges.{IsClass, has};

use std::alloc::{AllocError, Global};

/// The class of the characters that this class leaves out.
pub fn complemented(alloc: Global, class: &[(char, char)]) -> Result<Vec<(char, char)>, AllocError>
    requires { IsClass class.now }
    ensures class { IfOk result (λ v. IsClass v.items) }
    ensures members { IfOk result (λ v.
        (c : ℕ) → IsScalar c → has v.items c ≡ not (has class.now c)) }
{
    let ranges = gaps(alloc, class)?;
    Ok(ranges)
}

fn gaps(alloc: Global, class: &[(char, char)]) -> Result<Vec<(char, char)>, AllocError>
    ensures { IfOk result (λ v. v.items ≡ gaps 0 class.now) }
{
    let mut gaps = Vec::new(alloc);
    let mut low = Some('\u{0}');
    for range in class {
        let (first, last) = *range;
        if let Some(low) = low {
            if low < first {
                gaps.push((low, before(first)))?;
            }
        }
        low = after(last);
    }
    if let Some(low) = low {
        gaps.push((low, char::MAX))?;
    }
    Ok(gaps)
}

/// The next character, if there is one.
fn after(c: char) -> Option<char>
    ensures { unwrap_or result 0x11_0000 ≡ after c }
{
    if c == '\u{d7ff}' {
        return Some('\u{e000}');
    }
    char::from_u32(u32::from(c) + 1)
}

/// The previous character of one that isn't the first.
fn before(c: char) -> char
    requires { 0 < c }
    ensures { result ≡ before c }
{
    if c == '\u{e000}' {
        return '\u{d7ff}';
    }
    char::from_u32(u32::from(c) - 1).unwrap()
}
