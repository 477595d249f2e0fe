//! Characters at the edges of each kind, with the answers of Unicode's data files.
//!
//! Each character is given to the kind's test and to its class. These tests also show that each call succeeds with ample memory.

use crate::kind::Kind;
use std::test::Fail;

#[test]
fn tells_characters(rt: HostRuntime) -> Result<(), Fail> {
    for (kind, inside, outside) in [
        (Kind::Digit, "09", "/:٣"),
        (Kind::OctalDigit, "07", "/8"),
        (Kind::HexDigit, "09AFaf", "gG@`"),
        (Kind::Letter, "Aé中", "2½_"),
        (Kind::Alphanumeric, "Aé中2½Ⅳ٣", " _"),
        (
            Kind::Space,
            " \t\u{b}\r\u{a0}\u{2003}",
            "\u{8}\u{e}\u{85}\u{2028}a",
        ),
    ] {
        let class = kind.class(rt.alloc())?;
        for c in inside.chars() {
            assert!(rt; kind.has(c) && class.has(c), "{kind:?} {c:?}");
        }
        for c in outside.chars() {
            assert!(rt; !kind.has(c) && !class.has(c), "{kind:?} {c:?}");
        }
    }
    Ok(())
}
