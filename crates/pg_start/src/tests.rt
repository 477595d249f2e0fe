//! What no contract says: that calls succeed. The expected answers for keys and words are written by hand.
ghost use Rattle.std.specs.Prelude.{◌<◌, length};

use super::*;
use pg_class::Class;
use pg_text::{Characters, Text, Texts};
use std::alloc::Global;
use std::test::Fail;

fn key(alloc: Global, text: &[char], excluded: &[(char, char)]) -> Result<Start, Fail>
    requires { 0 < length text.now }
{
    let excluded = Class::from_ranges(alloc, excluded)?;
    let start = Start::key(alloc, text, &excluded)?;
    Ok(start)
}

fn name(alloc: Global, reserved: &[Characters]) -> Result<Start, Fail> {
    let letters = Class::from_ranges(alloc, &[('a', 'z')])?;
    let reserved = Texts::of(alloc, reserved)?;
    let start = Start::word(&letters, &letters, &reserved)?;
    Ok(start)
}

#[test]
fn tells_keys_apart(rt: HostRuntime) -> Result<(), Fail> {
    let lets = key(rt.alloc(), &['l', 'e', 't', 's'], &[])?;
    let open = key(rt.alloc(), &['l', 'e', 't'], &[])?;
    let whole = key(rt.alloc(), &['l', 'e', 't'], &[('a', 'z')])?;
    assert!(rt; !apart(&open, &lets));
    assert!(rt; apart(&whole, &lets));
    assert!(rt; !apart(&Start::end(), &Start::end()));
    let less = key(rt.alloc(), &['<'], &[('=', '=')])?;
    let less_or_equal = key(rt.alloc(), &['<', '='], &[])?;
    assert!(rt; apart(&less, &less_or_equal));
    apart_is_symmetric();
    Ok(())
}

#[test]
fn tells_words_apart(rt: HostRuntime) -> Result<(), Fail> {
    let reserved = [Characters::new(vec![in rt.alloc(); 'l', 'e', 't']?)];
    let whole = key(rt.alloc(), &['l', 'e', 't'], &[('a', 'z')])?;
    let any = name(rt.alloc(), &[])?;
    let others = name(rt.alloc(), &reserved)?;
    assert!(rt; !apart(&whole, &any));
    assert!(rt; apart(&whole, &others));
    starts_apart_never_meet();
    Ok(())
}

#[test]
fn matches(rt: HostRuntime) -> Result<(), Fail> {
    let text = Text::from_bytes(rt.alloc(), b"let x")?;
    let digits = Class::from_ranges(rt.alloc(), &[('0', '9')])?;
    let digit = Start::class(&digits)?;
    let any = name(rt.alloc(), &[])?;
    assert!(rt; matches_at(&any, &text, 0));
    assert!(rt; !matches_at(&digit, &text, 0));
    assert!(rt; matches!(digit.view(), StartKind::Class(_)));
    Ok(())
}
