//! What no contract says: that calls succeed, and the printed texts.
use super::*;
use std::alloc::Global;
use std::test::Fail;

#[test]
fn decodes(rt: HostRuntime) -> Result<(), Fail> {
    let text = Text::from_bytes(rt.alloc(), b"1\xc3\xa9\xe2\x82\xac\xf0\x9f\x98\x80")?;
    assert_eq!(rt; text.len(), 4);
    assert!(rt; !text.is_empty());
    assert_eq!(rt; text.characters(), ['1', 'é', '€', '😀'].as_slice());
    assert_eq!(rt; text.char_at(3), Some('😀'));
    assert_eq!(rt; text.char_at(4), None);
    let empty = Text::from_bytes(rt.alloc(), b"")?;
    assert!(rt; empty.is_empty());
    Ok(())
}

#[test]
fn refuses(rt: HostRuntime) -> Result<(), Fail> {
    let cut = Text::from_bytes(rt.alloc(), b"1\xe2\x82");
    assert!(rt; matches!(cut, Err(TextFault::NotUtf8)));
    let mut bytes = vec![in rt.alloc(); b'7'; LIMIT]?;
    let full = Text::from_bytes(rt.alloc(), bytes.as_slice())?;
    assert_eq!(rt; full.len(), LIMIT);
    bytes.push(b'7')?;
    let long = Text::from_bytes(rt.alloc(), bytes.as_slice());
    assert!(rt; matches!(long, Err(TextFault::TooLong)));
    Ok(())
}

#[test]
fn places(rt: HostRuntime) -> Result<(), Fail> {
    let text = Text::from_bytes(rt.alloc(), b"\t1\n\t+")?;
    let wanted = [(1, 1), (1, 9), (1, 10), (2, 1), (2, 9), (2, 10)];
    for (place, (line, column)) in wanted.into_iter().enumerate() {
        assert!(rt; place <= text.len());
        assert_eq!(rt; text.position(place), Pos { line, column }, "at {place}");
    }
    assert_eq!(rt;
        position_in(&['a', '\t', 'b'], 2),
        Pos { line: 1, column: 9 }
    );
    Ok(())
}

#[test]
fn prints(rt: HostRuntime) -> Result<(), Fail> {
    let faults = [
        (TextFault::NotUtf8, "P1 not UTF-8"),
        (TextFault::TooLong, "P2 text too long"),
        (TextFault::Memory, "out of memory"),
    ];
    for (fault, wanted) in faults {
        assert_eq!(rt; format!(in rt.alloc(); "{fault}")?.as_str(), wanted);
    }
    let name = Characters::new(vec![in rt.alloc(); 'a', 'é']?);
    assert_eq!(rt; format!(in rt.alloc(); "{name}")?.as_str(), "aé");
    Ok(())
}

#[test]
fn keeps_characters(rt: HostRuntime) -> Result<(), Fail> {
    let name = Characters::new(vec![in rt.alloc(); '€', 'x']?);
    assert_eq!(rt; name.len(), 2);
    assert!(rt; !name.is_empty());
    assert_eq!(rt; name.as_slice(), ['€', 'x'].as_slice());
    Ok(())
}

#[test]
fn turns_texts_into_characters_and_back(rt: HostRuntime) -> Result<(), Fail> {
    let characters = characters_of(rt.alloc(), "aé€")?;
    assert_eq!(rt; characters.as_slice(), ['a', 'é', '€'].as_slice());
    assert_eq!(rt; utf8(rt.alloc(), characters.as_slice())?.as_str(), "aé€");
    Ok(())
}

/// `count` texts of one character, with successive characters.
fn some_texts(alloc: Global, count: u8) -> Result<Vec<Characters>, Fail> {
    let mut texts = Vec::new(alloc);
    for number in 0..count {
        texts.push(Characters::new(vec![in alloc; (b'0' + number % 64) as char]?))?;
    }
    Ok(texts)
}

#[test]
fn finds_texts(rt: HostRuntime) -> Result<(), Fail> {
    for count in [0, 1, 16, 17, 40] {
        let texts = Texts::new(rt.alloc(), some_texts(rt.alloc(), count)?)?;
        let shared = texts.share()?;
        drop(texts);
        assert_eq!(rt; shared.as_slice().len(), usize::from(count));
        assert_eq!(rt; shared.contains(&['0']), count > 0);
        assert_eq!(rt; shared.contains(&['@']), count > 16);
        assert!(rt; !shared.contains(&[]));
        assert!(rt; !shared.contains(&['0', '0']));
    }
    Ok(())
}

#[test]
fn keeps_texts_that_are_equal(rt: HostRuntime) -> Result<(), Fail> {
    let mut twice = some_texts(rt.alloc(), 20)?;
    twice.append(&mut some_texts(rt.alloc(), 20)?)?;
    let texts = Texts::of(rt.alloc(), twice.as_slice())?;
    assert_eq!(rt; texts.as_slice().len(), 40);
    assert_eq!(rt; texts.as_slice()[39].as_slice(), ['C'].as_slice());
    assert!(rt; texts.contains(&['C']));
    assert!(rt; !texts.contains(&['D']));
    Ok(())
}
