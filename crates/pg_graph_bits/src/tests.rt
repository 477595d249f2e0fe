//! What no contract says: that calls succeed. The numbers are on both sides of word boundaries.
ghost use Rattle.std.specs.Prelude.{◌≡◌, length, IfOk};

use super::*;
use std::alloc::Global;
use std::test::Fail;

/// The set of these numbers.
fn set_of(alloc: Global, limit: usize, numbers: &[usize]) -> Result<BitSet, Fail>
    ensures { IfOk result (λ set. length set ≡ limit) }
{
    let mut set = BitSet::new(alloc, limit)?;
    for number in numbers {
        if *number < limit {
            set.insert(*number);
        }
    }
    Ok(set)
}

#[test]
fn finds_numbers(rt: HostRuntime) -> Result<(), Fail> {
    let set = set_of(rt.alloc(), 200, &[3, 63, 64, 199])?;
    assert!(rt; set.contains(63));
    assert!(rt; !set.contains(62));
    assert!(rt; !set.contains(1000));
    assert_eq!(rt; set.count(), 4);
    assert_eq!(rt; set.next(0), Some(3));
    assert_eq!(rt; set.next(64), Some(64));
    assert_eq!(rt; set.next(65), Some(199));
    assert_eq!(rt; set.next(200), None);
    Ok(())
}

#[test]
fn unites_and_meets(rt: HostRuntime) -> Result<(), Fail> {
    let mut some = set_of(rt.alloc(), 130, &[1, 128])?;
    let others = set_of(rt.alloc(), 130, &[64, 129])?;
    assert_eq!(rt; some.first_common(&others), None);
    assert!(rt; some.unite(&others));
    assert!(rt; !some.unite(&others));
    assert_eq!(rt; some.count(), 4);
    assert_eq!(rt; some.first_common(&others), Some(64));
    Ok(())
}

#[test]
fn unites_within_a_list(rt: HostRuntime) -> Result<(), Fail> {
    let mut sets = [
        set_of(rt.alloc(), 70, &[1])?,
        set_of(rt.alloc(), 70, &[69])?,
    ];
    assert!(rt; unite_within(&mut sets, 0, 1));
    assert!(rt; !unite_within(&mut sets, 0, 0));
    assert!(rt; sets[0].contains(69));
    assert!(rt; !sets[1].contains(1));
    Ok(())
}
