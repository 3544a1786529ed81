//! Keys compared, and the least repeat among none, one, and more.
ghost use Rattle.std.specs.Prelude.{◌≡◌, ◌≢◌, AllPairs, IfOk};
ghost use Rattle.key_order.specs.Entries.{places};

use key_order::{Key, PlacedKey, Repeat, compare_keys, least_repeat};
use std::alloc::{AllocError, Global};
use std::cmp::Ordering;
use std::test::Fail;

#[test]
fn keys_of_one_kind_are_compared(rt: HostRuntime) {
    let pairs = [
        (Key::Flag(false), Key::Flag(true)),
        (Key::Number(i64::MIN), Key::Number(-1)),
        (Key::Number(-1), Key::Number(0)),
        (Key::Number(255), Key::Number(256)),
        (Key::Bytes(b""), Key::Bytes(b"a")),
        (Key::Bytes(b"a"), Key::Bytes(b"ab")),
        (Key::Bytes(b"ab"), Key::Bytes(b"b")),
    ];
    for (less, greater) in pairs {
        assert!(rt; compare_keys(less, greater) == Ordering::Less);
        assert!(rt; compare_keys(greater, less) == Ordering::Greater);
        assert!(rt; compare_keys(less, less) == Ordering::Equal);
    }
}

/// The keys at the places 0, 1, 2 and so on.
fn numbered<'a>(alloc: Global, keys: &[Key<'a>]) -> Result<Vec<PlacedKey<'a>>, AllocError>
    ensures { IfOk result (λ es. AllPairs (λ p q. p ≢ q) (places es.items)) }
{
    let mut entries = Vec::new(alloc);
    for key in keys {
        let place = entries.len() as u64;
        entries.push(PlacedKey { key: *key, place })?;
    }
    Ok(entries)
}

fn repeat_of(alloc: Global, keys: &[Key<'_>]) -> Result<Option<Repeat>, AllocError> {
    let mut entries = numbered(alloc, keys)?;
    Ok(least_repeat(entries.as_mut_slice()))
}

fn places_of(first: u64, second: u64) -> Option<Repeat> {
    Some(Repeat { first, second })
}

#[test]
fn the_least_repeat_is_found(rt: HostRuntime) -> Result<(), Fail> {
    let alloc = rt.alloc();
    let one = Key::Number(1);
    let two = Key::Number(2);
    let three = Key::Number(3);
    assert_eq!(rt; repeat_of(alloc, &[])?, None);
    assert_eq!(rt; repeat_of(alloc, &[one])?, None);
    assert_eq!(rt; repeat_of(alloc, &[one, two, three])?, None);
    assert_eq!(rt; repeat_of(alloc, &[one, one, two])?, places_of(0, 1));
    assert_eq!(rt; repeat_of(alloc, &[three, one, two])?, None);
    assert_eq!(rt; repeat_of(alloc, &[two, one, three, two])?, places_of(0, 3));
    assert_eq!(rt;
        repeat_of(alloc, &[three, two, one, two, three])?,
        places_of(1, 3)
    );
    assert_eq!(rt; repeat_of(alloc, &[one, one, one])?, places_of(0, 1));
    let (ab, a, empty) = (Key::Bytes(b"ab"), Key::Bytes(b"a"), Key::Bytes(b""));
    assert_eq!(rt; repeat_of(alloc, &[ab, a, empty])?, None);
    assert_eq!(rt; repeat_of(alloc, &[a, ab, empty, ab])?, places_of(1, 3));
    let (yes, no) = (Key::Flag(true), Key::Flag(false));
    assert_eq!(rt; repeat_of(alloc, &[yes, no, yes])?, places_of(0, 2));
    Ok(())
}

#[test]
fn the_entries_are_left_in_order(rt: HostRuntime) -> Result<(), Fail> {
    let keys = [
        Key::Bytes(b"b"),
        Key::Bytes(b""),
        Key::Bytes(b"ab"),
        Key::Bytes(b"a"),
    ];
    let mut entries = numbered(rt.alloc(), &keys)?;
    assert_eq!(rt; least_repeat(entries.as_mut_slice()), None);
    let places = [1, 3, 2, 0];
    assert_eq!(rt; entries.len(), places.len());
    for (entry, place) in entries.iter().zip(&places) {
        assert_eq!(rt; entry.place, *place);
    }
    Ok(())
}
