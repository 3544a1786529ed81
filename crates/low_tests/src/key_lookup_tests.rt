// A key of a short list, and lists of 0 to 20 odd numbers, with each key, each gap and both ends.
ghost use Rattle.std.specs.Prelude.{◌≡◌};

use fz_base::Steps;
use key_lookup::{Numbers, lower_bound, search};
use std::marker::Brand;
use std::sync::ledger::{Blank, Ledger};

/// The place of a key and the number of keys below it, each with the steps that it took.
fn answers<L: Ledger>(
    blank: Blank,
    numbers: Numbers<'_>,
    key: u64,
) -> ((Option<u64>, u64), (u64, u64))
    requires name { blank.name ≡ L.name }
    requires parts { blank.parts ≡ L.parts }
{
    let mut steps = Steps::<L>::new(blank);
    let place = search(&numbers, &key, &mut steps);
    let searched = steps.count();
    let below = lower_bound(&numbers, &key, &mut steps);
    let bounded = steps.count().saturating_sub(searched);
    ((place, searched), (below, bounded))
}

#[test]
fn a_key_is_found_by_halving(rt: HostRuntime) {
    let numbers = Numbers::new(&[2, 3, 5, 7]).expect(&rt, "these numbers rise");
    let ((place, searched), (below, bounded)) = answers::<Brand>(Blank::new(1), numbers, 5);
    assert_eq!(rt; place, Some(2));
    assert_eq!(rt; below, 2);
    assert!(rt; searched <= 3 && bounded <= 3);
}

#[test]
fn keys_gaps_and_ends(rt: HostRuntime) {
    let odds = [
        1, 3, 5, 7, 9, 11, 13, 15, 17, 19, 21, 23, 25, 27, 29, 31, 33, 35, 37, 39,
    ];
    let digits = [
        0, 1, 2, 2, 3, 3, 3, 3, 4, 4, 4, 4, 4, 4, 4, 4, 5, 5, 5, 5, 5,
    ];
    for n in 0..=20 {
        let numbers = Numbers::new(&odds[..n]).expect(&rt, "odd numbers rise");
        for key in 0..=2 * n as u64 {
            let ((place, searched), (below, bounded)) = answers::<Brand>(
                Blank::new(1),
                numbers,
                key,
            );
            let expected = if key % 2 == 1 { Some(key / 2) } else { None };
            assert_eq!(rt; place, expected, "the place of {key} in {n} odd numbers");
            assert_eq!(rt; below, key / 2, "below {key} in {n} odd numbers");
            assert!(rt; searched <= digits[n], "{searched} steps for {key} in {n}");
            assert!(rt; bounded <= digits[n], "{bounded} steps for {key} in {n}");
        }
    }
    assert!(rt; Numbers::new(&[1, 3, 3]).is_none());
}
