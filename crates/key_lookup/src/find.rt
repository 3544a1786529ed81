//! The place of a key, by halving.

ghost use Rattle.std.specs.Prelude.{◌≡◌, ◌+◌, ◌≤◌, length, MatchOption, Contains, slice_get, Some};
ghost use Rattle.frozen_model.specs.Bits.{digits};

use crate::keys::Keys;
use fz_base::Steps;
use std::cmp::Ordering;
use std::sync::ledger::Ledger;

/// The place of a key, and `None` where it is not among the keys. It compares at most as often as the number of keys
/// has binary digits.
pub fn search<L: Ledger, K: Keys<L>>(keys: &K, key: &K::Key, steps: &mut Steps<L>) -> Option<u64>
    ensures place { MatchOption result (¬ Contains (K.keys keys.now) (K.meaning key.now))
        (λ i. slice_get (K.keys keys.now) i ≡ Some (K.meaning key.now)) }
    ensures cost { steps.new ≤ steps.old + digits (length (K.keys keys.now)) }
{
    let mut low = 0;
    let mut high = keys.len();
    while low < high {
        let middle = low + ((high - low) >> 1);
        match keys.compare(middle, key, steps) {
            Ordering::Less => low = middle + 1,
            Ordering::Equal => return Some(middle),
            Ordering::Greater => high = middle,
        }
    }
    None
}
