//! The number of keys below a key, by halving.

ghost use Rattle.std.specs.Prelude.{◌≡◌, ◌+◌, ◌≤◌, length};
ghost use Rattle.frozen_model.specs.Bits.{digits};
ghost use Rattle.key_lookup.specs.Order.{count_below};

use crate::keys::Keys;
use fz_base::Steps;
use std::cmp::Ordering;
use std::sync::ledger::Ledger;

/// The number of keys below a key. It compares at most as often as the number of keys has binary digits.
pub fn lower_bound<L: Ledger, K: Keys<L>>(keys: &K, key: &K::Key, steps: &mut Steps<L>) -> u64
    ensures below { result ≡ count_below K.order (K.keys keys.now) (K.meaning key.now) }
    ensures cost { steps.new ≤ steps.old + digits (length (K.keys keys.now)) }
{
    let mut low = 0;
    let mut high = keys.len();
    while low < high {
        let middle = low + ((high - low) >> 1);
        match keys.compare(middle, key, steps) {
            Ordering::Less => low = middle + 1,
            Ordering::Equal | Ordering::Greater => high = middle,
        }
    }
    low
}
