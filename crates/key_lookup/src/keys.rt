//! Keys that stand in order.

ghost use Rattle.std.specs.Prelude.{◌≡◌, ◌+◌, ◌-◌, ◌<◌, ◌^◌, ℕ, List, length, min, slice_get, Some};
ghost use Rattle.std.specs.List.{slice_index_or};
ghost use Rattle.std.specs.declared.cmp.Ordering.{Ordering};
ghost use Rattle.key_lookup.specs.Order.{IsKeyOrder, IsRising};

use fz_base::Steps;
use std::cmp::Ordering;
use std::sync::ledger::Ledger;

/// A list of keys that rises strictly. A search sees it by `compare` alone, and each call of that counts one step.
pub trait Keys<L: Ledger> {
    /// What a search looks for.
    type Key;

    /// What a key means.
    ghost Meaning: { Type 0 };

    /// The meaning of a key that is looked for.
    ghost meaning: { Self.Key → Meaning };

    /// The order of keys.
    ghost order: { Meaning → Meaning → Ordering };

    /// The keys, the lowest first.
    ghost keys: { Self → List Meaning };

    /// How many keys there are.
    fn len(&self) -> u64
        ensures len { result ≡ length (keys self.now) }
        ensures rising { IsRising order (keys self.now) };

    /// How the key at place `i` stands to `key`.
    fn compare(&self, i: u64, key: &Self::Key, steps: &mut Steps<L>) -> Ordering
        requires { i < length (keys self.now) }
        ensures answer { result ≡ order (slice_index_or (keys self.now) i (meaning key.now)) (meaning key.now) }
        ensures step { steps.new ≡ min (steps.old + 1) (2 ^ 64 - 1) };

    /// The order is one.
    ghost lawful: { IsKeyOrder order };
}
