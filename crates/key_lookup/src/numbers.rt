//! Numbers in rising order as keys.

ghost use Rattle.std.specs.Prelude.{◌≡◌, ◌↔◌, ◌<◌, ℕ, IsSome, IfSome};
ghost use Rattle.std.specs.List.Sorted.{IsStrictlyIncreasing};
ghost use Rattle.std.specs.Ordering.{nat_cmp};
ghost use Rattle.key_lookup.specs.NumberOrder.{nat_order};

use crate::keys::Keys;
use fz_base::Steps;
use std::cmp::Ordering;
use std::sync::ledger::Ledger;

/// Numbers that rise strictly, as keys to search in.
#[derive(Clone, Copy)]
pub struct Numbers<'a> {
    numbers: &'a [u64],
    ghost rising: { IsStrictlyIncreasing numbers.now },
}

impl<'a> Numbers<'a> {
    ghost use Rattle.key_lookup.specs.Numbers.{numbers_of};

    /// The numbers as keys, and `None` where they do not rise strictly.
    pub fn new(numbers: &'a [u64]) -> Option<Self>
        ensures rising { IsSome result ↔ IsStrictlyIncreasing numbers.now }
        ensures numbers { IfSome result (λ r. numbers_of r ≡ numbers.now) }
    {
        for i in 1..numbers.len() {
            if numbers[i - 1] >= numbers[i] {
                return None;
            }
        }
        Some(Numbers { numbers })
    }
}

impl<L: Ledger> Keys<L> for Numbers<'_> {
    type Key = u64;

    ghost Meaning = { ℕ };

    ghost meaning = { λ k. k };

    ghost order = { nat_cmp };

    ghost keys = { λ s. s.numbers.now };

    fn len(&self) -> u64 {
        self.numbers.len() as u64
    }

    fn compare(&self, i: u64, key: &u64, steps: &mut Steps<L>) -> Ordering {
        steps.tick();
        self.numbers[i as usize].cmp(key)
    }

    ghost lawful = { nat_order };
}
