//! Keys with their places, in order, and the least place whose key repeats.

ghost use Rattle.std.specs.Prelude.{◌≡◌, ◌≢◌, ◌≤◌, ◌⊎◌, length, Some, AllPairs, IsTrue, IfNone, IfSome, MatchOption};
ghost use Rattle.std.specs.Cmp.Lexicographic.{slice_cmp};
ghost use Rattle.std.specs.Ordering.{nat_cmp};
ghost use Rattle.std.specs.List.{AllAdjacentBelow};
ghost use Rattle.std.specs.List.Sorted.{IsPermutation};
ghost use Rattle.key_order.specs.Keys.{AreOneKind, AreRising};
ghost use Rattle.key_order.specs.Entries.{keys, places, placed, AreInTurn};
ghost use Rattle.key_order.specs.Neighbours.{IsLeastNeighbour, IsBelow, Climbs};
ghost use Rattle.key_order.specs.Repeats.{HasNoRepeat, IsLeastRepeat};

use crate::key::Key;
use std::cmp::Ordering;

/// A key and its place, in order by key, and those of one key by place.
#[derive(Clone, Copy, PartialEq, Eq, PartialOrd, Ord)]
pub struct PlacedKey<'a> {
    pub key: Key<'a>,
    pub place: u64,
}

/// Two places of one key.
#[derive(Clone, Copy, Debug, PartialEq, Eq)]
pub struct Repeat {
    pub first: u64,
    pub second: u64,
}

/// The least place whose key stands at an earlier place too, with that earlier place, and `None` where no key stands at
/// two places. The entries are left in order. It takes the time of a sort, or of one pass where each key is below the
/// next, and no memory.
pub fn least_repeat(entries: &mut [PlacedKey<'_>]) -> Option<Repeat>
    requires { AllPairs (λ p q. p ≢ q) (places entries.old) }
    ensures least { MatchOption result (HasNoRepeat (placed entries.old))
        (λ r. IsLeastRepeat (placed entries.old) r.first r.second) }
    ensures moved { IsPermutation entries.old entries.new }
    ensures ordered { AreInTurn entries.new }
    ensures rising { AreOneKind (keys entries.old) → IfNone result (AreRising (keys entries.new)) }
{
    if are_climbing(entries) {
        return None;
    }
    entries.sort_unstable();
    least_neighbour(entries)
}

/// Whether each key is below the next. Where it is, no key repeats, and there is nothing to sort.
fn are_climbing(entries: &[PlacedKey<'_>]) -> bool
    ensures { IsTrue result → AllAdjacentBelow Climbs entries.now (length entries.now) }
{
    for later in 1..entries.len() {
        if !is_below(entries[later - 1].key, entries[later].key) {
            return false;
        }
    }
    true
}

/// Whether a key is below another. Two numbers are compared in place, and bytes where the first ones say it.
#[inline]
fn is_below(a: Key<'_>, b: Key<'_>) -> bool
    ensures { IsTrue result → IsBelow a.entry b.entry }
{
    match (a, b) {
        (Key::Number(x), Key::Number(y)) => x < y,
        (Key::Bytes(x), Key::Bytes(y)) => are_below(x, y),
        _ => a < b,
    }
}

/// Whether bytes are below others.
#[inline]
fn are_below(x: &[u8], y: &[u8]) -> bool
    ensures { IsTrue result → slice_cmp nat_cmp x.now y.now ≡ Ordering.Less }
{
    match (x.split_first(), y.split_first()) {
        (Some((first, _)), Some((other, _))) if *first < *other => true,
        _ => x.cmp(y).is_lt(),
    }
}

/// The places of two neighbours of one key, of such the ones where the second is the least.
fn least_neighbour(entries: &[PlacedKey<'_>]) -> Option<Repeat>
    ensures { IsLeastNeighbour entries.now (length entries.now) result }
{
    let mut least = None;
    for later in 1..entries.len() {
        let before = entries[later - 1];
        let here = entries[later];
        if before.key == here.key {
            let repeat = Repeat {
                first: before.place,
                second: here.place,
            };
            least = Some(lesser(least, repeat));
        }
    }
    least
}

/// Of two repeats the one whose second place is the lesser.
fn lesser(least: Option<Repeat>, repeat: Repeat) -> Repeat
    ensures either { (Some result ≡ least) ⊎ (result ≡ repeat) }
    ensures below_known { IfSome least (λ r. result.second ≤ r.second) }
    ensures below_new { result.second ≤ repeat.second }
{
    match least {
        Some(known) if known.second <= repeat.second => known,
        _ => repeat,
    }
}
