//! Keys, and how two of one kind stand to each other.

ghost use Rattle.std.specs.Prelude.{◌≡◌, ◌↔◌, ◌<◌, true};
ghost use Rattle.frozen_model.specs.Values.{key_less};
ghost use Rattle.key_order.specs.Keys.{value_of, kind_rank, IsOneKind};

use std::cmp::Ordering;

/// A key: a number, a flag, or the bytes of a text or of a binary. The order is that of `compare_keys`.
#[derive(Clone, Copy, PartialEq, Eq, PartialOrd, Ord)]
pub enum Key<'a> {
    Number(i64),
    Flag(bool),
    Bytes(&'a [u8]),
}

/// How two keys stand to each other: false is before true, numbers go by size, and bytes byte by byte; a number is
/// below
/// a flag, and a flag below bytes.
pub fn compare_keys(a: Key<'_>, b: Key<'_>) -> Ordering
    ensures less { IsOneKind (value_of a.entry) (value_of b.entry)
        → (result ≡ Ordering.Less) ↔ (key_less (value_of a.entry) (value_of b.entry) ≡ true) }
    ensures equal { (result ≡ Ordering.Equal) ↔ (value_of a.entry ≡ value_of b.entry) }
    ensures greater { IsOneKind (value_of a.entry) (value_of b.entry)
        → (result ≡ Ordering.Greater) ↔ (key_less (value_of b.entry) (value_of a.entry) ≡ true) }
    ensures kinds_below { kind_rank (value_of a.entry) < kind_rank (value_of b.entry) → result ≡ Ordering.Less }
    ensures kinds_above { kind_rank (value_of b.entry) < kind_rank (value_of a.entry) → result ≡ Ordering.Greater }
{
    a.cmp(&b)
}
