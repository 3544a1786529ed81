//! What leaves need.

ghost use Rattle.std.specs.Prelude.{◌≡◌};
ghost use Rattle.frozen_model.specs.Trees.{Whole, Leaf, Integer};
ghost use Rattle.frozen_model.specs.Layouts.{Coded, need};
ghost use Rattle.frozen_laws.specs.Everywhere.{RangeFits};
ghost use Rattle.layout_tree.specs.Nodes.{IsNode, at};
ghost use Rattle.layout_tree.specs.Reading.{IsRange};
ghost use Rattle.measure_pass.specs.Growing.{RangeGrew};

use bit_field::{need_signed, need_unsigned};
use layout_tree::Layouts;

/// The width that a leaf of whole numbers needs for a number.
#[inline]
pub(crate) fn need_of(layouts: &Layouts, node: u32, x: i64) -> u32
    requires { IsNode layouts.now node }
    ensures { (k : Whole) (c : Coded) → at layouts.now node ≡ Leaf (Integer k) c → result ≡ need c x }
{
    if layouts.version() == 2 {
        need_unsigned(x.abs_diff(layouts.base(node)))
    } else {
        need_signed(x)
    }
}

/// Notes what a range of `n` items needs whose block is `from` bytes after the start of the block that the
/// range lies in.
pub(crate) fn note_range(layouts: &mut Layouts, node: u32, n: u64, from: u64)
    requires node { IsNode layouts.old node }
    requires range { IsRange (at layouts.old node) }
    requires fits { RangeFits 32 32 n from }
    ensures { RangeGrew (at layouts.old node) n from layouts.old layouts.new node }
{
    let distance = if n == 0 { 0 } else { from };
    layouts.note(node + 1, need_unsigned(distance));
    layouts.note(node + 2, need_unsigned(n));
}
