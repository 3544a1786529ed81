//! What leaves store.

ghost use Rattle.std.specs.Prelude.{◌≡◌, ◌+◌, ◌*◌, ◌^◌, ◌<◌, ◌≤◌, ℕ, IsTrue, ◌↔◌};
ghost use Rattle.frozen_model.specs.Trees.{Whole, Leaf, Integer};
ghost use Rattle.frozen_model.specs.Layouts.{Coded, Fits, Version2, stored, stride};
ghost use Rattle.layout_tree.specs.Nodes.{IsNode, at, layout_of};
ghost use Rattle.freezer.specs.Leaves.{StoresAt};

use layout_tree::Layouts;

/// What a leaf of this width stores for a number that fits it. In version 2, which is `based`, it is the
/// number above the leaf's base, and otherwise in two's complement.
#[inline]
pub(crate) fn stored_number(layouts: &Layouts, based: bool, node: u32, width: u32, x: i64) -> u64
    requires based { IsTrue based ↔ ((layout_of layouts.now).version ≡ Version2) }
    requires node { IsNode layouts.now node }
    requires fits { StoresAt (at layouts.now node) x }
    requires width { width ≡ stride (at layouts.now node) }
    requires narrow { width ≤ 64 }
    ensures stored { (k : Whole) (c : Coded) → at layouts.now node ≡ Leaf (Integer k) c
        → result ≡ stored c x }
    ensures fits { result < 2 ^ width }
{
    if based {
        x.abs_diff(layouts.base(node))
    } else if x >= 0 {
        x as u64
    } else {
        (u64::MAX >> (64 - width)) - (-1 - x) as u64
    }
}
