//! Parts in which nothing can fail.

ghost use Rattle.std.specs.Prelude.{◌≡◌, true};
ghost use Rattle.frozen_model.specs.Trees.{Whole, Integer, Leaf};
ghost use Rattle.frozen_model.specs.Layouts.{Coded};
ghost use Rattle.layout_tree.specs.Nodes.{IsNode, at};
ghost use Rattle.layout_tree.specs.Reading.{IsStruct, IsLeaf};
ghost use Rattle.content_check.specs.Sure.{IsSure, AlwaysIn};

use crate::leaf::{above_base, greatest_of};
use bit_field::ones;
use layout_tree::{Kind, Layouts};

/// Whether no number that a leaf of whole numbers can have is outside the range of its kind.
fn stays_in_range(layouts: &Layouts, node: u32) -> bool
    requires node { IsNode layouts.now node }
    requires leaf { IsLeaf (at layouts.now node) }
    ensures { result ≡ true → (k : Whole) (c : Coded)
        → at layouts.now node ≡ Leaf (Integer k) c → AlwaysIn (Integer k) c }
{
    if layouts.version() == 2 {
        let most = ones(layouts.bits(node));
        match above_base(layouts.base(node), most, greatest_of(layouts.kind(node))) {
            Some(_) => true,
            None => false,
        }
    } else {
        true
    }
}

/// Whether nothing in a part can fail. It may answer false where nothing can.
#[cycle(sure)]
pub(crate) fn is_sure(layouts: &Layouts, node: u32) -> bool
    requires node { IsNode layouts.now node }
    ensures { result ≡ true → IsSure (at layouts.now node) }
{
    match layouts.kind(node) {
        Kind::Flag => true,
        Kind::I8 | Kind::I16 | Kind::I32 | Kind::I64 | Kind::Size => stays_in_range(layouts, node),
        Kind::Struct | Kind::Pair => fields_sure(layouts, node),
        _ => false,
    }
}

#[cycle(sure)]
fn fields_sure(layouts: &Layouts, node: u32) -> bool
    requires node { IsNode layouts.now node }
    requires structure { IsStruct (at layouts.now node) }
    ensures { result ≡ true → IsSure (at layouts.now node) }
{
    let end = layouts.past(node);
    let mut child = node + 1;
    while child < end {
        if !is_sure(layouts, child) {
            return false;
        }
        child = layouts.past(child);
    }
    true
}
