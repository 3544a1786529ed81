//! What is so of every layout, as functions whose contracts are the laws.

ghost use Rattle.frozen_model.specs.Layouts.{IsDescribed};
ghost use Rattle.layout_tree.specs.Listing.{BasesStand};
ghost use Rattle.layout_tree.specs.Nodes.{layout_of, noted_in, settled_of};

use crate::layouts::Layouts;

/// A layout is one of its version within the limits, and so is the one that settling would make of it. In the
/// place of a base that a leaf has not stands 0.
pub fn layouts_are_described(_layouts: &Layouts)
    ensures bits { IsDescribed (layout_of _layouts.now) }
    ensures noted { IsDescribed (settled_of _layouts.now) }
    ensures bases { BasesStand (layout_of _layouts.now).version (noted_in _layouts.now) }
{}
