//! The bases of a layout for a value.
ghost use Rattle.std.specs.Prelude.{◌≡◌, OnOk, OnErr};
ghost use Rattle.frozen_model.specs.Values.{Of};
ghost use Rattle.frozen_model.specs.Layouts.{Version2};
ghost use Rattle.frozen_model.specs.Holding.{puts_of, Blank, IsStart};
ghost use Rattle.layout_tree.specs.Nodes.{layout_of, noted_in, IsSettled};
ghost use Rattle.typed_tree.specs.References.{value_of_ref};
ghost use Rattle.value_bounds.specs.Basing.{based_on};

use crate::numbers::survey;
use layout_tree::Layouts;
use std::alloc::{AllocError, Global};
use typed_tree::TreeRef;

/// Gives each leaf of whole numbers the least of its numbers as its base, 0 where there are none, and changes
/// nothing else. It takes memory for the bounds of the layout's nodes; where there is none the layout is as
/// before.
pub fn set_bases(alloc: Global, layouts: &mut Layouts, v: TreeRef<'_>) -> Result<(), AllocError>
    requires version { (layout_of layouts.old).version ≡ Version2 }
    requires blank { Blank (layout_of layouts.old).tree }
    requires form { Of (layout_of layouts.old).tree (value_of_ref v) }
    ensures based { OnOk result (noted_in layouts.new
        ≡ based_on (noted_in layouts.old) (puts_of (layout_of layouts.old).tree (value_of_ref v.entry))) }
    ensures start { OnOk result (IsStart Version2 (layout_of layouts.new).tree (value_of_ref v.entry)) }
    ensures failed { OnErr result (noted_in layouts.new ≡ noted_in layouts.old) }
    ensures version { (layout_of layouts.new).version ≡ (layout_of layouts.old).version }
    ensures relaxed { (layout_of layouts.new).relaxed ≡ (layout_of layouts.old).relaxed }
    ensures settled { IsSettled layouts.old → IsSettled layouts.new }
{
    let bounds = survey(alloc, layouts, v)?;
    for node in 0..layouts.count() {
        if layouts.is_whole(node) {
            layouts.rebase(node, bounds[node as usize].base());
        }
    }
    Ok(())
}
