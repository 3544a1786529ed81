//! The bounds of all numbers of a value.
ghost use Rattle.std.specs.Prelude.{◌≡◌, IfOk, map};
ghost use Rattle.frozen_model.specs.Values.{Of};
ghost use Rattle.frozen_model.specs.Holding.{puts_of};
ghost use Rattle.layout_tree.specs.Nodes.{layout_of};
ghost use Rattle.typed_tree.specs.References.{value_of_ref};
ghost use Rattle.value_bounds.specs.Seeing.{numbers, bounds_of};

use crate::bounds::Bounds;
use crate::walk::see_part;
use layout_tree::Layouts;
use std::alloc::{AllocError, Global};
use typed_tree::TreeRef;

/// The bounds of the numbers that packing a value puts at each node of a layout, by the node's number: of a
/// flag or an isset 0 and 1, of a range the counts. Distances turn on widths; they are left out, as are nodes
/// with nodes below them.
pub fn survey(alloc: Global, layouts: &Layouts, v: TreeRef<'_>) -> Result<Vec<Bounds>, AllocError>
    requires { Of (layout_of layouts.now).tree (value_of_ref v) }
    ensures { let l = (layout_of layouts.now).tree in
        IfOk result (λ bounds. bounds.items ≡ map bounds_of (numbers (puts_of l (value_of_ref v.entry)))) }
{
    let none = Bounds {
        least: i64::MAX,
        greatest: i64::MIN,
    };
    let mut bounds = vec![in alloc; none; layouts.count() as usize]?;
    see_part(layouts, 0, v, &mut bounds);
    Ok(bounds)
}
