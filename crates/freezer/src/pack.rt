//! The packing of a whole value.

ghost use Rattle.std.specs.Prelude.{◌≡◌, ◌+◌, length, take, drop};
ghost use Rattle.frozen_model.specs.Layouts.{stride};
ghost use Rattle.frozen_model.specs.Packing.{Packs, extent, bytes_for};
ghost use Rattle.frozen_model.specs.Holding.{Holds};
ghost use Rattle.layout_tree.specs.Nodes.{layout_of};
ghost use Rattle.typed_tree.specs.References.{value_of_ref};

use crate::write::write_part;
use block_region::Region;
use layout_tree::Layouts;
use typed_tree::TreeRef;

/// Writes the packing of a value that the layout holds into the bytes that are left of a region, exactly so
/// many, and takes them all. It takes no memory and cannot fail.
pub fn freeze_into(layouts: &Layouts, v: TreeRef<'_>, region: &mut Region)
    requires holds { Holds (layout_of layouts.now).tree (value_of_ref v) }
    requires left { let l = (layout_of layouts.now).tree in
        length region.old.bytes ≡ region.old.taken + (bytes_for (stride l) + extent l (value_of_ref v)) }
    ensures taken { region.new.taken ≡ length region.new.bytes }
    ensures length { length region.new.bytes ≡ length region.old.bytes }
    ensures before { take region.old.taken region.new.bytes ≡ take region.old.taken region.old.bytes }
    ensures packed { Packs (layout_of layouts.now).tree (value_of_ref v.entry)
        (drop region.old.taken region.new.bytes) }
{
    let based = layouts.version() == 2;
    let bits = layouts.bits(0) as usize;
    let _left = region.left();
    let Some(root) = region.take((bits + 7) / 8) else {
        return;
    };
    write_part(layouts, based, 0, v, region, &root, 0);
    let _left = region.left();
}
