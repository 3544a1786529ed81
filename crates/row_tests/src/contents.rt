//! Contents of worked rows: frozen, and packed under layouts of given widths.

ghost use Rattle.std.specs.Prelude.{◌≡◌, ◌+◌, ◌^◌, ◌<◌, ◌≤◌, length, drop, true};
ghost use Rattle.std.specs.List.{AllByRecursion};
ghost use Rattle.frozen_model.specs.Layouts.{stride};
ghost use Rattle.frozen_model.specs.Packing.{bytes_for};
ghost use Rattle.layout_tree.specs.Nodes.{layout_of};
ghost use Rattle.idl_parse.specs.Parsed.{definition_of};
ghost use Rattle.typed_tree.specs.References.{value_of_ref, value_of_tree};
ghost use Rattle.row_tests.specs.Values.{IsRootValue};
ghost use Rattle.row_tests.specs.Widths.{Rests, IsRangeOf, block_sum};

use crate::fault::RowFault;
use crate::values::{definition, value};
use crate::widths::{first_version, rests, widened};
use block_region::Region;
use freezer::{Frozen, freeze, freeze_into};
use layout_tree::{Layouts, layouts_are_described};
use measure_pass::{RangeSpot, Ranges};
use std::alloc::{AllocError, Global};
use thrift_idl::Definition;
use typed_tree::{Tree, TreeRef};

/// The bytes of the root's block and of the blocks of the ranges behind the first.
fn packed_len(layouts: &Layouts, spots: &[RangeSpot]) -> u64
    requires some { 1 ≤ length spots.now }
    requires each { AllByRecursion (IsRangeOf (layout_of layouts.now).tree) (drop 1 spots.now) }
    requires small { let l = (layout_of layouts.now).tree in
        bytes_for (stride l) + block_sum l (drop 1 spots.now) < 2 ^ 32 }
    ensures { let l = (layout_of layouts.now).tree in
        result ≡ bytes_for (stride l) + block_sum l (drop 1 spots.now) }
{
    let mut len = (layouts.bits(0) as u64 + 7) / 8;
    let mut k = 1;
    while k < spots.len() {
        let spot = spots[k];
        len += layouts.block_len(spot.node, spot.count);
        k += 1;
    }
    len
}

/// The packing of a value under a layout that a pass over it leaves as it is.
fn pack(alloc: Global, layouts: &Layouts, v: TreeRef<'_>) -> Result<Vec<u8>, AllocError>
    requires { Rests (layout_of layouts.now).tree (value_of_ref v) }
{
    layouts_are_described(layouts);
    let ranges = Ranges::gather(alloc, layouts, v)?;
    let len = packed_len(layouts, ranges.spots());
    let mut region = Region::reserve(alloc, len as usize)?;
    freeze_into(layouts, v, &mut region);
    Ok(region.finish())
}

/// The packing of the value that bytes spell, under the layout of the version with these widths.
pub(crate) fn packed(
    alloc: Global,
    text: &str,
    bytes: &[u8],
    version: i32,
    widths: &[(u32, u32)],
) -> Result<Vec<u8>, RowFault> {
    let def = definition(alloc, text)?;
    let tree = value(alloc, &def, bytes)?;
    let v = tree.top();
    let layouts = widened(alloc, &def, v, widths)?;
    if version == 2 {
        return Ok(pack(alloc, &layouts, v)?);
    }
    let mut first = first_version(alloc, &layouts)?;
    if !rests(&mut first, v) {
        return Err(RowFault::Widths);
    }
    Ok(pack(alloc, &first, v)?)
}

/// The least layout of a value of a definition's root, and its packing.
pub(crate) fn freeze_value(
    alloc: Global,
    def: &Definition,
    tree: &Tree,
) -> Result<Frozen, AllocError>
    requires { IsRootValue (definition_of def.now) (value_of_tree tree.now) }
{
    freeze(alloc, def, tree.top())
}

/// The content that the value of bytes freezes to.
pub(crate) fn frozen(alloc: Global, text: &str, bytes: &[u8]) -> Result<Vec<u8>, RowFault> {
    let def = definition(alloc, text)?;
    let tree = value(alloc, &def, bytes)?;
    let frozen = freeze_value(alloc, &def, &tree)?;
    Ok(frozen.content)
}

/// Whether the value that bytes spell has these contents: under the layout of version 1 with the first
/// widths, under the one of version 2 with the second, and frozen.
pub(crate) fn has_contents(
    alloc: Global,
    text: &str,
    bytes: &[u8],
    first_widths: &[(u32, u32)],
    first: &[u8],
    second_widths: &[(u32, u32)],
    second: &[u8],
) -> Result<bool, RowFault> {
    let in_first = packed(alloc, text, bytes, 1, first_widths)?;
    let in_second = packed(alloc, text, bytes, 2, second_widths)?;
    Ok(
        in_first.as_slice() == first
            && in_second.as_slice() == second
            && frozen(alloc, text, bytes)?.as_slice() == second,
    )
}
