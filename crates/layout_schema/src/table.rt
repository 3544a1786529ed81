//! Where the layouts of a schema stand in its bytes.

ghost use Rattle.std.specs.Prelude.{◌≡◌, ◌++◌, IfOk, OnOk, IfErr, map, int_lt};
ghost use Rattle.std.specs.List.{AllByRecursion};
ghost use Rattle.base_lists.specs.InOrder.{in_order};
ghost use Rattle.frozen_model.specs.Layouts.{Version};
ghost use Rattle.compact_wire.specs.declared.kind.Kind.TheVariants.{I16, Map, Struct};
ghost use Rattle.compact_wire.specs.Reads.{pairs, value};
ghost use Rattle.idl_profile.specs.Types.{scalar, i16};
ghost use Rattle.compact_codec.specs.Building.{IsClean, ArePairsClean};
ghost use Rattle.layout_schema.specs.declared.fault.SchemaFault.{SchemaFault};
ghost use Rattle.layout_schema.specs.Schemas.{layout_type, schema_type};
ghost use Rattle.layout_schema.specs.Shapes.{part};
ghost use Rattle.layout_schema.specs.Standing.{layouts_type, meant, meant_pairs, spelled_as};
ghost use Rattle.layout_schema.specs.Table.{layout_value, number_of, IsWhole, AreOf};

use crate::fault::SchemaFault;
use crate::fields::find_field;
use compact_wire::{Kind, read_i16, read_map_header, read_number};
use std::alloc::{AllocError, Global};
use wire_scan::skip_value;

/// A layout's number, and the bytes of its struct.
#[derive(Clone, Copy)]
pub(crate) struct LayoutBytes<'a> {
    pub(crate) number: i16,
    pub(crate) bytes: &'a [u8],
}

// Appends so many layouts, of which each stands behind its number.
fn push_layouts<'a>(
    layouts: &mut Vec<LayoutBytes<'a>>,
    count: u64,
    bytes: &'a [u8],
) -> Result<(), AllocError>
    ensures values { OnOk result ((v : Version)
        → ArePairsClean (scalar i16) (layout_type v) (pairs (value 62 I16) (value 62 Struct) count bytes.now)
        → map (layout_value (layout_type v)) layouts.new.items
        ≡ map (layout_value (layout_type v)) layouts.old.items
        ++ meant_pairs (layout_type v) (pairs (value 62 I16) (value 62 Struct) count bytes.now)) }
    ensures whole { OnOk result ((v : Version)
        → ArePairsClean (scalar i16) (layout_type v) (pairs (value 62 I16) (value 62 Struct) count bytes.now)
        → AllByRecursion (IsWhole (layout_type v)) layouts.old.items
        → AllByRecursion (IsWhole (layout_type v)) layouts.new.items) }
{
    let mut rest = bytes;
    for _ in 0..count {
        let Ok((number, behind)) = read_i16(rest) else {
            return Ok(());
        };
        let Ok((_, after)) = skip_value(62, Kind::Struct, behind, 0) else {
            return Ok(());
        };
        let bytes = &behind[..behind.len() - after.len()];
        layouts.push(LayoutBytes { number, bytes })?;
        rest = after;
    }
    Ok(())
}

// The layouts by rising number.
fn by_number(mut layouts: Vec<LayoutBytes<'_>>) -> Result<Vec<LayoutBytes<'_>>, AllocError>
    ensures { IfOk result (λ sorted. sorted.items ≡ in_order int_lt number_of layouts.entry.items) }
{
    layouts.sort_by_key(|layout| layout.number)?;
    Ok(layouts)
}

// The layouts of the map that the bytes begin with, by rising number; of other bytes none.
fn read_layouts(alloc: Global, bytes: &[u8]) -> Result<Vec<LayoutBytes<'_>>, AllocError>
    ensures { IfOk result (λ layouts. (v : Version) → IsClean (layouts_type v) (value 63 Map bytes.now)
        → AreOf v (meant (layouts_type v) (value 63 Map bytes.now)) layouts.items) }
{
    let mut layouts = Vec::new(alloc);
    let Ok((count, rest)) = read_number(4, 0x7fff_ffff, bytes) else {
        return Ok(layouts);
    };
    if count == 0 {
        return Ok(layouts);
    }
    let Ok((_, rest)) = read_map_header(62, rest) else {
        return Ok(layouts);
    };
    push_layouts(&mut layouts, count, rest)?;
    by_number(layouts)
}

/// The layouts of the schema that the bytes spell, by rising number.
pub(crate) fn schema_layouts(
    alloc: Global,
    bytes: &[u8],
) -> Result<Vec<LayoutBytes<'_>>, SchemaFault>
    ensures layouts { IfOk result (λ layouts. (v : Version)
        → IsClean (schema_type v) (value 64 Struct bytes.now)
        → AreOf v (part (spelled_as (schema_type v) bytes.now) 1) layouts.items) }
    ensures full { IfErr result (λ fault. fault ≡ SchemaFault.NoMemory) }
{
    let Some(standing) = find_field(bytes, 2) else {
        return Ok(Vec::new(alloc));
    };
    match read_layouts(alloc, standing.bytes) {
        Ok(layouts) => Ok(layouts),
        Err(_) => Err(SchemaFault::NoMemory),
    }
}
