//! The frozen file of a value.
ghost use Rattle.std.specs.Prelude.{◌≡◌, ◌+◌, ◌++◌, ◌^◌, ◌<◌, ◌≤◌, length, take, true, IfOk};
ghost use Rattle.idl_profile.specs.Types.{root_of};
ghost use Rattle.idl_parse.specs.Parsed.{definition_of};
ghost use Rattle.type_kinds.specs.KindsOf.{kinds_of};
ghost use Rattle.frozen_model.specs.Trees.{kinds};
ghost use Rattle.frozen_model.specs.Values.{Of, cells, cell_limit};
ghost use Rattle.frozen_model.specs.Layouts.{Version2};
ghost use Rattle.frozen_model.specs.Holding.{Holds, Least};
ghost use Rattle.frozen_model.specs.Files.{frozen};
ghost use Rattle.layout_tree.specs.Nodes.{layout_of, IsSettled};
ghost use Rattle.measure_pass.specs.Measuring.{packed_length};
ghost use Rattle.typed_tree.specs.References.{value_of_ref};
ghost use Rattle.frozen_file.specs.FrozenFile.{IsLeastFile, IsFrozenFile, IsRefrozenFile};

use block_region::Region;
use file_check::header;
use freezer::{freeze_into, measure_alone};
use fz_base::Steps;
use layout_schema::{schemas_are_short, write_schema, written_schema_is_schema};
use layout_tree::Layouts;
use measure_pass::{Measured, measure_over};
use std::alloc::{AllocError, Global};
use std::marker::Brand;
use std::sync::ledger::{Blank, Ledger};
use thrift_idl::Definition;
use typed_tree::TreeRef;

// Measures a value of a layout anew, with a counter of its own.
fn measure_again<L: Ledger>(
    blank: Blank,
    alloc: Global,
    from: &Layouts,
    v: TreeRef<'_>,
) -> Result<Measured, AllocError>
    requires name { blank.name ≡ L.name }
    requires parts { blank.parts ≡ L.parts }
    requires form { Of (layout_of from.now).tree (value_of_ref v) }
    requires few { cells (layout_of from.now).tree (value_of_ref v) ≤ cell_limit }
    ensures least { IfOk result (λ m. Least (layout_of m.layouts) (value_of_ref v.entry)) }
    ensures version { IfOk result (λ m. (layout_of m.layouts).version ≡ Version2) }
    ensures relaxed { IfOk result (λ m. (layout_of m.layouts).relaxed ≡ true) }
    ensures kinds { IfOk result (λ m. kinds (layout_of m.layouts).tree ≡ kinds (layout_of from.now).tree) }
    ensures settled { IfOk result (λ m. IsSettled m.layouts) }
    ensures length { IfOk result (λ m. m.content_len
        ≡ packed_length (layout_of m.layouts).tree (value_of_ref v.entry)) }
{
    let mut steps = Steps::<L>::new(blank);
    let layouts = Layouts::blank(alloc, from)?;
    let measured = measure_over(alloc, layouts, v, &mut steps)?;
    Ok(measured)
}

// Writes bytes into the next block of a region, which has room for them.
fn put(region: &mut Region, bytes: &[u8])
    requires { region.old.taken + length bytes.now ≤ length region.old.bytes }
    ensures taken { region.new.taken ≡ region.old.taken + length bytes.now }
    ensures length { length region.new.bytes ≡ length region.old.bytes }
    ensures front { take region.new.taken region.new.bytes
        ≡ take region.old.taken region.old.bytes ++ bytes.now }
{
    let Some(block) = region.take(bytes.len()) else {
        return;
    };
    region.copy(&block, bytes);
}

// The file of a value that a layout holds, with these bytes as the layout's schema. After its one region it
// takes no memory.
fn file_with(
    alloc: Global,
    schema: &[u8],
    layouts: &Layouts,
    v: TreeRef<'_>,
    content_len: usize,
) -> Result<Vec<u8>, AllocError>
    requires schema { length schema.now < 2 ^ 32 }
    requires holds { Holds (layout_of layouts.now).tree (value_of_ref v) }
    requires length { content_len ≡ packed_length (layout_of layouts.now).tree (value_of_ref v) }
    requires small { content_len ≤ 2 ^ 29 }
    ensures { IfOk result (λ out.
        out.items ≡ frozen (λ d. schema.now) (layout_of layouts.now) (value_of_ref v.entry)) }
{
    let header = header(schema.len() as u32);
    let mut region = Region::reserve(alloc, header.len() + schema.len() + content_len)?;
    put(&mut region, &header);
    put(&mut region, schema);
    freeze_into(layouts, v, &mut region);
    let _left = region.left();
    Ok(region.finish())
}

// The file of a value in its least layout, of version 2 and relaxed, as it was measured.
fn least_file(alloc: Global, measured: Measured, v: TreeRef<'_>) -> Result<Vec<u8>, AllocError>
    requires least { Least (layout_of measured.layouts) (value_of_ref v) }
    requires version { (layout_of measured.layouts).version ≡ Version2 }
    requires relaxed { (layout_of measured.layouts).relaxed ≡ true }
    requires few { cells (layout_of measured.layouts).tree (value_of_ref v) ≤ cell_limit }
    requires settled { IsSettled measured.layouts }
    requires length { measured.content_len
        ≡ packed_length (layout_of measured.layouts).tree (value_of_ref v) }
    ensures { let l = (layout_of measured.layouts).tree in
        IfOk result (λ out. IsLeastFile (kinds l) (value_of_ref v.entry) out.items) }
{
    written_schema_is_schema();
    schemas_are_short();
    let Measured {
        layouts,
        content_len,
    } = measured;
    let schema = write_schema(alloc, &layouts)?;
    file_with(alloc, &schema, &layouts, v, content_len as usize)
}

/// The frozen file of a value of a definition's root in its least layout of version 2, as docs/FORMAT.md
/// tells it.
pub fn frozen_file(alloc: Global, def: &Definition, v: TreeRef<'_>) -> Result<Vec<u8>, AllocError>
    requires form { Of (kinds_of (root_of (definition_of def.now))) (value_of_ref v) }
    requires few { cells (kinds_of (root_of (definition_of def.now))) (value_of_ref v) ≤ cell_limit }
    ensures { IfOk result (λ out. IsFrozenFile (definition_of def.now) (value_of_ref v.entry) out.items) }
{
    let measured = measure_alone::<Brand>(Blank::new(1), alloc, def, v)?;
    least_file(alloc, measured, v)
}

/// The frozen file of a value of a layout, of either version, in the least layout of version 2 with the kinds
/// of that one, whatever its widths and bases.
pub fn refrozen_file(alloc: Global, from: &Layouts, v: TreeRef<'_>) -> Result<Vec<u8>, AllocError>
    requires form { Of (layout_of from.now).tree (value_of_ref v) }
    requires few { cells (layout_of from.now).tree (value_of_ref v) ≤ cell_limit }
    ensures { IfOk result (λ out.
        IsRefrozenFile (layout_of from.now).tree (value_of_ref v.entry) out.items) }
{
    let anew = measure_again::<Brand>(Blank::new(1), alloc, from, v)?;
    least_file(alloc, anew, v)
}
