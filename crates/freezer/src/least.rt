//! The least layout of a value, and its packing there.

ghost use Rattle.std.specs.Prelude.{◌≡◌, ◌≤◌, IfOk, true};
ghost use Rattle.idl_profile.specs.Types.{root_of};
ghost use Rattle.idl_parse.specs.Parsed.{definition_of};
ghost use Rattle.type_kinds.specs.KindsOf.{kinds_of};
ghost use Rattle.frozen_model.specs.Trees.{kinds};
ghost use Rattle.frozen_model.specs.Values.{Of, cells, cell_limit};
ghost use Rattle.frozen_model.specs.Layouts.{Version2};
ghost use Rattle.frozen_model.specs.Packing.{Packs};
ghost use Rattle.frozen_model.specs.Holding.{Least};
ghost use Rattle.layout_tree.specs.Nodes.{layout_of, IsSettled};
ghost use Rattle.measure_pass.specs.Measuring.{packed_length};
ghost use Rattle.typed_tree.specs.References.{value_of_ref};

use crate::pack::freeze_into;
use block_region::Region;
use fz_base::Steps;
use layout_tree::Layouts;
use measure_pass::{Measured, measure};
use std::alloc::{AllocError, Global};
use std::marker::Brand;
use std::sync::ledger::{Blank, Ledger};
use thrift_idl::Definition;
use typed_tree::TreeRef;

/// A least layout, and the packing in it of the value that it is the least of.
#[derive(Drop)]
pub struct Frozen {
    pub layouts: Layouts,
    pub content: Vec<u8>,
}

/// Measures a value of a definition's root, of at most `cell_limit` cells, with a counter of its own: the
/// least layout of version 2, and the number of bytes of the packing there.
///
/// # Errors
///
/// `AllocError` where memory runs out, and nowhere else.
pub fn measure_alone<L: Ledger>(
    blank: Blank,
    alloc: Global,
    def: &Definition,
    v: TreeRef<'_>,
) -> Result<Measured, AllocError>
    requires name { blank.name ≡ L.name }
    requires parts { blank.parts ≡ L.parts }
    requires form { Of (kinds_of (root_of (definition_of def.now))) (value_of_ref v) }
    requires few { cells (kinds_of (root_of (definition_of def.now))) (value_of_ref v) ≤ cell_limit }
    ensures least { IfOk result (λ m. Least (layout_of m.layouts) (value_of_ref v.entry)) }
    ensures version { IfOk result (λ m. (layout_of m.layouts).version ≡ Version2) }
    ensures relaxed { IfOk result (λ m. (layout_of m.layouts).relaxed ≡ true) }
    ensures kinds { IfOk result (λ m. kinds (layout_of m.layouts).tree
        ≡ kinds_of (root_of (definition_of def.now))) }
    ensures settled { IfOk result (λ m. IsSettled m.layouts) }
    ensures length { IfOk result (λ m. m.content_len
        ≡ packed_length (layout_of m.layouts).tree (value_of_ref v.entry)) }
{
    let mut steps = Steps::<L>::new(blank);
    measure(alloc, def, v, &mut steps)
}

/// The packing of a value of a definition's root in the least layout of version 2, and that layout.
pub fn freeze(alloc: Global, def: &Definition, v: TreeRef<'_>) -> Result<Frozen, AllocError>
    requires form { Of (kinds_of (root_of (definition_of def.now))) (value_of_ref v) }
    requires few { cells (kinds_of (root_of (definition_of def.now))) (value_of_ref v) ≤ cell_limit }
    ensures least { IfOk result (λ f. Least (layout_of f.layouts) (value_of_ref v.entry)) }
    ensures version { IfOk result (λ f. (layout_of f.layouts).version ≡ Version2) }
    ensures relaxed { IfOk result (λ f. (layout_of f.layouts).relaxed ≡ true) }
    ensures kinds { IfOk result (λ f. kinds (layout_of f.layouts).tree
        ≡ kinds_of (root_of (definition_of def.now))) }
    ensures settled { IfOk result (λ f. IsSettled f.layouts) }
    ensures packed { IfOk result (λ f. Packs (layout_of f.layouts).tree (value_of_ref v.entry)
        f.content.items) }
{
    let measured = measure_alone::<Brand>(Blank::new(1), alloc, def, v)?;
    let Measured {
        layouts,
        content_len,
    } = measured;
    let mut region = Region::reserve(alloc, content_len as usize)?;
    freeze_into(&layouts, v, &mut region);
    Ok(Frozen {
        layouts,
        content: region.finish(),
    })
}
