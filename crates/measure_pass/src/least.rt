//! The least layout of a value.

ghost use Rattle.std.specs.Prelude.{◌≡◌, ◌+◌, ◌*◌, ◌≤◌, IfOk, true};
ghost use Rattle.idl_profile.specs.Types.{root_of};
ghost use Rattle.idl_parse.specs.Parsed.{definition_of};
ghost use Rattle.type_kinds.specs.KindsOf.{kinds_of};
ghost use Rattle.frozen_model.specs.Trees.{kinds, ranges};
ghost use Rattle.frozen_model.specs.Values.{Of, cells, cell_limit};
ghost use Rattle.frozen_model.specs.Layouts.{Version2};
ghost use Rattle.frozen_model.specs.Holding.{Least};
ghost use Rattle.layout_tree.specs.Nodes.{layout_of, IsSettled};
ghost use Rattle.typed_tree.specs.References.{value_of_ref};
ghost use Rattle.measure_pass.specs.Measuring.{IsBlank, packed_length};

use crate::pass::one_pass;
use crate::ranges::{Ranges, pass_over};
use fz_base::Steps;
use layout_tree::{Layouts, layouts_are_described, shape};
use std::alloc::{AllocError, Global};
use std::sync::ledger::Ledger;
use thrift_idl::Definition;
use typed_tree::TreeRef;
use value_bounds::set_bases;

/// A least layout, and the bytes of the packing in it of the value that it is the least of.
#[derive(Drop)]
pub struct Measured {
    pub layouts: Layouts,
    pub content_len: u64,
}

/// The least layout of version 2 of a value of the kinds of a blank layout, and the bytes of the value's
/// packing. The steps rise by at most 2 and 29 for each text, bytes, list, set and map of the kinds.
pub fn measure_over<L: Ledger>(
    alloc: Global,
    blank: Layouts,
    v: TreeRef<'_>,
    steps: &mut Steps<L>,
) -> Result<Measured, AllocError>
    requires blank { IsBlank (layout_of blank) }
    requires settled { IsSettled blank }
    requires form { Of (layout_of blank).tree (value_of_ref v) }
    requires few { cells (layout_of blank).tree (value_of_ref v) ≤ cell_limit }
    ensures least { IfOk result (λ m. Least (layout_of m.layouts) (value_of_ref v.entry)) }
    ensures version { IfOk result (λ m. (layout_of m.layouts).version ≡ Version2) }
    ensures relaxed { IfOk result (λ m. (layout_of m.layouts).relaxed ≡ true) }
    ensures kinds { let l = (layout_of blank).tree in
        IfOk result (λ m. kinds (layout_of m.layouts).tree ≡ kinds l) }
    ensures settled { IfOk result (λ m. IsSettled m.layouts) }
    ensures length { IfOk result (λ m. m.content_len
        ≡ packed_length (layout_of m.layouts).tree (value_of_ref v.entry)) }
    ensures steps { let l = (layout_of blank).tree in steps.new ≤ steps.old + 2 + 29 * ranges l }
{
    layouts_are_described(&blank);
    let mut layouts = blank;
    set_bases(alloc, &mut layouts, v)?;
    one_pass(&mut layouts, v, steps);
    let mut ranges = Ranges::gather(alloc, &layouts, v)?;
    loop {
        let pass = pass_over(&mut layouts, &mut ranges, steps);
        let rests = !pass.widened;
        if rests {
            return Ok(Measured {
                layouts,
                content_len: pass.end,
            });
        }
    }
}

/// The least layout of version 2 of a value of a definition's root, and the bytes of the value's packing. The
/// steps rise by at most 2 and 29 for each text, bytes, list, set and map of the kinds of the root.
pub fn measure<L: Ledger>(
    alloc: Global,
    def: &Definition,
    v: TreeRef<'_>,
    steps: &mut Steps<L>,
) -> Result<Measured, AllocError>
    requires form { Of (kinds_of (root_of (definition_of def.now))) (value_of_ref v) }
    requires few { cells (kinds_of (root_of (definition_of def.now))) (value_of_ref v) ≤ cell_limit }
    ensures least { IfOk result (λ m. Least (layout_of m.layouts) (value_of_ref v.entry)) }
    ensures version { IfOk result (λ m. (layout_of m.layouts).version ≡ Version2) }
    ensures relaxed { IfOk result (λ m. (layout_of m.layouts).relaxed ≡ true) }
    ensures kinds { IfOk result (λ m. kinds (layout_of m.layouts).tree
        ≡ kinds_of (root_of (definition_of def.now))) }
    ensures settled { IfOk result (λ m. IsSettled m.layouts) }
    ensures length { IfOk result (λ m. m.content_len
        ≡ packed_length (layout_of m.layouts).tree (value_of_ref v.entry)) }
    ensures steps { steps.new ≤ steps.old + 2 + 29 * ranges (kinds_of (root_of (definition_of def.now))) }
{
    let blank = shape(alloc, def)?;
    measure_over(alloc, blank, v, steps)
}
