//! One pass over a value.

ghost use Rattle.std.specs.Prelude.{◌≡◌, ◌↔◌, ◌+◌, ◌-◌, ◌^◌, min, false};
ghost use Rattle.frozen_model.specs.Holding.{pass};
ghost use Rattle.layout_tree.specs.Nodes.{layout_of, IsSettled};
ghost use Rattle.typed_tree.specs.References.{value_of_ref};
ghost use Rattle.measure_pass.specs.Growing.{Measurable, passed};

use crate::visit::visit_part;
use fz_base::Steps;
use layout_tree::{Layouts, layouts_are_described};
use std::sync::ledger::Ledger;
use typed_tree::TreeRef;

/// Finds every number that packing the value under the layout would put at a leaf, and gives each leaf the
/// greatest of its width and the needs of its numbers. Tells whether a leaf widened. It is one step, and
/// takes no memory.
pub fn one_pass<L: Ledger>(layouts: &mut Layouts, v: TreeRef<'_>, steps: &mut Steps<L>) -> bool
    requires settled { IsSettled layouts.old }
    requires value { Measurable (layout_of layouts.old) (value_of_ref v) }
    ensures layout { layout_of layouts.new ≡ passed (layout_of layouts.old) (value_of_ref v.entry) }
    ensures settled { IsSettled layouts.new }
    ensures rested { let tree = (layout_of layouts.old).tree in
        result ≡ false ↔ pass tree (value_of_ref v.entry) ≡ tree }
    ensures steps { steps.new ≡ min (steps.old + 1) (2 ^ 64 - 1) }
{
    layouts_are_described(layouts);
    steps.tick();
    let first = (layouts.bits(0) as u64 + 7) / 8;
    visit_part(layouts, 0, v, first);
    if layouts.is_settled() {
        return false;
    }
    layouts.settle();
    true
}
