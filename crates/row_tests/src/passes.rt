//! Passes over values of worked rows.

ghost use Rattle.std.specs.Prelude.{◌≡◌, IfOk};
ghost use Rattle.idl_parse.specs.Parsed.{definition_of};
ghost use Rattle.layout_tree.specs.Nodes.{layout_of, IsSettled};
ghost use Rattle.typed_tree.specs.References.{value_of_ref};
ghost use Rattle.row_tests.specs.Values.{IsRootValue};
ghost use Rattle.row_tests.specs.Passes.{IsFirstOf};

use crate::fault::RowFault;
use crate::widths::first_version;
use fz_base::Steps;
use layout_tree::{Layouts, layouts_are_described, shape};
use measure_pass::{Ranges, one_pass, range_pass};
use std::alloc::{AllocError, Global};
use std::marker::Brand;
use std::sync::ledger::{Blank, Ledger};
use thrift_idl::Definition;
use typed_tree::TreeRef;
use value_bounds::set_bases;

/// The layout of version 1 of a definition's root, with all widths 0.
pub(crate) fn first_shape(
    alloc: Global,
    def: &Definition,
    _v: TreeRef<'_>,
) -> Result<Layouts, AllocError>
    requires { IsRootValue (definition_of def.now) (value_of_ref _v) }
    ensures settled { IfOk result (λ l. IsSettled l) }
    ensures form { IfOk result (λ l. IsFirstOf (layout_of l) (value_of_ref _v.entry)) }
{
    let layouts = shape(alloc, def)?;
    layouts_are_described(&layouts);
    first_version(alloc, &layouts)
}

/// Whether a pass over a value widens a layout of version 1; it counts in a ledger of its own.
fn pass_alone<L: Ledger>(blank: Blank, layouts: &mut Layouts, v: TreeRef<'_>) -> bool
    requires name { blank.name ≡ L.name }
    requires parts { blank.parts ≡ L.parts }
    requires settled { IsSettled layouts.old }
    requires form { IsFirstOf (layout_of layouts.old) (value_of_ref v) }
    ensures settled { IsSettled layouts.new }
    ensures form { IsFirstOf (layout_of layouts.new) (value_of_ref v.entry) }
{
    let mut steps = Steps::<L>::new(blank);
    one_pass(layouts, v, &mut steps)
}

/// Whether a pass over a value widens a layout of version 1.
pub(crate) fn first_pass(layouts: &mut Layouts, v: TreeRef<'_>) -> bool
    requires settled { IsSettled layouts.old }
    requires form { IsFirstOf (layout_of layouts.old) (value_of_ref v) }
    ensures settled { IsSettled layouts.new }
    ensures form { IsFirstOf (layout_of layouts.new) (value_of_ref v.entry) }
{
    pass_alone::<Brand>(Blank::new(1), layouts, v)
}

/// The width of a node, where there is one of this number.
pub(crate) fn width(layouts: &Layouts, node: u32) -> Option<u32> {
    if node >= layouts.count() {
        return None;
    }
    Some(layouts.node(node).bits)
}

/// Whether the nodes of two layouts have the same widths and bases.
fn same_nodes(one: &Layouts, other: &Layouts) -> bool {
    if one.count() != other.count() {
        return false;
    }
    let mut same = true;
    for number in 0..one.count() {
        let here = one.node(number);
        let there = other.node(number);
        same = same
            && here.kind == there.kind
            && here.bits == there.bits
            && here.offset == there.offset
            && here.base == there.base;
    }
    same
}

/// What the first pass over the ranges of a value answers, behind one pass over the value from its shape, and
/// what the second answers, where the first widened a distance; and whether the layout is then this one.
#[derive(Clone, Copy)]
pub(crate) struct RangeAnswers {
    pub(crate) ranges: u64,
    pub(crate) first: bool,
    pub(crate) second: bool,
    pub(crate) same: bool,
}

/// The passes over the ranges of a value, which count in a ledger of their own.
fn ranges_alone<L: Ledger>(
    blank: Blank,
    alloc: Global,
    def: &Definition,
    v: TreeRef<'_>,
    least: &Layouts,
) -> Result<RangeAnswers, AllocError>
    requires name { blank.name ≡ L.name }
    requires parts { blank.parts ≡ L.parts }
    requires value { IsRootValue (definition_of def.now) (value_of_ref v) }
{
    let mut steps = Steps::<L>::new(blank);
    let mut layouts = shape(alloc, def)?;
    set_bases(alloc, &mut layouts, v)?;
    one_pass(&mut layouts, v, &mut steps);
    let mut ranges = Ranges::gather(alloc, &layouts, v)?;
    let many = ranges.spots().len() as u64;
    let first = range_pass(&mut layouts, &mut ranges, &mut steps);
    let mut second = false;
    if first {
        second = range_pass(&mut layouts, &mut ranges, &mut steps);
    }
    Ok(RangeAnswers {
        ranges: many,
        first,
        second,
        same: same_nodes(&layouts, least),
    })
}

/// The passes over the ranges of a value of a definition's root.
pub(crate) fn range_passes(
    alloc: Global,
    def: &Definition,
    v: TreeRef<'_>,
    least: &Layouts,
) -> Result<RangeAnswers, AllocError>
    requires { IsRootValue (definition_of def.now) (value_of_ref v) }
{
    ranges_alone::<Brand>(Blank::new(1), alloc, def, v, least)
}
