//! Passes over ranges.

ghost use Rattle.std.specs.Prelude.{◌≡◌, ◌+◌, ◌-◌, ◌<◌, ◌^◌, min, length, take, drop};
ghost use Rattle.frozen_model.specs.Values.{Value};
ghost use Rattle.frozen_model.specs.Layouts.{stride};
ghost use Rattle.frozen_model.specs.Packing.{bytes_for, extent};
ghost use Rattle.layout_tree.specs.Nodes.{IsNode, IsSettled, at as layout_at, layout_of, noted_in};
ghost use Rattle.layout_tree.specs.Reading.{IsRange};
ghost use Rattle.measure_pass.specs.Growing.{Same};
ghost use Rattle.measure_pass.specs.Spots.{Runnable, run, ran, block_bytes, AreSpots, SomeSpots, RangePassed};
ghost use Rattle.measure_pass.specs.Spots.{listed};

use crate::gather::gather_part;
use bit_field::need_unsigned;
use fz_base::Steps;
use layout_tree::{Kind, Layouts, layouts_are_described};
use std::alloc::{AllocError, Global};
use std::sync::ledger::Ledger;
use typed_tree::TreeRef;

/// A range that is not empty: its node, its count, the number of the range in whose block it lies, and the
/// byte where its own block begins.
#[derive(Clone, Copy)]
pub struct RangeSpot {
    pub node: u32,
    pub count: u64,
    pub parent: u64,
    pub start: u64,
}

/// The ranges of a value that are not empty, in the order of their blocks, behind the block of the value
/// itself, whose node is 0 and whose count is 1. Their starts are 0 until a pass gives them.
#[derive(Drop)]
pub struct Ranges {
    pub(crate) spots: Vec<RangeSpot>,
}

impl Ranges {
    ghost use Rattle.std.specs.Prelude.{IfOk, map};
    ghost use Rattle.frozen_model.specs.Values.{Of};
    ghost use Rattle.typed_tree.specs.References.{value_of_ref};
    ghost use Rattle.measure_pass.specs.Spots.{spots_of, unplaced};

    /// The ranges of a value of the layout's kinds, with start 0.
    pub fn gather(alloc: Global, layouts: &Layouts, v: TreeRef<'_>) -> Result<Ranges, AllocError>
        requires { Of (layout_of layouts.now).tree (value_of_ref v) }
        ensures { let l = (layout_of layouts.now).tree in
            IfOk result (λ r. listed r ≡ map unplaced (spots_of l (value_of_ref v.entry))) }
    {
        let mut spots = Vec::new(alloc);
        spots.push(RangeSpot {
            node: 0,
            count: 1,
            parent: 0,
            start: 0,
        })?;
        gather_part(&mut spots, layouts, 0, v, 0)?;
        Ok(Ranges { spots })
    }

    /// The ranges, in the order of their blocks. It takes no memory.
    pub fn spots(&self) -> &[RangeSpot]
        ensures { result.now ≡ listed self.now }
    {
        &self.spots
    }
}

// The bytes of the block of a range of `count` items.
fn block_of(layouts: &Layouts, node: u32, count: u64) -> u64
    requires node { IsNode layouts.now node }
    requires range { IsRange (layout_at layouts.now node) }
    requires few { count < 2 ^ 31 }
    ensures { result ≡ block_bytes (layout_at layouts.now node) count }
{
    match layouts.kind(node) {
        Kind::Text | Kind::Bytes => count,
        _ => layouts.block_len(node, count),
    }
}

// Gives each range but the first its start, from a byte on, and notes its distance.
fn run_ranges(layouts: &mut Layouts, spots: &mut [RangeSpot], first: u64) -> u64
    requires some { 0 < length spots.old }
    requires small { first < 2 ^ 32 }
    requires runnable { Runnable (layout_of layouts.old).tree (take 1 spots.old) first (drop 1 spots.old) }
    ensures same { Same layouts.old layouts.new }
    ensures ran { run (layout_of layouts.old).tree (take 1 spots.old) first (noted_in layouts.old)
        (drop 1 spots.old) ≡ ran spots.new result (noted_in layouts.new) }
{
    let mut at = first;
    let mut k = 1;
    while k < spots.len() {
        let here = spots[k];
        spots[k] = RangeSpot {
            node: here.node,
            count: here.count,
            parent: here.parent,
            start: at,
        };
        let distance = at - spots[here.parent as usize].start;
        let len = block_of(layouts, here.node, here.count);
        layouts.note(here.node + 1, need_unsigned(distance));
        at += len;
        k += 1;
    }
    at
}

/// What a pass over ranges comes to: whether a distance widened, and the bytes of all blocks under the layout
/// at the call.
#[derive(Clone, Copy)]
pub(crate) struct RangePass {
    pub(crate) widened: bool,
    pub(crate) end: u64,
}

// One pass over ranges.
pub(crate) fn pass_over<L: Ledger>(
    layouts: &mut Layouts,
    ranges: &mut Ranges,
    steps: &mut Steps<L>,
) -> RangePass
    requires settled { IsSettled layouts.old }
    requires value { SomeSpots (layout_of layouts.old).tree (listed ranges.old) }
    ensures passed { (v : Value) → AreSpots (layout_of layouts.old).tree (listed ranges.old) v
        → RangePassed (layout_of layouts.old) (layout_of layouts.new) (listed ranges.new) v result.widened }
    ensures ends { let l = (layout_of layouts.old).tree in (v : Value) → AreSpots l (listed ranges.old) v
        → result.end ≡ bytes_for (stride l) + extent l v }
    ensures settled { IsSettled layouts.new }
    ensures steps { steps.new ≡ min (steps.old + 1) (2 ^ 64 - 1) }
{
    layouts_are_described(layouts);
    steps.tick();
    let first = (layouts.bits(0) as u64 + 7) / 8;
    let end = run_ranges(layouts, &mut ranges.spots, first);
    if layouts.is_settled() {
        return RangePass {
            widened: false,
            end,
        };
    }
    layouts.settle();
    RangePass { widened: true, end }
}

/// One pass over the ranges of a value all of whose leaves other than distances are wide enough: it leaves
/// the layout that a pass over the value would leave, and tells whether a distance widened. Each range gets
/// as its start the bytes of the blocks before its own, under the layout at the call. It is one step, and
/// takes no memory.
pub fn range_pass<L: Ledger>(
    layouts: &mut Layouts,
    ranges: &mut Ranges,
    steps: &mut Steps<L>,
) -> bool
    requires settled { IsSettled layouts.old }
    requires value { SomeSpots (layout_of layouts.old).tree (listed ranges.old) }
    ensures passed { (v : Value) → AreSpots (layout_of layouts.old).tree (listed ranges.old) v
        → RangePassed (layout_of layouts.old) (layout_of layouts.new) (listed ranges.new) v result }
    ensures settled { IsSettled layouts.new }
    ensures steps { steps.new ≡ min (steps.old + 1) (2 ^ 64 - 1) }
{
    pass_over(layouts, ranges, steps).widened
}
