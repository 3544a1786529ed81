//! Layouts with given widths, in both versions.

ghost use Rattle.std.specs.Prelude.{◌≡◌, IfOk, IsTrue};
ghost use Rattle.idl_parse.specs.Parsed.{definition_of};
ghost use Rattle.frozen_model.specs.Holding.{pass};
ghost use Rattle.layout_tree.specs.Nodes.{layout_of, IsSettled};
ghost use Rattle.typed_tree.specs.References.{value_of_ref};
ghost use Rattle.measure_pass.specs.Growing.{Measurable};
ghost use Rattle.row_tests.specs.Values.{IsRootValue};
ghost use Rattle.row_tests.specs.Widths.{TakesWidth, IsSound, Rests, first_of};

use crate::fault::RowFault;
use fz_base::Steps;
use layout_tree::{Kind, Layouts, layouts_are_described, shape};
use measure_pass::one_pass;
use std::alloc::{AllocError, Global};
use std::marker::Brand;
use std::sync::ledger::{Blank, Ledger};
use thrift_idl::Definition;
use typed_tree::TreeRef;
use value_bounds::set_bases;

/// Whether a node of this kind may have this width.
fn takes_width(kind: Kind, bits: u32) -> bool
    ensures { IsTrue result → TakesWidth kind bits }
{
    match kind {
        Kind::Flag => bits <= 1,
        Kind::I8 => bits <= 8,
        Kind::I16 => bits <= 16,
        Kind::I32 => bits <= 32,
        Kind::I64 => bits <= 64,
        Kind::Size => bits <= 32,
        _ => false,
    }
}

/// Notes a width for a node, and tells whether the node takes it.
fn widen(layouts: &mut Layouts, node: u32, bits: u32) -> bool
    ensures { layout_of layouts.new ≡ layout_of layouts.old }
{
    if node >= layouts.count() || !takes_width(layouts.node(node).kind, bits) {
        return false;
    }
    layouts.widen(node, bits);
    true
}

/// Notes widths for nodes, and tells whether each node takes its own.
fn widen_each(layouts: &mut Layouts, widths: &[(u32, u32)]) -> bool
    ensures { layout_of layouts.new ≡ layout_of layouts.old }
{
    let mut all = true;
    for (node, bits) in widths {
        all = widen(layouts, *node, *bits) && all;
    }
    all
}

/// Whether a pass over a value leaves a layout as it is; it counts in a ledger of its own.
fn rests_alone<L: Ledger>(blank: Blank, layouts: &mut Layouts, v: TreeRef<'_>) -> bool
    requires name { blank.name ≡ L.name }
    requires parts { blank.parts ≡ L.parts }
    requires settled { IsSettled layouts.old }
    requires value { Measurable (layout_of layouts.old) (value_of_ref v) }
    ensures { IsTrue result → (layout_of layouts.new ≡ layout_of layouts.old)
        × (let l = (layout_of layouts.new).tree in pass l (value_of_ref v.entry) ≡ l) }
{
    let mut steps = Steps::<L>::new(blank);
    !one_pass(layouts, v, &mut steps)
}

/// Whether a pass over a value leaves a layout as it is.
pub(crate) fn rests(layouts: &mut Layouts, v: TreeRef<'_>) -> bool
    requires settled { IsSettled layouts.old }
    requires value { Measurable (layout_of layouts.old) (value_of_ref v) }
    ensures { IsTrue result → (layout_of layouts.new ≡ layout_of layouts.old)
        × (let l = (layout_of layouts.new).tree in pass l (value_of_ref v.entry) ≡ l) }
{
    rests_alone::<Brand>(Blank::new(1), layouts, v)
}

/// The layout of version 2 of a definition's root with these widths of nodes, and the least numbers of a
/// value as its bases, where a pass over the value leaves it as it is.
pub(crate) fn widened(
    alloc: Global,
    def: &Definition,
    v: TreeRef<'_>,
    widths: &[(u32, u32)],
) -> Result<Layouts, RowFault>
    requires { IsRootValue (definition_of def.now) (value_of_ref v) }
    ensures sound { IfOk result (λ l. IsSound (layout_of l).tree) }
    ensures rests { IfOk result (λ l. Rests (layout_of l).tree (value_of_ref v.entry)) }
{
    let mut layouts = shape(alloc, def)?;
    if !widen_each(&mut layouts, widths) {
        return Err(RowFault::Widths);
    }
    set_bases(alloc, &mut layouts, v)?;
    layouts.settle();
    if !rests(&mut layouts, v) {
        return Err(RowFault::Widths);
    }
    layouts_are_described(&layouts);
    Ok(layouts)
}

/// The layout of version 1 with the same widths, made of the nodes.
pub(crate) fn first_version(alloc: Global, layouts: &Layouts) -> Result<Layouts, AllocError>
    requires { IsSound (layout_of layouts.now).tree }
    ensures layout { IfOk result (λ l. layout_of l ≡ first_of layouts.now) }
    ensures settled { IfOk result (λ l. IsSettled l) }
{
    let mut nodes = Vec::new(alloc);
    for number in 0..layouts.count() {
        let mut node = layouts.node(number);
        node.wide = node.bits;
        node.base = 0;
        nodes.push(node)?;
    }
    Ok(Layouts::from_nodes(nodes, 1, false))
}
