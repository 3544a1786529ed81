//! Writing the schema of a layout.

ghost use Rattle.std.specs.Prelude.{◌≡◌, suc, drop, IfOk, OnOk, ◌++◌};
ghost use Rattle.frozen_model.specs.Values.{count};
ghost use Rattle.compact_wire.specs.Canon.{canon, canon_pairs};
ghost use Rattle.layout_tree.specs.Nodes.{layout_of, listed, IsSettled, IsNumber};
ghost use Rattle.compact_codec.specs.Wire.{wire};
ghost use Rattle.layout_schema.specs.Schemas.{schema_type, schema_of, children_of};
ghost use Rattle.layout_schema.specs.Pieces.{node_bytes, child_pairs};

use crate::pieces::{
    push_base, push_child, push_flag_field, push_i16_field, push_i32_field, push_map_head,
    push_signed, push_text_field, type_name,
};
use layout_tree::Layouts;
use std::alloc::{AllocError, Global};

/// How many children a node has.
fn count_children(layouts: &Layouts, node: u32) -> u32
    requires { IsNumber layouts.now node }
    ensures { result ≡ count (children_of node (suc node) (drop (suc node) (listed layouts.now))) }
{
    let end = layouts.past(node);
    let mut count = 0;
    let mut child = node + 1;
    while child < end {
        if layouts.node(child).parent == node {
            count += 1;
        }
        child = layouts.past(child);
    }
    count
}

/// Appends what the layout of a node says of its children.
fn push_children(out: &mut Vec<u8>, layouts: &Layouts, node: u32) -> Result<(), AllocError>
    requires { IsNumber layouts.now node }
    ensures { OnOk result (out.new.items ≡ out.old.items
        ++ canon_pairs (child_pairs (children_of node (suc node) (drop (suc node) (listed layouts.now))))) }
{
    let end = layouts.past(node);
    let mut child = node + 1;
    while child < end {
        let spec = layouts.node(child);
        if spec.parent == node {
            push_child(out, child, &spec)?;
        }
        child = layouts.past(child);
    }
    Ok(())
}

/// Appends a node's number and its layout.
fn push_layout(out: &mut Vec<u8>, layouts: &Layouts, node: u32) -> Result<(), AllocError>
    requires { IsNumber layouts.now node }
    ensures { OnOk result (out.new.items ≡ out.old.items
        ++ node_bytes (layout_of layouts.now).version node (drop node (listed layouts.now))) }
{
    let spec = layouts.node(node);
    push_signed(out, i64::from(node))?;
    push_i32_field(out, 0)?;
    push_i16_field(out, i64::from(spec.bits))?;
    push_map_head(out, count_children(layouts, node))?;
    push_children(out, layouts, node)?;
    push_text_field(out, type_name(spec.kind))?;
    push_base(out, layouts.version(), &spec)?;
    out.push(0)?;
    Ok(())
}

/// The schema of a settled layout, in its canonical spelling.
pub fn write_schema(alloc: Global, layouts: &Layouts) -> Result<Vec<u8>, AllocError>
    requires { IsSettled layouts.now }
    ensures { let d = layout_of layouts.now in
        IfOk result (λ out. out.items ≡ canon (wire (schema_type d.version) (schema_of d))) }
{
    let mut out = Vec::new(alloc);
    push_flag_field(&mut out, layouts.relaxed())?;
    push_map_head(&mut out, layouts.count())?;
    for node in 0..layouts.count() {
        push_layout(&mut out, layouts, node)?;
    }
    push_i16_field(&mut out, 0)?;
    push_i32_field(&mut out, i64::from(layouts.version()))?;
    out.push(0)?;
    Ok(out)
}
