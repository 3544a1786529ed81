//! The shape of a definition: the layout of its root with all widths and bases 0.

ghost use Rattle.std.specs.Prelude.{◌≡◌, ◌+◌, ◌≤◌, ◌<◌, ◌∷◌, ◌++◌, [], List, length, pos, nat_abs, IfOk, ℕ};
ghost use Rattle.std.specs.Prelude.{vec_len};
ghost use Rattle.idl_profile.specs.Types.{root_of, fields_of, kind_of};
ghost use Rattle.idl_parse.specs.Refs.{type_of_ref, field_of_ref, element_of};
ghost use Rattle.idl_parse.specs.Parsed.{definition_of};
ghost use Rattle.idl_profile.specs.declared.kinds.TypeKind.TheVariants as types;
ghost use Rattle.type_kinds.specs.KindsOf.{kinds_of};
ghost use Rattle.frozen_model.specs.Trees.{Optional};
ghost use Rattle.layout_tree.specs.declared.node.NodeSpec.{NodeSpec};
ghost use Rattle.layout_tree.specs.Listing.{spec};
ghost use Rattle.layout_tree.specs.Nodes.{layout_of, noted_in, IsSettled};
ghost use Rattle.layout_tree.specs.Shapes.{blank, shape_of, CanAdd, Adds, RowIs, range_nodes, field_kinds};
ghost use Rattle.layout_tree.specs.Shapes.{marked};

use crate::layouts::Layouts;
use crate::node::{FormVersion, Kind, NodeSpec};
use root_kinds::roots_have_kinds;
use std::alloc::{AllocError, Global};
use thrift_idl::{Definition, FieldRef, Need, TypeKind, TypeRef};

// A node of no bits.
fn blank_node(kind: Kind, field: u16, parent: u32) -> NodeSpec
    requires { field ≤ 32767 }
    ensures { result ≡ spec kind field parent 0 0 0 (pos 0) }
{
    NodeSpec {
        kind,
        field: field as i16,
        parent,
        bits: 0,
        wide: 0,
        offset: 0,
        base: 0,
    }
}

// Adds a node of no bits.
fn add_node(
    nodes: &mut Vec<NodeSpec>,
    kind: Kind,
    field: u16,
    parent: u32,
) -> Result<(), AllocError>
    requires { field ≤ 32767 }
    ensures added { IfOk result (λ _. nodes.new.items ≡ nodes.old.items
        ++ spec kind field parent 0 0 0 (pos 0) ∷ []) }
{
    nodes.push(blank_node(kind, field, parent))?;
    Ok(())
}

// Puts the number after the last node in the place of the noted width of a node.
fn close(nodes: &mut Vec<NodeSpec>, node: u32)
    requires there { node < vec_len nodes.old }
    requires few { vec_len nodes.old ≤ 4096 }
    ensures { (pre post : List NodeSpec) (x : NodeSpec) → length pre ≡ node
        → nodes.old.items ≡ pre ++ x ∷ post
        → nodes.new.items ≡ pre ++ marked x (length nodes.old.items) ∷ post }
{
    let end = nodes.len() as u32;
    let spec = &mut nodes[node as usize];
    spec.wide = end;
}

// Adds the node of a range, and those of its distance and count.
fn add_range(
    nodes: &mut Vec<NodeSpec>,
    kind: Kind,
    field: u16,
    parent: u32,
) -> Result<(), AllocError>
    requires room { vec_len nodes.old + 3 ≤ 4096 }
    requires field { field ≤ 32767 }
    ensures added { IfOk result (λ _. nodes.new.items ≡ nodes.old.items
        ++ range_nodes kind field parent (length nodes.old.items)) }
{
    let here = nodes.len() as u32;
    add_node(nodes, kind, field, parent)?;
    add_node(nodes, Kind::Size, 1, here)?;
    add_node(nodes, Kind::Size, 2, here)?;
    close(nodes, here);
    Ok(())
}

// Adds the nodes of a type, the first of which has this field and parent.
#[cycle(shape)]
fn add_type(
    nodes: &mut Vec<NodeSpec>,
    ty: TypeRef<'_>,
    field: u16,
    parent: u32,
) -> Result<(), AllocError>
    requires room { CanAdd nodes.old.items (kinds_of (type_of_ref ty)) }
    requires field { field ≤ 32767 }
    ensures added { IfOk result (λ _. Adds nodes.old.items nodes.new.items (kinds_of (type_of_ref ty.entry))
        parent field) }
{
    match ty.kind() {
        TypeKind::Flag => add_node(nodes, Kind::Flag, field, parent),
        TypeKind::I8 => add_node(nodes, Kind::I8, field, parent),
        TypeKind::I16 => add_node(nodes, Kind::I16, field, parent),
        TypeKind::I32 | TypeKind::Enum => add_node(nodes, Kind::I32, field, parent),
        TypeKind::I64 => add_node(nodes, Kind::I64, field, parent),
        TypeKind::Text => add_range(nodes, Kind::Text, field, parent),
        TypeKind::Bytes => add_range(nodes, Kind::Bytes, field, parent),
        TypeKind::List => add_items(nodes, Kind::List, ty, field, parent),
        TypeKind::Set => add_items(nodes, Kind::Set, ty, field, parent),
        TypeKind::Map => add_map(nodes, ty, field, parent),
        TypeKind::Struct => add_struct(nodes, ty, field, parent),
    }
}

// Adds the nodes of a list or a set.
#[cycle(shape)]
fn add_items(
    nodes: &mut Vec<NodeSpec>,
    kind: Kind,
    ty: TypeRef<'_>,
    field: u16,
    parent: u32,
) -> Result<(), AllocError>
    requires field { field ≤ 32767 }
    requires kind { RowIs kind (type_of_ref ty) }
    requires room { CanAdd nodes.old.items (kinds_of (type_of_ref ty)) }
    ensures added { IfOk result (λ _. Adds nodes.old.items nodes.new.items (kinds_of (type_of_ref ty.entry))
        parent field) }
{
    let here = nodes.len() as u32;
    add_range(nodes, kind, field, parent)?;
    add_type(nodes, ty.element(), 3, here)?;
    close(nodes, here);
    Ok(())
}

// Adds the nodes of a map.
#[cycle(shape)]
fn add_map(
    nodes: &mut Vec<NodeSpec>,
    ty: TypeRef<'_>,
    field: u16,
    parent: u32,
) -> Result<(), AllocError>
    requires field { field ≤ 32767 }
    requires kind { kind_of (type_of_ref ty) ≡ types.Map }
    requires room { CanAdd nodes.old.items (kinds_of (type_of_ref ty)) }
    ensures added { IfOk result (λ _. Adds nodes.old.items nodes.new.items (kinds_of (type_of_ref ty.entry))
        parent field) }
{
    let here = nodes.len() as u32;
    let pair = here + 3;
    add_range(nodes, Kind::Map, field, parent)?;
    add_node(nodes, Kind::Pair, 3, here)?;
    add_type(nodes, ty.key(), 1, pair)?;
    add_type(nodes, ty.value(), 2, pair)?;
    close(nodes, pair);
    close(nodes, here);
    Ok(())
}

// Adds the nodes of a struct.
#[cycle(shape)]
fn add_struct(
    nodes: &mut Vec<NodeSpec>,
    ty: TypeRef<'_>,
    field: u16,
    parent: u32,
) -> Result<(), AllocError>
    requires field { field ≤ 32767 }
    requires kind { kind_of (type_of_ref ty) ≡ types.Struct }
    requires room { CanAdd nodes.old.items (kinds_of (type_of_ref ty)) }
    ensures added { IfOk result (λ _. Adds nodes.old.items nodes.new.items (kinds_of (type_of_ref ty.entry))
        parent field) }
{
    let here = nodes.len() as u32;
    add_node(nodes, Kind::Struct, field, parent)?;
    for i in 0..ty.field_count() {
        add_field(nodes, ty.field_at(i), here)?;
    }
    close(nodes, here);
    Ok(())
}

// Adds the nodes of a field.
#[cycle(shape)]
fn add_field(nodes: &mut Vec<NodeSpec>, field: FieldRef<'_>, parent: u32) -> Result<(), AllocError>
    requires room { CanAdd nodes.old.items (field_kinds (field_of_ref field)) }
    requires id { nat_abs (field_of_ref field).id ≤ 32767 }
    ensures added { let f = field_of_ref field.entry in
        IfOk result (λ _. Adds nodes.old.items nodes.new.items (field_kinds f) parent (nat_abs f.id)) }
{
    let id = field.id().unsigned_abs();
    match field.need() {
        Need::Optional => add_optional(nodes, field.ty(), id, parent),
        Need::Plain | Need::Required => add_type(nodes, field.ty(), id, parent),
    }
}

// Adds the nodes of an optional over a type.
#[cycle(shape)]
fn add_optional(
    nodes: &mut Vec<NodeSpec>,
    ty: TypeRef<'_>,
    field: u16,
    parent: u32,
) -> Result<(), AllocError>
    requires room { CanAdd nodes.old.items (Optional tt (kinds_of (type_of_ref ty))) }
    requires field { field ≤ 32767 }
    ensures added { let k = Optional tt (kinds_of (type_of_ref ty.entry)) in
        IfOk result (λ _. Adds nodes.old.items nodes.new.items k parent field) }
{
    let here = nodes.len() as u32;
    add_node(nodes, Kind::Optional, field, parent)?;
    add_node(nodes, Kind::Flag, 1, here)?;
    add_type(nodes, ty, 2, here)?;
    close(nodes, here);
    Ok(())
}

/// The relaxed layout of version 2 of a definition's root, with all widths and bases 0.
pub fn shape(alloc: Global, def: &Definition) -> Result<Layouts, AllocError>
    ensures layout { IfOk result (λ l. layout_of l ≡ shape_of (kinds_of (root_of (definition_of def.now)))) }
    ensures settled { IfOk result (λ l. IsSettled l) }
    ensures noted { IfOk result (λ l. noted_in l ≡ blank (kinds_of (root_of (definition_of def.now)))) }
{
    roots_have_kinds();
    let mut nodes = Vec::new(alloc);
    add_type(&mut nodes, def.root(), 0, 0)?;
    Ok(Layouts {
        nodes,
        version: FormVersion::Second,
        relaxed: true,
    })
}
