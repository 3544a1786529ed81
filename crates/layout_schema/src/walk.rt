//! The walk over the layouts of a schema, from the root down: the nodes of its layout in preorder.

ghost use Rattle.std.specs.Prelude.{◌≡◌, ◌≤◌, ◌<◌, ◌+◌, ◌^◌, ◌++◌, ◌∷◌, [], ◌&&◌, ℕ, pos, nat_le, true};
ghost use Rattle.std.specs.Prelude.{Ok, IfOk, OnOk, IfErr, length};
ghost use Rattle.std.specs.Ordering.{int_eq};
ghost use Rattle.frozen_model.specs.Layouts.{Version};
ghost use Rattle.idl_parse.specs.Refs.{type_of_ref};
ghost use Rattle.typed_tree.specs.References.{value_of_ref};
ghost use Rattle.layout_schema.specs.Shapes as shapes;
ghost use Rattle.layout_schema.specs.Schemas.{layout_type, schema_type};
ghost use Rattle.layout_schema.specs.Standing.{spelled_as};
ghost use Rattle.layout_schema.specs.Reading.{AreEntries, IsLayoutValue, IsSpelledSchema, Walks, Finishes};
ghost use Rattle.layout_schema.specs.Reading.{IsAtFault, AreSmall, entry_told, place_told, at_told};
ghost use Rattle.layout_schema.specs.Reading.{layouts_told, node_at, with_child as with_child_of};

use crate::entering::{At, Place, greatest_of, is_named, kind_named, may_enter};
use crate::entries::{Entries, EntryRef};
use crate::fault::SchemaFault;
use crate::fields::number_of_field;
use crate::table::schema_layouts;
use layout_tree::{Kind, NodeSpec};
use std::alloc::Global;
use thrift_idl::TypeRef;

/// The inline bits of a part, and the most that they are at the greatest widths.
#[derive(Clone, Copy)]
pub(crate) struct Widths {
    pub(crate) bits: u32,
    pub(crate) greatest: u32,
}

impl Widths {
    // These widths with those of a child behind them; a child that is not inline adds nothing.
    fn with_child(self, place: Place, child: Widths) -> Widths
        requires bits { self.bits + child.bits < 2 ^ 32 }
        requires greatest { self.greatest + child.greatest < 2 ^ 32 }
        ensures { result ≡ with_child_of self (place_told place) child }
    {
        if place.is_inline() {
            Widths {
                bits: self.bits + child.bits,
                greatest: self.greatest + child.greatest,
            }
        } else {
            self
        }
    }
}

// The fault of the layout of this number.
fn fault_at(number: u32) -> SchemaFault
    requires { number ≤ 4096 }
    ensures { result ≡ SchemaFault.Shape (pos number) }
{
    SchemaFault::Shape(number as i32)
}

// Whether a node has the bits of its children, of which at the greatest widths there are at most 32,767.
fn is_sum(bits: i16, below: Widths) -> bool
    ensures { result ≡ (int_eq bits (pos below.bits) && nat_le below.greatest 32767) }
{
    i64::from(bits) == i64::from(below.bits) && below.greatest <= 32767
}

// The widths of a node whose children are done. A leaf has its own; of another node they are those of its
// children, which its layout has to tell, and the greatest are at most 32,767.
fn finish(
    number: u32,
    entry: EntryRef<'_>,
    kind: Kind,
    below: Widths,
) -> Result<Widths, SchemaFault>
    requires layout { IsLayoutValue (value_of_ref entry.layout) }
    requires number { number ≤ 4096 }
    requires width { shapes.is_width (shapes.greatest_of kind) (entry_told entry).bits ≡ true }
    ensures answer { Finishes result number (entry_told entry.entry) kind below }
    ensures small { IfOk result (λ widths. AreSmall widths) }
{
    let bits = entry.bits();
    match greatest_of(kind) {
        Some(greatest) => Ok(Widths {
            bits: bits as u32,
            greatest,
        }),
        None => {
            if is_sum(bits, below) {
                Ok(below)
            } else {
                Err(fault_at(number))
            }
        }
    }
}

// Appends the node that the layout says.
fn push_node(
    nodes: &mut Vec<NodeSpec>,
    at: At,
    entry: EntryRef<'_>,
    kind: Kind,
) -> Result<(), SchemaFault>
    requires { IsLayoutValue (value_of_ref entry.layout) }
    ensures pushed { OnOk result (nodes.new.items
        ≡ nodes.old.items ++ node_at (at_told at) (entry_told entry.entry) kind ∷ []) }
    ensures full { IfErr result (λ fault. fault ≡ SchemaFault.NoMemory) }
    ensures left { IfErr result (λ _. nodes.new.items ≡ nodes.old.items) }
{
    let bits = u32::from(entry.bits().unsigned_abs());
    let node = NodeSpec {
        kind,
        field: at.field,
        parent: at.parent,
        bits,
        wide: bits,
        offset: at.offset,
        base: entry.base(),
    };
    match nodes.push(node) {
        Ok(()) => Ok(()),
        Err(_) => Err(SchemaFault::NoMemory),
    }
}

/// Walks the part that begins with the next node, which is entered there, and appends its nodes.
#[cycle(walk)]
fn walk_part(
    alloc: Global,
    entries: Entries<'_>,
    nodes: &mut Vec<NodeSpec>,
    at: At,
) -> Result<Widths, SchemaFault>
    requires layouts { AreEntries entries }
    requires few { length nodes.now.items ≤ 4096 }
    ensures walks { (room : ℕ) → 4096 ≤ room + length nodes.old.items
        → Walks nodes.old.items nodes.new.items result
        (shapes.walk_part (layouts_told entries.entry) room (at_told at) (length nodes.old.items)) }
    ensures few { length nodes.new.items ≤ 4096 }
    ensures more { length nodes.old.items ≤ length nodes.new.items }
    ensures grown { OnOk result (length nodes.old.items < length nodes.new.items) }
    ensures small { IfOk result (λ widths. AreSmall widths) }
{
    let number = nodes.len() as u32;
    let found = entries.entry(alloc, number)?;
    let Some(tree) = found else {
        return Err(fault_at(number));
    };
    let entry = EntryRef::of(&tree);
    let Some(kind) = kind_named(entry.name()) else {
        return Err(fault_at(number));
    };
    if !may_enter(at, number, entry, kind) {
        return Err(fault_at(number));
    }
    push_node(nodes, at, entry, kind)?;
    let below = walk_children(alloc, entries, nodes, entry, kind, at.level, number)?;
    finish(number, entry, kind, below)
}

// Walks the children of a node of this kind, level and number, of which no node is appended yet.
#[cycle(walk)]
fn walk_children(
    alloc: Global,
    entries: Entries<'_>,
    nodes: &mut Vec<NodeSpec>,
    entry: EntryRef<'_>,
    kind: Kind,
    level: u32,
    parent: u32,
) -> Result<Widths, SchemaFault>
    requires layouts { AreEntries entries }
    requires layout { IsLayoutValue (value_of_ref entry.layout) }
    requires few { length nodes.now.items ≤ 4096 }
    requires level { level ≤ 32 }
    ensures walks { (room : ℕ) → 4096 ≤ room + length nodes.old.items
        → Walks nodes.old.items nodes.new.items result
        (shapes.walk_children (shapes.walk_part (layouts_told entries.entry) room) kind level parent
        (entry_told entry.entry).children (length nodes.old.items) 0) }
    ensures few { length nodes.new.items ≤ 4096 }
    ensures more { length nodes.old.items ≤ length nodes.new.items }
{
    let mut widths = Widths {
        bits: 0,
        greatest: 0,
    };
    for i in 0..entry.child_count() {
        let child = entry.child(i);
        let number = nodes.len() as u32;
        let place = Place::of_child(kind, child.field);
        let offset = if place.is_inline() { widths.bits } else { 0 };
        if !is_named(child, number, offset) {
            return Err(fault_at(number));
        }
        let at = At {
            place,
            level: level + place.deeper(),
            parent,
            field: child.field,
            offset,
        };
        let part = walk_part(alloc, entries, nodes, at)?;
        widths = widths.with_child(place, part);
    }
    Ok(widths)
}

// The type of the layouts in a schema of this type.
fn layout_ref(ty: TypeRef<'_>) -> TypeRef<'_>
    requires { (v : Version) × (type_of_ref ty ≡ schema_type v) }
    ensures { (v : Version) → type_of_ref ty.entry ≡ schema_type v → type_of_ref result ≡ layout_type v }
{
    ty.field_at(1).ty().value()
}

/// The nodes of the layout that the schema's bytes say, in preorder; else the number of the layout at fault.
pub(crate) fn read_shape(
    alloc: Global,
    ty: TypeRef<'_>,
    bytes: &[u8],
) -> Result<Vec<NodeSpec>, SchemaFault>
    requires { IsSpelledSchema (type_of_ref ty) bytes.now }
    ensures nodes { IfOk result (λ nodes.
        shapes.shape_in (spelled_as (type_of_ref ty.entry) bytes.now) ≡ Ok nodes.items) }
    ensures fault { IfErr result (λ fault.
        IsAtFault fault (shapes.shape_in (spelled_as (type_of_ref ty.entry) bytes.now))) }
{
    let root = number_of_field(bytes, 3);
    if root != 0 {
        return Err(SchemaFault::Shape(root as i32));
    }
    let layouts = schema_layouts(alloc, bytes)?;
    let entries = Entries {
        ty: layout_ref(ty),
        layouts: layouts.as_slice(),
    };
    let mut nodes = Vec::new(alloc);
    let at = At {
        place: Place::Root,
        level: 1,
        parent: 0,
        field: 0,
        offset: 0,
    };
    walk_part(alloc, entries, &mut nodes, at)?;
    match entries.unwalked(nodes.len() as u32) {
        Some(number) => Err(SchemaFault::Shape(i32::from(number))),
        None => Ok(nodes),
    }
}
