//! Binding a definition to the layout of a file.

ghost use Rattle.std.specs.Prelude.{◌≡◌, ◌+◌, ◌≤◌, ◌⊎◌, ℕ, List, Option, Some, Err, nat_abs};
ghost use Rattle.frozen_model.specs.Trees.{Whole, value_bits};
ghost use Rattle.frozen_model.specs.Layouts.{Described};
ghost use Rattle.idl_profile.specs.Types.{TypeTree, root_of, kind_of};
ghost use Rattle.idl_profile.specs.declared.kinds.Need.TheVariants.{Optional};
ghost use Rattle.idl_profile.specs.declared.kinds.TypeKind.TheVariants as types;
ghost use Rattle.idl_parse.specs.Parsed.{definition_of};
ghost use Rattle.idl_parse.specs.Refs.{type_of_ref, field_of_ref};
ghost use Rattle.layout_tree.specs.Nodes.{IsNode, at, layout_of};
ghost use Rattle.layout_tree.specs.Reading.{IsStruct};
ghost use Rattle.evolve.specs.Binding.{Unbound, under as seen_from, type_fault, field_fault, bind_fault};
ghost use Rattle.evolve.specs.Plans.{nodes_at, nodes_of_field};
ghost use Rattle.evolve.specs.Bound.{IsBound};
ghost use Rattle.evolve.specs.BindSteps.{Tells, Answers, FitsAt, IsPair, fields_in, fault_at, plan_at};
ghost use Rattle.evolve.specs.BindSteps.{fault_at_pair, plan_at_pair, number_fits as fits_in_bits};
ghost use Rattle.evolve.specs.BindSteps.{fits as fits_kind};

use crate::fault::BindFault;
use crate::nodes::{add_node, add_range, lack_field};
use crate::plan::Plan;
use file_check::Opened;
use layout_tree::{Kind, Layouts};
use std::alloc::Global;
use thrift_idl::{Definition, FieldRef, Need, TypeKind, TypeRef};

// Whether a whole number of so many bits beside its sign may stand for what a node of this kind has.
fn number_fits(relaxed: bool, own: u32, stored: Kind) -> bool
    ensures { (k : Whole) → own ≡ value_bits k → result ≡ fits_in_bits relaxed k stored }
{
    let bits = match stored {
        Kind::I8 => 7,
        Kind::I16 => 15,
        Kind::I32 => 31,
        Kind::I64 => 63,
        _ => return false,
    };
    if relaxed { bits <= own } else { bits == own }
}

// Whether a type of this kind may stand for a node of that kind, whatever is below them.
fn fits(relaxed: bool, own: TypeKind, stored: Kind) -> bool
    ensures { result ≡ fits_kind relaxed own stored }
{
    match own {
        TypeKind::Flag => matches!(stored, Kind::Flag),
        TypeKind::I8 => number_fits(relaxed, 7, stored),
        TypeKind::I16 => number_fits(relaxed, 15, stored),
        TypeKind::I32 | TypeKind::Enum => number_fits(relaxed, 31, stored),
        TypeKind::I64 => number_fits(relaxed, 63, stored),
        TypeKind::Text => matches!(stored, Kind::Text),
        TypeKind::Bytes => matches!(stored, Kind::Bytes),
        TypeKind::List => matches!(stored, Kind::List),
        TypeKind::Set => matches!(stored, Kind::Set),
        TypeKind::Map => matches!(stored, Kind::Map),
        TypeKind::Struct => matches!(stored, Kind::Struct | Kind::Pair),
    }
}

// The answer for a part, seen from one field above.
fn under(id: i16, below: Result<(), BindFault>) -> Result<(), BindFault>
    ensures { (old new : List ℕ) (u : Option Unbound) (ns : List (Option ℕ)) → Answers old new u ns below
        → Answers old new (seen_from id u) ns result }
{
    match below {
        Ok(()) => Ok(()),
        Err(BindFault::TypeChanged(mut ids)) => {
            ids.push(id)?;
            Err(BindFault::TypeChanged(ids))
        }
        Err(BindFault::RequiredAbsent(mut ids)) => {
            ids.push(id)?;
            Err(BindFault::RequiredAbsent(ids))
        }
        Err(BindFault::NoMemory) => Err(BindFault::NoMemory),
    }
}

// Binds a type at a node, and adds the nodes of the file that its own stand for. The ids of a fault go from
// the last to the first. A definition's types have at most 32 levels (`docs/IDL.md`), so calls are no deeper
// than four times as many.
#[cycle(bind)]
fn bind_type(
    alloc: Global,
    ty: TypeRef<'_>,
    layouts: &Layouts,
    node: u32,
    nodes: &mut Vec<u32>,
) -> Result<(), BindFault>
    requires { IsNode layouts.now node }
    ensures { let t = type_of_ref ty.entry in
        let l = at layouts.now node in
        Answers nodes.old.items nodes.new.items (type_fault (layout_of layouts.now).relaxed t l)
        (nodes_at t l node) result }
{
    if !fits(layouts.relaxed(), ty.kind(), layouts.kind(node)) {
        return Err(BindFault::TypeChanged(Vec::new(alloc)));
    }
    match ty.kind() {
        TypeKind::Text | TypeKind::Bytes => {
            add_range(nodes, node)?;
            Ok(())
        }
        TypeKind::List | TypeKind::Set => bind_row(alloc, ty, layouts, node, nodes),
        TypeKind::Map => bind_map(alloc, ty, layouts, node, nodes),
        TypeKind::Struct => bind_struct(alloc, ty, layouts, node, nodes),
        _ => {
            add_node(nodes, node)?;
            Ok(())
        }
    }
}

// Binds a list or a set.
#[cycle(bind)]
fn bind_row(
    alloc: Global,
    ty: TypeRef<'_>,
    layouts: &Layouts,
    node: u32,
    nodes: &mut Vec<u32>,
) -> Result<(), BindFault>
    requires node { IsNode layouts.now node }
    requires row { (kind_of (type_of_ref ty) ≡ types.List) ⊎ (kind_of (type_of_ref ty) ≡ types.Set) }
    requires fits { FitsAt (layout_of layouts.now).relaxed (type_of_ref ty) (at layouts.now node) }
    ensures { let t = type_of_ref ty.entry in
        let l = at layouts.now node in
        Answers nodes.old.items nodes.new.items (type_fault (layout_of layouts.now).relaxed t l)
        (nodes_at t l node) result }
{
    add_range(nodes, node)?;
    under(3, bind_type(alloc, ty.element(), layouts, node + 3, nodes))
}

// Binds a map.
#[cycle(bind)]
fn bind_map(
    alloc: Global,
    ty: TypeRef<'_>,
    layouts: &Layouts,
    node: u32,
    nodes: &mut Vec<u32>,
) -> Result<(), BindFault>
    requires node { IsNode layouts.now node }
    requires map { kind_of (type_of_ref ty) ≡ types.Map }
    requires fits { FitsAt (layout_of layouts.now).relaxed (type_of_ref ty) (at layouts.now node) }
    ensures { let t = type_of_ref ty.entry in
        let l = at layouts.now node in
        Answers nodes.old.items nodes.new.items (type_fault (layout_of layouts.now).relaxed t l)
        (nodes_at t l node) result }
{
    add_range(nodes, node)?;
    under(3, bind_pair(alloc, ty, layouts, node + 3, nodes))
}

// Binds the key and the value of a map to a pair.
#[cycle(bind)]
fn bind_pair(
    alloc: Global,
    ty: TypeRef<'_>,
    layouts: &Layouts,
    node: u32,
    nodes: &mut Vec<u32>,
) -> Result<(), BindFault>
    requires node { IsNode layouts.now node }
    requires map { kind_of (type_of_ref ty) ≡ types.Map }
    requires pair { IsPair (at layouts.now node) }
    ensures { let t = type_of_ref ty.entry in
        Answers nodes.old.items nodes.new.items
        (fault_at_pair (layout_of layouts.now).relaxed t (at layouts.now node))
        (plan_at_pair t (at layouts.now node) node) result }
{
    add_node(nodes, node)?;
    let key = node + 1;
    match under(1, bind_type(alloc, ty.key(), layouts, key, nodes)) {
        Ok(()) => {}
        Err(fault) => return Err(fault),
    }
    under(
        2,
        bind_type(alloc, ty.value(), layouts, layouts.past(key), nodes),
    )
}

// Binds a struct.
#[cycle(bind)]
fn bind_struct(
    alloc: Global,
    ty: TypeRef<'_>,
    layouts: &Layouts,
    node: u32,
    nodes: &mut Vec<u32>,
) -> Result<(), BindFault>
    requires node { IsNode layouts.now node }
    requires struct_type { kind_of (type_of_ref ty) ≡ types.Struct }
    requires fits { FitsAt (layout_of layouts.now).relaxed (type_of_ref ty) (at layouts.now node) }
    ensures { let t = type_of_ref ty.entry in
        let l = at layouts.now node in
        Answers nodes.old.items nodes.new.items (type_fault (layout_of layouts.now).relaxed t l)
        (nodes_at t l node) result }
{
    add_node(nodes, node)?;
    for i in 0..ty.field_count() {
        let field = ty.field_at(i);
        match under(field.id(), bind_field(alloc, field, layouts, node, nodes)) {
            Ok(()) => {}
            Err(fault) => return Err(fault),
        }
    }
    Ok(())
}

// Binds a field to the one of its id among those of a struct's node.
#[cycle(bind)]
fn bind_field(
    alloc: Global,
    field: FieldRef<'_>,
    layouts: &Layouts,
    node: u32,
    nodes: &mut Vec<u32>,
) -> Result<(), BindFault>
    requires node { IsNode layouts.now node }
    requires structure { IsStruct (at layouts.now node) }
    requires id { nat_abs (field_of_ref field).id ≤ 32767 }
    ensures { let f = field_of_ref field.entry in
        let ls = fields_in (at layouts.now node) in
        Answers nodes.old.items nodes.new.items (fault_at (layout_of layouts.now).relaxed f ls)
        (plan_at f ls (1 + node)) result }
{
    match layouts.child(node, field.id().abs()) {
        Some(child) => match field.need() {
            Need::Optional => bind_optional(alloc, field.ty(), layouts, child, nodes),
            Need::Plain | Need::Required => bind_type(alloc, field.ty(), layouts, child, nodes),
        },
        None => match field.need() {
            Need::Required => Err(BindFault::RequiredAbsent(Vec::new(alloc))),
            Need::Plain | Need::Optional => {
                lack_field(nodes, field)?;
                Ok(())
            }
        },
    }
}

// Binds an optional of a type.
#[cycle(bind)]
fn bind_optional(
    alloc: Global,
    ty: TypeRef<'_>,
    layouts: &Layouts,
    node: u32,
    nodes: &mut Vec<u32>,
) -> Result<(), BindFault>
    requires { IsNode layouts.now node }
    ensures { let t = type_of_ref ty.entry in
        let l = Some (at layouts.now node) in
        Answers nodes.old.items nodes.new.items
        (field_fault Optional (λ m. type_fault (layout_of layouts.now).relaxed t m) l)
        (nodes_of_field Optional (λ m n. nodes_at t m n) 0 l node) result }
{
    match layouts.kind(node) {
        Kind::Optional => {
            add_node(nodes, node)?;
            add_node(nodes, node + 1)?;
            under(2, bind_type(alloc, ty, layouts, node + 2, nodes))
        }
        _ => Err(BindFault::TypeChanged(Vec::new(alloc))),
    }
}

// The fault with its ids in order.
fn in_order(fault: BindFault) -> BindFault
    ensures { (d : Described) (t : TypeTree) → Tells (bind_fault d t) fault → IsBound d t (Err result) }
{
    match fault {
        BindFault::TypeChanged(mut ids) => {
            ids.reverse();
            BindFault::TypeChanged(ids)
        }
        BindFault::RequiredAbsent(mut ids) => {
            ids.reverse();
            BindFault::RequiredAbsent(ids)
        }
        BindFault::NoMemory => BindFault::NoMemory,
    }
}

// Binds a definition to a layout.
pub(crate) fn bind_layouts(
    alloc: Global,
    def: &Definition,
    layouts: &Layouts,
) -> Result<Plan, BindFault>
    ensures { IsBound (layout_of layouts.now) (root_of (definition_of def.now)) result }
{
    let mut nodes = Vec::new(alloc);
    match bind_type(alloc, def.root(), layouts, 0, &mut nodes) {
        Ok(()) => Ok(Plan { nodes }),
        Err(fault) => Err(in_order(fault)),
    }
}

/// The plan by which a definition reads a file, where it binds to the file's layout; else the first node of
/// its root, in preorder, that does not bind.
pub fn bind(alloc: Global, def: &Definition, opened: &Opened<'_>) -> Result<Plan, BindFault>
    ensures { IsBound (layout_of opened.now.layouts) (root_of (definition_of def.now)) result }
{
    bind_layouts(alloc, def, &opened.layouts)
}
