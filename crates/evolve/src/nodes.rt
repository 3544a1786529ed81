//! Adding nodes to a plan.

ghost use Rattle.std.specs.Prelude.{◌≡◌, ◌<◌, ◌∷◌, [], replicate, Some, None, IfOk};
ghost use Rattle.frozen_model.specs.Trees.{nodes as count_nodes};
ghost use Rattle.idl_profile.specs.Types.{kind_of};
ghost use Rattle.idl_profile.specs.declared.kinds.TypeKind.TheVariants as types;
ghost use Rattle.idl_parse.specs.Refs.{type_of_ref, field_of_ref};
ghost use Rattle.type_kinds.specs.KindsOf.{kinds_of};
ghost use Rattle.layout_tree.specs.Shapes.{field_kinds};
ghost use Rattle.evolve.specs.Plans.{range_nodes};
ghost use Rattle.evolve.specs.BindSteps.{Adds};

use crate::plan::NO_NODE;
use std::alloc::AllocError;
use thrift_idl::{FieldRef, Need, TypeKind, TypeRef};

// Adds a node of the file.
pub(crate) fn add_node(nodes: &mut Vec<u32>, node: u32) -> Result<(), AllocError>
    requires { node < 4096 }
    ensures { IfOk result (λ _. Adds nodes.old.items nodes.new.items (Some node ∷ [])) }
{
    nodes.push(node)?;
    Ok(())
}

// Adds the nodes of a range, its distance and its count.
pub(crate) fn add_range(nodes: &mut Vec<u32>, node: u32) -> Result<(), AllocError>
    requires { node < 4094 }
    ensures { IfOk result (λ _. Adds nodes.old.items nodes.new.items (range_nodes node)) }
{
    add_node(nodes, node)?;
    add_node(nodes, node + 1)?;
    add_node(nodes, node + 2)?;
    Ok(())
}

// Adds so many nodes that the file lacks.
fn add_none(nodes: &mut Vec<u32>, count: u32) -> Result<(), AllocError>
    ensures { IfOk result (λ _. Adds nodes.old.items nodes.new.items (replicate count None)) }
{
    for _i in 0..count {
        nodes.push(NO_NODE)?;
    }
    Ok(())
}

// Adds the nodes of a type, all of which the file lacks. A definition's types have at most 32 levels
// (`docs/IDL.md`), so calls are no deeper than three times as many.
#[cycle(lack)]
fn lack_type(nodes: &mut Vec<u32>, ty: TypeRef<'_>) -> Result<(), AllocError>
    ensures { let k = kinds_of (type_of_ref ty.entry) in
        IfOk result (λ _. Adds nodes.old.items nodes.new.items (replicate (count_nodes k) None)) }
{
    match ty.kind() {
        TypeKind::Flag => add_none(nodes, 1),
        TypeKind::I8 | TypeKind::I16 => add_none(nodes, 1),
        TypeKind::I32 | TypeKind::I64 | TypeKind::Enum => add_none(nodes, 1),
        TypeKind::Text | TypeKind::Bytes => add_none(nodes, 3),
        TypeKind::List | TypeKind::Set => {
            add_none(nodes, 3)?;
            lack_type(nodes, ty.element())
        }
        TypeKind::Map => {
            add_none(nodes, 4)?;
            lack_type(nodes, ty.key())?;
            lack_type(nodes, ty.value())
        }
        TypeKind::Struct => lack_fields(nodes, ty),
    }
}

// Adds the nodes of a struct that the file lacks.
#[cycle(lack)]
fn lack_fields(nodes: &mut Vec<u32>, ty: TypeRef<'_>) -> Result<(), AllocError>
    requires { kind_of (type_of_ref ty) ≡ types.Struct }
    ensures { let k = kinds_of (type_of_ref ty.entry) in
        IfOk result (λ _. Adds nodes.old.items nodes.new.items (replicate (count_nodes k) None)) }
{
    add_none(nodes, 1)?;
    for i in 0..ty.field_count() {
        lack_field(nodes, ty.field_at(i))?;
    }
    Ok(())
}

// Adds the nodes of a field that the file lacks.
#[cycle(lack)]
pub(crate) fn lack_field(nodes: &mut Vec<u32>, field: FieldRef<'_>) -> Result<(), AllocError>
    ensures { let k = field_kinds (field_of_ref field.entry) in
        IfOk result (λ _. Adds nodes.old.items nodes.new.items (replicate (count_nodes k) None)) }
{
    match field.need() {
        Need::Optional => {
            add_none(nodes, 2)?;
            lack_type(nodes, field.ty())
        }
        Need::Plain | Need::Required => lack_type(nodes, field.ty()),
    }
}
