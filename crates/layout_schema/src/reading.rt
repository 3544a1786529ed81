//! Reading a schema.

ghost use Rattle.std.specs.Prelude.{◌≡◌, ◌⊎◌, Ok, Err, IfOk, IfErr};
ghost use Rattle.frozen_model.specs.Layouts.{Version, Version1};
ghost use Rattle.idl_profile.specs.Types.{kind_of};
ghost use Rattle.idl_profile.specs.declared.kinds.TypeKind.{TypeKind};
ghost use Rattle.idl_parse.specs.Refs.{type_of_ref};
ghost use Rattle.layout_tree.specs.Nodes.{layout_of, IsSettled};
ghost use Rattle.layout_schema.specs.declared.fault.SchemaFault.{SchemaFault};
ghost use Rattle.layout_schema.specs.Schemas.{schema_type};
ghost use Rattle.layout_schema.specs.Shapes.{shape_in};
ghost use Rattle.layout_schema.specs.Standing.{spelled_as};
ghost use Rattle.layout_schema.specs.Answers.{with_shape, IsSaid, IsSchemaFault};
ghost use Rattle.layout_schema.specs.Telling.{fault_told, IsReadAs, IsSpelled, IsSchemaOf};
ghost use Rattle.layout_schema.specs.Telling.{Tells, IsAnswer};

use crate::fault::SchemaFault;
use crate::fields::{flag_of_field, number_of_field};
use crate::types::schema_definition;
use crate::walk::read_shape;
use layout_tree::Layouts;
use std::alloc::Global;
use thrift_idl::TypeRef;
use typed_reading::{ValueFault, find_fault};

// The fault of a schema that is this fault of a value. Where cells are not counted there is none of too many.
fn fault_of(fault: ValueFault) -> SchemaFault
    ensures { result ≡ fault_told fault }
{
    match fault {
        ValueFault::Wire(fault) => SchemaFault::Spelling(fault),
        ValueFault::RepeatedField { node }
        | ValueFault::MissingRequired { node, .. }
        | ValueFault::WrongType { node }
        | ValueFault::BadText { node }
        | ValueFault::RepeatedKey { node } => SchemaFault::Fields(node),
        ValueFault::TooManyCells { .. } | ValueFault::NoMemory => SchemaFault::NoMemory,
    }
}

// Whether the bytes spell a value of the type; else the first fault of their spelling or of their fields.
fn check_fields(alloc: Global, ty: TypeRef<'_>, bytes: &[u8]) -> Result<(), SchemaFault>
    requires { kind_of (type_of_ref ty) ≡ TypeKind.Struct }
    ensures { IsReadAs (type_of_ref ty.entry) bytes.now result }
{
    match find_fault(alloc, ty, bytes) {
        Ok(()) => Ok(()),
        Err(fault) => Err(fault_of(fault)),
    }
}

// The layout of a schema that is of this version, 1 or 2, and of its type.
fn read_layout(
    alloc: Global,
    ty: TypeRef<'_>,
    bytes: &[u8],
    version: i32,
    relaxed: bool,
) -> Result<Layouts, SchemaFault>
    requires { (v : Version) × (type_of_ref ty ≡ schema_type v)
        × IsSpelled (schema_type v) bytes.now (spelled_as (schema_type v) bytes.now)
        × IsSchemaOf v version relaxed (spelled_as (schema_type v) bytes.now) }
    ensures told { (v : Version) → type_of_ref ty.entry ≡ schema_type v
        → IsSchemaOf v version relaxed (spelled_as (schema_type v) bytes.now)
        → Tells result (with_shape v relaxed (shape_in (spelled_as (schema_type v) bytes.now))) }
    ensures settled { IfOk result (λ layouts. IsSettled layouts) }
{
    match read_shape(alloc, ty, bytes) {
        Ok(nodes) => Ok(Layouts::from_nodes(nodes, version, relaxed)),
        Err(fault) => Err(fault),
    }
}

// The layout of the schema that the bytes spell, which are here of the type of version 1. Where they say
// version 2, they are read again, as the type of that version.
fn read_version(alloc: Global, ty: TypeRef<'_>, bytes: &[u8]) -> Result<Layouts, SchemaFault>
    requires typed { type_of_ref ty ≡ schema_type Version1 }
    requires spelled { IsSpelled (schema_type Version1) bytes.now
        (spelled_as (schema_type Version1) bytes.now) }
    ensures answer { IsAnswer bytes.now result }
    ensures settled { IfOk result (λ layouts. IsSettled layouts) }
{
    let version = number_of_field(bytes, 4);
    if version == 1 {
        return read_layout(alloc, ty, bytes, 1, false);
    }
    if version != 2 {
        return Err(SchemaFault::Version(version as i32));
    }
    let relaxed = flag_of_field(bytes, 1);
    let types = schema_definition(alloc, true)?;
    let ty = types.root();
    match check_fields(alloc, ty, bytes) {
        Ok(()) => read_layout(alloc, ty, bytes, 2, relaxed),
        Err(fault) => Err(fault),
    }
}

/// The layout that the bytes are a schema of, settled; else why they are none: the first condition of
/// "Reading" in docs/FORMAT.md that fails. The bytes are read as a `Schema` of version 1 first, and where they
/// say version 2, again as one of version 2.
pub fn read_schema(alloc: Global, bytes: &[u8]) -> Result<Layouts, SchemaFault>
    // What is answered is what the bytes say.
    ensures layout { IfOk result (λ layouts. IsSaid bytes.now (Ok (layout_of layouts))) }
    ensures settled { IfOk result (λ layouts. IsSettled layouts) }
    // Each fault has its cause.
    ensures fault { IfErr result (λ f. IsSchemaFault bytes.now f ⊎ (f ≡ SchemaFault.NoMemory)) }
    // Where the cause of a fault holds, it is the answer, unless memory runs out.
    ensures only { (f : SchemaFault) → IsSchemaFault bytes.now f
        → (result ≡ Err f) ⊎ (result ≡ Err SchemaFault.NoMemory) }
{
    let types = schema_definition(alloc, false)?;
    let ty = types.root();
    match check_fields(alloc, ty, bytes) {
        Ok(()) => read_version(alloc, ty, bytes),
        Err(fault) => Err(fault),
    }
}
