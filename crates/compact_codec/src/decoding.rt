//! Reading bytes as a value of a type.

ghost use Rattle.std.specs.Prelude.{◌≡◌, IfOk};
ghost use Rattle.compact_wire.specs.Node.{Node};
ghost use Rattle.compact_wire.specs.Spells.{SpellsWire};
ghost use Rattle.frozen_model.specs.Values.{Of};
ghost use Rattle.idl_profile.specs.Types.{kind_of};
ghost use Rattle.idl_profile.specs.declared.kinds.TypeKind.{TypeKind};
ghost use Rattle.idl_parse.specs.Refs.{type_of_ref};
ghost use Rattle.type_kinds.specs.Accepted.{IsAccepted};
ghost use Rattle.type_kinds.specs.KindsOf.{kinds_of};
ghost use Rattle.type_kinds.specs.Laws.{Any};
ghost use Rattle.typed_tree.specs.References.{value_of_tree};
ghost use Rattle.typed_reading.specs.Answers.{IsValue};
ghost use Rattle.typed_reading.specs.Meaning.{Typed};
ghost use Rattle.compact_codec.specs.Decoding.{IsDecoded, IsOnlyDecoded, as_value};

use crate::building::build_value;
use compact_wire::Kind;
use std::alloc::{AllocError, Global};
use thrift_idl::TypeRef;
use typed_reading::{ValueFault, check};
use typed_tree::{Builder, Room, Tree};

/// The tree of a struct that the bytes spell without faults, in a pool with this room; where it is less
/// than the tree takes, the pool grows.
pub fn build(alloc: Global, ty: TypeRef<'_>, room: Room, bytes: &[u8]) -> Result<Tree, AllocError>
    requires accepted { IsAccepted Any (type_of_ref ty) }
    requires value { (w : Node) × IsValue (type_of_ref ty) bytes.now w }
    ensures { IfOk result (λ tree.
        (w : Node) × SpellsWire w bytes.now × Typed (type_of_ref ty.entry) w (value_of_tree tree)) }
{
    let mut builder = Builder::sized(alloc, room.nodes, room.bytes)?;
    let mut ids = Vec::new(alloc);
    let mut marks = Vec::new(alloc);
    build_value(
        ty,
        64,
        Kind::Struct,
        bytes,
        &mut builder,
        &mut ids,
        &mut marks,
    )?;
    Ok(builder.finish())
}

/// The value of the struct that the bytes spell, all of them, read as a struct's type by the rules of
/// docs/COMPACT.md; else what is wrong with them, as `check` of `typed_reading` tells it: the fault of the
/// spelling, and where there is none the fault of the least node and there the one of the least number, and
/// where there is none that the cells are more than 33,554,432. The bytes are read twice before a tree is
/// made, so that what is refused takes little memory.
pub fn decode(alloc: Global, ty: TypeRef<'_>, bytes: &[u8]) -> Result<Tree, ValueFault>
    requires is_struct { kind_of (type_of_ref ty) ≡ TypeKind.Struct }
    // Each answer has its cause.
    ensures cause { IsDecoded (type_of_ref ty.entry) bytes.now (as_value result) }
    // Where the cause of an answer holds, it is the answer, unless memory runs out.
    ensures only { IsOnlyDecoded (type_of_ref ty.entry) bytes.now (as_value result) }
    // A value that is decoded is one of the type.
    ensures kinds { IfOk result (λ tree. Of (kinds_of (type_of_ref ty.entry)) (value_of_tree tree)) }
{
    match check(alloc, ty, bytes) {
        Ok(checked) => match build(alloc, ty, checked.room, bytes) {
            Ok(tree) => Ok(tree),
            Err(_) => Err(ValueFault::NoMemory),
        },
        Err(fault) => Err(fault),
    }
}
