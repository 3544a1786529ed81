//! Reading bytes of Binary Protocol as a value of a type.

ghost use Rattle.std.specs.Prelude.{◌≡◌, IfOk};
ghost use Rattle.frozen_model.specs.Values.{Of};
ghost use Rattle.idl_profile.specs.Types.{kind_of};
ghost use Rattle.idl_profile.specs.declared.kinds.TypeKind.{TypeKind};
ghost use Rattle.idl_parse.specs.Refs.{type_of_ref};
ghost use Rattle.type_kinds.specs.KindsOf.{kinds_of};
ghost use Rattle.typed_tree.specs.References.{value_of_tree};
ghost use Rattle.compact_codec.specs.Decoding.{as_value};
ghost use Rattle.binary_codec.specs.BinaryDecoding.{IsBinaryDecoded, IsOnlyBinaryDecoded};

use binary_wire::transcode;
use compact_codec::decode;
use compact_wire::WireFault;
use std::alloc::Global;
use thrift_idl::TypeRef;
use typed_reading::ValueFault;
use typed_tree::Tree;

/// The value of the struct that the bytes spell in Binary Protocol, all of them, read as a struct's type; else what is
/// wrong with them, in the order and with the numbers of `decode` of `compact_codec`. Places are numbers of bytes of
/// Binary Protocol. The bytes are transcoded first, which takes at most half as much memory again as they do.
pub fn decode_binary(alloc: Global, ty: TypeRef<'_>, bytes: &[u8]) -> Result<Tree, ValueFault>
    requires is_struct { kind_of (type_of_ref ty) ≡ TypeKind.Struct }
    // Each answer has its cause.
    ensures cause { IsBinaryDecoded (type_of_ref ty.entry) bytes.now (as_value result) }
    // Where the cause of an answer holds, it is the answer, unless memory runs out.
    ensures only { IsOnlyBinaryDecoded (type_of_ref ty.entry) bytes.now (as_value result) }
    // A value that is decoded is one of the type.
    ensures kinds { IfOk result (λ tree. Of (kinds_of (type_of_ref ty.entry)) (value_of_tree tree)) }
{
    match transcode(alloc, bytes) {
        Ok(compact) => decode(alloc, ty, compact.as_slice()),
        Err(WireFault::NoMemory) => Err(ValueFault::NoMemory),
        Err(fault) => Err(ValueFault::Wire(fault)),
    }
}
