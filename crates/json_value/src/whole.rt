//! A whole text read as JSON of a type.

ghost use Rattle.std.specs.Prelude.{◌≡◌, ◌⊎◌, IfOk, IfErr, Err};
ghost use Rattle.serde_json.specs.Data.{Data};
ghost use Rattle.serde_json.specs.View.{view};
ghost use Rattle.idl_profile.specs.Types.{kind_of};
ghost use Rattle.idl_profile.specs.declared.kinds.TypeKind.{TypeKind};
ghost use Rattle.idl_parse.specs.Refs.{type_of_ref};
ghost use Rattle.json_value.specs.Answers.{IsRead, IsCaused, IsOnlyCaused, IsOfJson, fault_at};
ghost use Rattle.json_value.specs.Reading.{start, after};

use crate::checking::check_value;
use crate::fault::JsonFault;
use crate::nodes::nodes;
use crate::progress::Progress;
use serde_json::Value;
use std::alloc::Global;
use thrift_idl::TypeRef;
use typed_reading::{Found, NodeFault};

/// The JSON value that a text is.
fn read_text(alloc: Global, text: &[u8]) -> Result<Value, JsonFault>
    ensures ok { IfOk result (λ v. IsRead text.now (view v)) }
    ensures err { IfErr result (λ e. (e ≡ JsonFault.NoMemory)
        ⊎ ((e ≡ JsonFault.NotJson) × ((j : Data) → IsRead text.now j → ⊥))) }
{
    match Value::from_slice(alloc, text) {
        Ok(value) => Ok(value),
        Err(error) => if error.is_memory() {
            Err(JsonFault::NoMemory)
        } else {
            Err(JsonFault::NotJson)
        },
    }
}

/// What is known behind a JSON value that is read as a type.
fn check_whole(alloc: Global, ty: TypeRef<'_>, value: &Value) -> Result<Progress, JsonFault>
    ensures ok { IfOk result (λ p. p ≡ after (type_of_ref ty.entry) start (view value.now)) }
    ensures err { IfErr result (λ e. e ≡ JsonFault.NoMemory) }
{
    // The numbers of all nodes have 64 bits.
    match nodes(value) {
        Some(count) if count < u64::MAX => {}
        _ => return Err(JsonFault::NoMemory),
    }
    let mut progress = Progress {
        found: None,
        next: 0,
    };
    match check_value(alloc, ty, value, &mut progress) {
        Ok(()) => Ok(progress),
        Err(_) => Err(JsonFault::NoMemory),
    }
}

/// The fault of a text at a node.
fn fault_of(found: Found) -> JsonFault
    requires { IsOfJson found.fault }
    ensures { result ≡ fault_at found.node found.fault }
{
    let node = found.node;
    match found.fault {
        NodeFault::WrongType => JsonFault::WrongType { node },
        NodeFault::MissingRequired(field) => JsonFault::MissingRequired { node, field },
        NodeFault::RepeatedKey => JsonFault::RepeatedKey { node },
        NodeFault::RepeatedField | NodeFault::BadText => unreachable!(),
    }
}

/// Whether a text is JSON of a struct's type; else why not: that it is no JSON, or the fault of the least node.
pub fn find_fault(alloc: Global, ty: TypeRef<'_>, text: &[u8]) -> Result<(), JsonFault>
    requires is_struct { kind_of (type_of_ref ty) ≡ TypeKind.Struct }
    // Each answer has its cause.
    ensures cause { IsCaused (type_of_ref ty.entry) text.now result }
    // Where the cause of an answer holds, it is the answer, unless memory runs out.
    ensures only { IsOnlyCaused (type_of_ref ty.entry) text.now result }
{
    let value = match read_text(alloc, text) {
        Ok(value) => value,
        Err(fault) => return Err(fault),
    };
    let known = match check_whole(alloc, ty, &value) {
        Ok(known) => known,
        Err(fault) => return Err(fault),
    };
    match known.found {
        Some(found) => Err(fault_of(found)),
        None => Ok(()),
    }
}
