//! A whole struct read as a type.

ghost use Rattle.std.specs.Prelude.{◌≡◌, ◌-◌, IfOk, IfErr, None};
ghost use Rattle.compact_wire.specs.Node.{Node};
ghost use Rattle.compact_wire.specs.Spells.{SpellsWire};
ghost use Rattle.idl_profile.specs.Types.{kind_of};
ghost use Rattle.idl_profile.specs.declared.kinds.TypeKind.{TypeKind};
ghost use Rattle.idl_parse.specs.Refs.{type_of_ref};
ghost use Rattle.type_kinds.specs.Accepted.{IsAccepted};
ghost use Rattle.type_kinds.specs.Laws.{Any};
ghost use Rattle.typed_reading.specs.Answers.{fault_at, IsUnread, IsValue, IsCaused, IsOnlyCaused, IsChecked, IsOnlyChecked, limited, uncounted};
ghost use Rattle.typed_reading.specs.Counts.{checked_as};
ghost use Rattle.typed_reading.specs.Progress.{start, after};

use crate::checking::check_struct;
use crate::counts::{Checked, nothing};
use crate::fault::{Found, NodeFault, ValueFault};
use crate::progress::Progress;
use compact_wire::WireFault;
use exact_reading::{ReadError, Stop};
use std::alloc::Global;
use thrift_idl::TypeRef;

/// The most cells that a value may have.
const CELL_LIMIT: u64 = 33_554_432;

/// What is known and counted behind the struct that the bytes spell, all of them, read as a struct's type.
fn check_whole(
    alloc: Global,
    ty: TypeRef<'_>,
    bytes: &[u8],
) -> Result<(Progress, Checked), ValueFault>
    requires is_struct { kind_of (type_of_ref ty) ≡ TypeKind.Struct }
    requires accepted { IsAccepted Any (type_of_ref ty) }
    ensures known { IfOk result (λ p.
        (w : Node) × SpellsWire w bytes.now × (p.0 ≡ after (type_of_ref ty.entry) start w)) }
    ensures counts { IfOk result (λ p.
        p.0.found ≡ None → (w : Node) → IsValue (type_of_ref ty.entry) bytes.now w
        → p.1 ≡ checked_as (type_of_ref ty.entry) w) }
    ensures refused { IfErr result (IsUnread bytes.now) }
{
    let mut progress = Progress {
        found: None,
        next: 0,
    };
    let mut sums = nothing();
    let mut marks = Vec::new(alloc);
    match check_struct(alloc, ty, 63, bytes, &mut progress, &mut sums, &mut marks) {
        Ok(rest) => {
            if rest.is_empty() {
                Ok((progress, sums))
            } else {
                Err(ValueFault::Wire(WireFault::Trailing(place(bytes.len(), rest.len()))))
            }
        }
        Err(ReadError::NoMemory) => Err(ValueFault::NoMemory),
        Err(ReadError::Stop(Stop::Ended)) => Err(ValueFault::Wire(WireFault::Truncated)),
        Err(ReadError::Stop(Stop::Refused(left))) => {
            Err(ValueFault::Wire(WireFault::Malformed(place(bytes.len(), left))))
        }
    }
}

fn place(len: usize, left: usize) -> u64
    ensures { result ≡ len - left }
{
    len.saturating_sub(left) as u64
}

/// The fault of a value at a node.
fn fault_of(found: Found) -> ValueFault
    ensures { result ≡ fault_at found.node found.fault }
{
    let node = found.node;
    match found.fault {
        NodeFault::RepeatedField => ValueFault::RepeatedField { node },
        NodeFault::MissingRequired(field) => ValueFault::MissingRequired { node, field },
        NodeFault::WrongType => ValueFault::WrongType { node },
        NodeFault::BadText => ValueFault::BadText { node },
        NodeFault::RepeatedKey => ValueFault::RepeatedKey { node },
    }
}

/// What is counted over the struct that the bytes spell, where they spell a value of the struct's type; else why they spell
/// none.
fn count_value(alloc: Global, ty: TypeRef<'_>, bytes: &[u8]) -> Result<Checked, ValueFault>
    requires is_struct { kind_of (type_of_ref ty) ≡ TypeKind.Struct }
    ensures cause { IsCaused (type_of_ref ty.entry) bytes.now (uncounted result) }
    ensures only { IsOnlyCaused (type_of_ref ty.entry) bytes.now (uncounted result) }
    ensures counts { IfOk result (λ c. (w : Node) → IsValue (type_of_ref ty.entry) bytes.now w
        → c ≡ checked_as (type_of_ref ty.entry) w) }
{
    match check_whole(alloc, ty, bytes) {
        Ok((known, sums)) => match known.found {
            Some(found) => Err(fault_of(found)),
            None => Ok(sums),
        },
        Err(fault) => Err(fault),
    }
}

/// Whether the bytes spell a struct, all of them, that is a value of the type; else why not: the fault of the spelling,
/// and where there is none, the fault of the least node, and there the one of the least number. It takes memory for marks
/// of the fields of the structs around a value, and for the keys of the sets and maps around it.
pub fn find_fault(alloc: Global, ty: TypeRef<'_>, bytes: &[u8]) -> Result<(), ValueFault>
    requires is_struct { kind_of (type_of_ref ty) ≡ TypeKind.Struct }
    // Each answer has its cause.
    ensures cause { IsCaused (type_of_ref ty.entry) bytes.now result }
    // Where the cause of an answer holds, it is the answer, unless memory runs out.
    ensures only { IsOnlyCaused (type_of_ref ty.entry) bytes.now result }
{
    match count_value(alloc, ty, bytes) {
        Ok(_) => Ok(()),
        Err(fault) => Err(fault),
    }
}

/// A count, or the fault that its cells pass the limit.
fn within_limit(count: Checked) -> Result<Checked, ValueFault>
    ensures { result ≡ limited count }
{
    if count.cells > CELL_LIMIT {
        Err(ValueFault::TooManyCells { cells: count.cells })
    } else {
        Ok(count)
    }
}

/// The cells of the value of the type that the bytes spell, all of them, and the room that a tree of it takes; else why
/// they spell none, as `find_fault` tells it, or that the cells are more than 33,554,432.
pub fn check(alloc: Global, ty: TypeRef<'_>, bytes: &[u8]) -> Result<Checked, ValueFault>
    requires is_struct { kind_of (type_of_ref ty) ≡ TypeKind.Struct }
    // Each answer has its cause.
    ensures cause { IsChecked (type_of_ref ty.entry) bytes.now result }
    // Where the cause of an answer holds, it is the answer, unless memory runs out.
    ensures only { IsOnlyChecked (type_of_ref ty.entry) bytes.now result }
{
    match count_value(alloc, ty, bytes) {
        Ok(count) => within_limit(count),
        Err(fault) => Err(fault),
    }
}
