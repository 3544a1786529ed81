//! Definitions and values of worked rows.

ghost use Rattle.std.specs.Prelude.{IfOk};
ghost use Rattle.idl_parse.specs.Parsed.{definition_of};
ghost use Rattle.typed_tree.specs.References.{value_of_tree};
ghost use Rattle.row_tests.specs.Values.{IsRootValue};

use crate::fault::RowFault;
use compact_codec::{decode, encode};
use compact_wire::WireFault;
use std::alloc::{AllocError, Global};
use thrift_idl::{Definition, parse};
use typed_reading::ValueFault;
use typed_tree::Tree;

/// The definition that a text means.
pub(crate) fn definition(alloc: Global, text: &str) -> Result<Definition, RowFault> {
    let bytes = text.as_bytes();
    if bytes.len() >= 0x8000_0000 {
        return Err(RowFault::NoMemory);
    }
    Ok(parse(alloc, bytes)?)
}

/// The value of a definition's root that bytes spell.
pub(crate) fn value(alloc: Global, def: &Definition, bytes: &[u8]) -> Result<Tree, RowFault>
    ensures { IfOk result (λ tree. IsRootValue (definition_of def.now) (value_of_tree tree)) }
{
    match decode(alloc, def.root(), bytes) {
        Ok(tree) => Ok(tree),
        Err(fault) => Err(RowFault::Value(fault)),
    }
}

/// Some bytes, and so many zeros behind them.
pub(crate) fn with_zeros(alloc: Global, head: &[u8], zeros: u32) -> Result<Vec<u8>, AllocError> {
    let mut bytes = Vec::new(alloc);
    bytes.extend_from_slice(head)?;
    for _ in 0..zeros {
        bytes.push(0)?;
    }
    Ok(bytes)
}

/// The canonical spelling of the value that bytes spell.
pub(crate) fn respelled(alloc: Global, text: &str, bytes: &[u8]) -> Result<Vec<u8>, RowFault> {
    let def = definition(alloc, text)?;
    let tree = value(alloc, &def, bytes)?;
    Ok(encode(alloc, def.root(), tree.top())?)
}

/// Why bytes are no value of a definition's root, as a line; empty where they are one.
pub(crate) fn fault_line(alloc: Global, text: &str, bytes: &[u8]) -> Result<String, RowFault> {
    let def = definition(alloc, text)?;
    match decode(alloc, def.root(), bytes) {
        Ok(_) => Ok(String::new(alloc)),
        Err(fault) => Ok(line(alloc, &fault)?),
    }
}

/// A fault as a line: its number, and where it is.
fn line(alloc: Global, fault: &ValueFault) -> Result<String, AllocError> {
    match fault {
        ValueFault::Wire(WireFault::Truncated) => format!(in alloc; "value wire 1"),
        ValueFault::Wire(WireFault::Malformed(at)) => format!(in alloc; "value wire 2 at {at}"),
        ValueFault::Wire(WireFault::Trailing(at)) => format!(in alloc; "value wire 3 at {at}"),
        ValueFault::RepeatedField { node } => format!(in alloc; "value 1 node {node}"),
        ValueFault::MissingRequired { node, field } => {
            format!(in alloc; "value 2 node {node} field {field}")
        }
        ValueFault::WrongType { node } => format!(in alloc; "value 3 node {node}"),
        ValueFault::BadText { node } => format!(in alloc; "value 4 node {node}"),
        ValueFault::RepeatedKey { node } => format!(in alloc; "value 5 node {node}"),
        ValueFault::TooManyCells { cells } => format!(in alloc; "value 6 cells {cells}"),
        ValueFault::Wire(WireFault::NoMemory) | ValueFault::NoMemory => {
            format!(in alloc; "out of memory")
        }
    }
}
