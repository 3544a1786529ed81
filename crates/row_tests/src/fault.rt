//! Why a row has no content.

use std::alloc::AllocError;
use thrift_idl::DefFault;
use typed_reading::ValueFault;

/// Why a row has no content.
#[derive(Debug, Drop)]
pub(crate) enum RowFault {
    /// The text means no definition.
    Definition(DefFault),
    /// The bytes spell no value.
    Value(ValueFault),
    /// A node takes no width, or not this one, or a width is too small for the value.
    Widths,
    NoMemory,
}

impl From<AllocError> for RowFault {
    fn from(_e: AllocError) -> RowFault {
        RowFault::NoMemory
    }
}

impl From<DefFault> for RowFault {
    fn from(fault: DefFault) -> RowFault {
        RowFault::Definition(fault)
    }
}

impl From<ValueFault> for RowFault {
    fn from(fault: ValueFault) -> RowFault {
        RowFault::Value(fault)
    }
}
