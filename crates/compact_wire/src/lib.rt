//! Compact Protocol, the wire form of a struct: its numbers, its trees, reading and writing.
#![tactic(auto)]

mod fault;
mod header;
mod headers;
mod kind;
mod laws;
mod numbers;
mod reading;
mod scalars;
mod whole;
mod wire;
mod writing;

pub use fault::WireFault;
pub use header::{
    FieldBefore, FieldHeader, FieldType, ListHeader, PairKinds, field_header, list_header,
    map_header,
};
pub use headers::{element_of, read_count, read_field_start, read_list_header, read_map_header};
pub use kind::{Kind, code_of, fits};
pub use laws::{canon_spells, spelling_is_prefix_free, spelling_is_unique, zigzag_is_inverse};
pub use numbers::{
    push_number, read_i16, read_i32, read_i64, read_number, unzigzag, unzigzag_32, zigzag,
};
pub use scalars::{read_eight, read_taken};
pub use whole::read_wire;
pub use wire::Wire;
pub use writing::{push_binary, push_field_header, push_sequence_header, write_wire};
