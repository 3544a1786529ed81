//! Binary Protocol, the wire form of a struct with numbers of fixed width: its grammar, and transcoding to Compact
//! Protocol.
#![tactic(auto)]

mod codes;
mod laws;
mod numbers;
mod scalars;
mod transcoding;
mod whole;

pub use codes::{binary_code, binary_kind};
pub use laws::{binary_fits_wire, binary_is_prefix_free, binary_is_unique};
pub use whole::{read_binary, transcode};
