//! Values of a definition's types to and from Compact Protocol.
#![tactic(auto)]

mod building;
mod decoding;
mod encoding;
mod fields;
mod laws;
mod leaves;
mod scalars;

pub use decoding::{build, decode};
pub use encoding::encode;
pub use laws::{encoding_decodes, encoding_is_typed};
pub use leaves::{join_map, join_set};
pub use scalars::{push_byte, push_flag, push_flag_field};
pub use typed_reading::ValueFault;
