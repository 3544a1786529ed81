//! Values of a definition's types to and from Binary Protocol.
#![tactic(auto)]

mod decoding;
mod encoding;
mod laws;
mod pieces;

pub use decoding::decode_binary;
pub use encoding::encode_binary;
pub use laws::{binary_decodes, binary_is_spelled};
