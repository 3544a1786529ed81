//! Numbers of any width at any bit of a slice of bytes.
#![tactic(auto)]

mod need;
mod read;
mod word;
mod write;

pub use need::{need_signed, need_unsigned};
pub use read::{all_zero, read_bits, read_signed};
pub use word::ones;
pub use write::write_bits;
