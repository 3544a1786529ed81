//! Scanning a struct of the wire: whether bytes spell one, and how many nodes it has, with no memory.
#![tactic(auto)]

mod scanning;
mod skipping;

pub use scanning::scan_wire;
pub use skipping::{skip_items, skip_pairs, skip_scalar, skip_typed, skip_value};
