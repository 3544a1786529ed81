//! Structs of the wire read as types of a definition: whether bytes spell a value, or what is wrong with them.
#![tactic(auto)]

mod checking;
mod counts;
mod fault;
mod fields;
mod keys;
mod laws;
mod progress;
mod texts;
mod types;
mod whole;

pub use counts::Checked;
pub use fault::{Found, NodeFault, ValueFault};
pub use fields::{add_marks, is_marked, place_behind, set_mark};
pub use keys::read_key;
pub use laws::{least_fault_is_least, least_faulty_node_is_answered, typed_is_a_value};
pub use types::code;
pub use whole::{check, find_fault};
