//! The schema of a layout: what a frozen file says of its layout, as a struct in Compact Protocol.
#![tactic(auto)]

mod entering;
mod entries;
mod fault;
mod fields;
mod laws;
mod pieces;
mod reading;
mod table;
mod types;
mod walk;
mod write;

pub use fault::SchemaFault;
pub use laws::{schemas_are_exact, schemas_are_short, written_schema_is_schema};
pub use reading::read_schema;
pub use write::write_schema;
