//! Reading definition texts by their grammar: enums, structs with their measures, typedefs and headers.
#![tactic(auto)]

mod collect;
mod growing;
mod headers;
pub mod items;
mod measure;
mod members;
mod structs;
mod whole;

pub use whole::read_definitions;
