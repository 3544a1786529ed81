//! The frozen file of a value: measures it, and writes header, schema and packing into one region.
#![tactic(auto)]

mod file;

pub use file::{frozen_file, refrozen_file};
