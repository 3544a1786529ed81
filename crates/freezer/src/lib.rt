//! Packing: writes values into regions.
#![tactic(auto)]

mod leaf;
mod least;
mod pack;
mod put;
mod write;

pub use least::{Frozen, freeze, measure_alone};
pub use pack::freeze_into;
