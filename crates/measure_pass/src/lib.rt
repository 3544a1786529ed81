//! Measuring: passes over values.
#![tactic(auto)]

mod gather;
mod laws;
mod leaf;
mod least;
mod pass;
mod ranges;
mod visit;

pub use laws::ranges_suffice;
pub use least::{Measured, measure, measure_over};
pub use pass::one_pass;
pub use ranges::{RangeSpot, Ranges, range_pass};
