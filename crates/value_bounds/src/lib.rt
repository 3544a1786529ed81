//! Bounds of the numbers of a value at each leaf of its layout, and the bases that they give.
#![tactic(auto)]

mod bases;
mod bounds;
mod numbers;
mod walk;

pub use bases::set_bases;
pub use bounds::Bounds;
pub use numbers::survey;
