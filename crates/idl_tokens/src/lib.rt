//! The tokens of definition texts in the interface definition language of Apache Thrift, each with its line.
#![tactic(auto)]

mod characters;
mod fronts;
mod numbers;
mod scan;
mod token;

pub use scan::split;
pub use token::{Placed, Token};
