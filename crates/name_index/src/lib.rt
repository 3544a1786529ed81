//! An index of names: where each of a list of names stood first.
#![tactic(auto)]

mod index;

pub use index::NameIndex;
