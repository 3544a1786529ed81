//! The value of an opened file, as a whole: a tree of `typed_tree`.
#![tactic(auto)]

mod putting;
mod whole;

pub use whole::value_of;
