//! Whole values of lenses: how many cells a part of a file has under a definition, the part in Compact Protocol,
//! and the part as a tree.
#![tactic(auto)]

mod cells;
mod counted;
mod fault;
mod flat;
mod joining;
mod putting;
mod thawing;
mod writing;

pub use cells::lens_cells;
pub use fault::ThawFault;
pub use thawing::{thaw, thaw_tree};
