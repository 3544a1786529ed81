//! Parts of texts, and lists in the order of a key.
#![tactic(auto)]

mod laws;
mod span;

pub use laws::{insertion_moves, stable_sort_is_insertion};
pub use span::{Span, text_at};
