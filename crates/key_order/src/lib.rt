//! The order of keys, the least key that repeats, and values in the order of their keys.
#![tactic(auto)]

mod key;
pub mod laws;
mod repeats;

pub use key::{Key, compare_keys};
pub use repeats::{PlacedKey, Repeat, least_repeat};
