//! Search in keys that stand in order.
#![tactic(auto)]

mod bound;
mod find;
mod keys;
mod numbers;

pub use bound::lower_bound;
pub use find::search;
pub use keys::Keys;
pub use numbers::Numbers;
