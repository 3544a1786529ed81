//! The part of a frozen file at a path, under a definition of one's own.
#![tactic(auto)]

mod fitted;
mod fitting;
mod interval;
mod keys;
mod path;
mod steps;

pub use fitted::FittedPath;
pub use fitting::fit_path;
pub use interval::between;
pub use path::{lookup, lookup_fitted};
