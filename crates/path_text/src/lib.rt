//! Paths as texts: read, and fitted to a definition.
#![tactic(auto)]

mod fault;
mod fitting;
mod laws;
mod numbers;
mod parse;
mod path;
mod pieces;
mod reading;

pub use fault::PathFault;
pub use fitting::{fit, fit_scan};
pub use laws::paths_have_one_answer;
pub use parse::parse_path;
pub use path::{KeyLit, Path, Step, StepKind};
