//! Contents of frozen files, checked without making values.
#![tactic(auto)]

mod cells;
mod check;
mod facts;
mod fault;
mod keys;
mod leaf;
mod open;
mod range;
mod reach;
mod sets;
mod sure;

pub use fault::ContentFault;
pub use open::check_content;
