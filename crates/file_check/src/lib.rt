//! Frozen files: composing one of its parts, and opening one in place.
#![tactic(auto)]

mod composing;
mod fault;
mod front;
mod laws;
mod open;
mod opened;
mod parts;

pub use composing::compose;
pub use fault::OpenFault;
pub use front::header;
pub use laws::{files_are_unique, opened_composes, opening_is_exact};
pub use open::open_frozen;
pub use opened::Opened;
