//! The events of a struct of the wire, one after the other.
#![tactic(auto)]

mod cursor;
mod frame;
mod opening;
mod stack;
mod stepping;

pub use cursor::WireEvents;
pub use frame::WireEvent;
