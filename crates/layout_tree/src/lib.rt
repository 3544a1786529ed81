//! Layouts as lists of nodes: what stands where in a content, and how wide it is.
#![tactic(auto)]

mod blank;
mod laws;
mod layouts;
mod mark;
mod node;
mod renew;
mod settle;

pub use blank::shape;
pub use laws::layouts_are_described;
pub use layouts::Layouts;
pub use node::{Kind, NodeSpec};
