//! One reservation of memory, handed out in blocks that stand end to end.
#![tactic(auto)]

mod block;
pub mod laws;
mod region;

pub use block::Block;
pub use region::Region;
