//! The model of the frozen form: definitions that the crates above cite, and the laws over them.
#![tactic(auto)]

pub mod bit_laws;
pub mod rows;
