//! The profile of the Thrift IDL that this project reads: its grammar, what its texts mean, and the faults of others.
#![tactic(auto)]

mod kinds;
mod laws;

pub use kinds::{BaseType, Need, TypeKind};
pub use laws::tokens_have_one_answer;
