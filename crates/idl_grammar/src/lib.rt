//! Grammars over the tokens of definition texts: what a grammar's texts mean, and where the first fault of other texts stands.
#![tactic(auto)]

mod fault;
mod laws;

pub use fault::{Fault, LineFault, ReadError};
pub use laws::{HasGrammar, reading_is_exact, tokens_have_one_answer};
