//! What the program `frozen` does with its words, over any files and sinks.
#![tactic(auto)]

mod answer;
mod deliver;
mod ids;
mod laws;
mod refusal;
mod running;
mod stages;
mod wanted;
mod words;

pub use laws::{frozen_thaws, run_in_memory_is_replied};
pub use running::{run, start};
