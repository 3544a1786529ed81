//! A part of a frozen file as lines of JSON.
#![tactic(auto)]

mod leaves;
mod writing;

pub use writing::{item_lines, json_line};
