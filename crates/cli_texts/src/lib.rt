//! Texts of the program: the listing of a layout, and the demo's definition with its value.
#![tactic(auto)]

mod demo;
mod laws;
mod line;
mod text;

pub use demo::{DEMO_DEF, demo_users};
pub use laws::demo_def_means_the_demo;
pub use text::layout_text;
