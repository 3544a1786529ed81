//! The demo: freezes the demo's users, opens their file, looks each user up, and tells what it came to.
#![tactic(auto)]

mod figures;
mod laws;
mod lookups;
mod opening;

pub use figures::{DemoFigures, demo, demo_line};
pub use laws::{own_file_is_short, own_file_opens, own_file_thaws};
pub use lookups::id_path;
