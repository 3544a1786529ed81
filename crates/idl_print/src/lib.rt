//! The text of a definition, and that it means the definition.
#![tactic(auto)]

mod laws;
mod printing;
mod text;
mod types;
mod values;

pub use laws::printed_text_means_the_definition;
pub use printing::print;
