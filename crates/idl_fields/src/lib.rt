//! Reading the fields of structs, with their types and defaults, by the grammar of definition texts.
#![tactic(auto)]

pub mod draft;
mod fields;
mod found;
mod names;
mod node_list;
mod nodes;
mod notes;
mod reading;
pub mod scope;
mod sizes;
mod types;
mod words;

pub use fields::read_fields;
pub use names::{new_name, read_new_name};
pub use nodes::TypeNodes;
pub use notes::{read_ann, read_end};
pub use reading::{is_mark, none_left, read_mark, read_sep, wrong};
pub use scope::Scope;
pub use sizes::Size;
pub use types::read_type;
pub use words::{has_backslash, is_among};
