//! Views of the parts of a value, read in place in a content.
#![tactic(auto)]

mod items;
mod laws;
mod parts;
mod read;
mod row;
mod struct_fields;
mod view;

pub use items::Items;
pub use laws::view_is_part;
pub use row::Row;
pub use struct_fields::StructFields;
pub use view::View;
