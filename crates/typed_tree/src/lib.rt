//! Values as trees in a pool of nodes, read by references and made by a builder.
#![tactic(auto)]

mod builder;
mod entries;
mod fault;
mod fields;
mod fill;
mod items;
mod joined;
mod leaves;
mod order;
mod parts;
mod pool;
mod read;
mod room;
mod sizes;
mod spot;
mod tree;
mod type_links;
mod value_cells;

pub use builder::Builder;
pub use fault::TableFault;
pub use fill::{default_field, default_of};
pub use read::compare_keys;
pub use room::Room;
pub use sizes::{default_cells, default_room, inline_cells};
pub use tree::{Tree, TreeKind, TreeRef};
pub use value_cells::{cells, cells_by_ranges};
