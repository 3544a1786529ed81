//! Reading a frozen file under a definition of one's own: binding, projection, and the parts at paths.
#![tactic(auto)]

mod binding;
mod fault;
mod items;
mod laws;
mod lens;
mod nodes;
mod parts;
mod plan;
mod reading;
mod root;
mod row;
mod scanning;

pub use binding::bind;
pub use fault::BindFault;
pub use items::{LensItem, LensItems};
pub use laws::{
    binding_has_one_answer, lens_is_value, parts_are_values, plans_are_whole, projection_is_a_value,
};
pub use lens::{Lacked, Lens, Stored};
pub use plan::Plan;
pub use root::root_lens;
pub use row::{LensRow, StoredRow};
pub use scanning::{scan, scan_places};
