//! Definition texts in the interface definition language of Apache Thrift, and the types that they define.
#![tactic(auto)]

mod definition;
mod fault;
mod halving;
mod laws;
mod parsing;
mod parts;
mod refs;
mod root;

pub use definition::{DefaultRef, Definition, FieldRef, FieldRefs, TypeRef};
pub use fault::DefFault;
pub use idl_profile::{Need, TypeKind};
pub use laws::texts_have_one_answer;
pub use parsing::parse;
pub use parts::parts_of;
