//! Readers on lists that are exact for a grammar, and how they are put together.
#![tactic(auto)]

mod laws;
mod stop;

pub use laws::{
    Grammar, answers_have_causes, causes_exclude_each_other, texts_are_prefix_free,
    texts_are_unique,
};
pub use stop::{ReadError, Stop};
