//! How far a check has come.

/// The byte where the next block must begin, and the cells so far.
#[derive(Clone, Copy)]
pub(crate) struct Reach {
    pub(crate) next: u64,
    pub(crate) cells: u64,
}
