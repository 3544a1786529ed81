//! What trees that stand in order are joined to.

/// A list, a set or a map.
#[derive(Clone, Copy)]
pub enum Joined {
    List,
    Set,
    Map,
}
