//! A value as a tree, as it stands on the wire.

use sqlite_items::Items;

/// A value of the wire. The codes of a list, a set and a map are those of their elements, with 1 for both
/// codes of bool.
#[derive(Debug, Drop)]
pub enum Wire {
    Flag(bool),
    I8(i8),
    I16(i16),
    I32(i32),
    I64(i64),
    /// The eight bytes as they stand.
    Double([u8; 8]),
    Binary(Vec<u8>),
    List {
        code: u8,
        items: Items<Wire>,
    },
    Set {
        code: u8,
        items: Items<Wire>,
    },
    /// Without pairs both codes are 0.
    Map {
        key: u8,
        value: u8,
        pairs: Items<(Wire, Wire)>,
    },
    /// The fields with their ids, in the order in which they stand.
    Struct(Items<(i16, Wire)>),
}
