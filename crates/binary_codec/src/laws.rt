//! The laws of encodings.

ghost use Rattle.binary_codec.specs.BinaryLaws.{BinaryIsSpelled, BinaryDecodes};

/// What `encode_binary` writes of a value of a struct's type, within the limits of definitions, spells the value's
/// wire tree. No level is above 32, since no type is deeper, so that the 64 levels of the wire are never passed.
pub fn binary_is_spelled()
    ensures { BinaryIsSpelled }
{}

/// Where the value's cells are within the limit, it is decoded to this value and to no other.
pub fn binary_decodes()
    ensures { BinaryDecodes }
{}
