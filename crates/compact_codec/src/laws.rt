//! The laws of encodings.

ghost use Rattle.compact_codec.specs.Laws.{EncodingIsSpelled, EncodingIsTyped, EncodingIsReadBack};
ghost use Rattle.compact_codec.specs.Laws.{EncodingDecodes};

/// The wire tree of a value of a struct's type, within the limits of definitions, has a spelling, and so
/// the canonical one that `encode` writes; no node of it is faulty, and its value is the one that was
/// written, so that reading what `encode` writes gives this value and no other. No level is above 32, since
/// no type is deeper, so that the 64 levels of the wire are never passed.
pub fn encoding_is_typed()
    ensures spelled { EncodingIsSpelled }
    ensures typed { EncodingIsTyped }
    ensures back { EncodingIsReadBack }
{}

/// What `encode` writes of a value of a struct's type, within the limits of definitions and of cells, is
/// decoded to this value and to no other.
pub fn encoding_decodes()
    ensures { EncodingDecodes }
{}
