//! Laws of the grammar.

ghost use Rattle.std.specs.Prelude.{◌≡◌, List, [], ℕ, ◌++◌};
ghost use Rattle.compact_wire.specs.Node.{Node};
ghost use Rattle.compact_wire.specs.Canon.{FitsWire};
ghost use Rattle.binary_wire.specs.BinaryGrammar.{BinarySpells};

/// No spelling is a proper prefix of another.
pub fn binary_is_prefix_free()
    ensures { (v w : Node) (s rest : List ℕ) → BinarySpells v s → BinarySpells w (s ++ rest) → rest ≡ [] }
{}

/// Bytes spell one struct at most.
pub fn binary_is_unique()
    ensures { (v w : Node) (s : List ℕ) → BinarySpells v s → BinarySpells w s → v ≡ w }
{}

/// What has a spelling in Binary Protocol has one in Compact Protocol.
pub fn binary_fits_wire()
    ensures { (w : Node) (s : List ℕ) → BinarySpells w s → FitsWire w }
{}
