//! Laws of the grammar.

ghost use Rattle.std.specs.Prelude.{◌≡◌, List, [], ℕ, ℤ, ◌++◌};
ghost use Rattle.compact_wire.specs.Number.{zigzag, unzigzag};
ghost use Rattle.compact_wire.specs.Node.{Node};
ghost use Rattle.compact_wire.specs.Spells.{SpellsWire};
ghost use Rattle.compact_wire.specs.Canon.{canon, FitsWire};

/// No spelling is a proper prefix of another.
pub fn spelling_is_prefix_free()
    ensures { (v w : Node) (s rest : List ℕ) → SpellsWire v s → SpellsWire w (s ++ rest) → rest ≡ [] }
{}

/// Bytes spell one struct at most.
pub fn spelling_is_unique()
    ensures { (v w : Node) (s : List ℕ) → SpellsWire v s → SpellsWire w s → v ≡ w }
{}

/// What has a spelling has the canonical one.
pub fn canon_spells()
    ensures { (w : Node) → FitsWire w → SpellsWire w (canon w) }
{}

/// Zigzag numbers and signed numbers stand for one another, one for one.
pub fn zigzag_is_inverse()
    ensures signed { (x : ℤ) → unzigzag (zigzag x) ≡ x }
    ensures unsigned { (n : ℕ) → zigzag (unzigzag n) ≡ n }
{}
