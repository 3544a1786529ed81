//! The laws of typed reading: public functions without a result, each with the law as its contract.

ghost use Rattle.std.specs.Prelude.{ℕ, List};
ghost use Rattle.compact_wire.specs.Node.{Node};
ghost use Rattle.compact_wire.specs.Spells.{SpellsWire};
ghost use Rattle.idl_profile.specs.Types.{TypeTree};
ghost use Rattle.typed_reading.specs.declared.fault.Found.{Found};
ghost use Rattle.typed_reading.specs.Faults.{LeastIsLeast};
ghost use Rattle.typed_reading.specs.Laws.{IsToldByFaulty, TypedIsValue};

/// The least fault is among the faults, and none of them has a lesser node, or a lesser number at the same node. Where
/// there is no least fault, there is none.
pub fn least_fault_is_least()
    ensures { (fs : List Found) → LeastIsLeast fs }
{}

/// The fault that `find_fault` and `check` answer is that of the least faulty node of the tree that the bytes spell, and
/// there the one of the least number. Where they answer none, no node is faulty.
pub fn least_faulty_node_is_answered()
    ensures { (t : TypeTree) (bytes : List ℕ) (w : Node) → SpellsWire w bytes → IsToldByFaulty t bytes w }
{}

/// What a spelled tree with no fault is read as is a value of its type, where that is one of an accepted definition whose
/// written texts have fewer than 2^31 bytes.
pub fn typed_is_a_value()
    ensures { TypedIsValue }
{}
