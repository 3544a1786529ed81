//! The kinds of the types of definitions, and the defaults of their fields: where definitions and values meet.
#![tactic(auto)]

ghost use Rattle.type_kinds.specs.Laws.{TypesHaveKinds, DefaultsAreValues};

/// The kind tree of a type within the limits of definitions is within the limits of kind trees.
pub fn types_have_kinds()
    ensures { TypesHaveKinds }
{}

/// The default of an accepted type is a value of its kinds, where each text has fewer than 2^31 bytes.
pub fn defaults_are_values()
    ensures { DefaultsAreValues }
{}
