//! The root of every accepted definition has a kind tree within all limits, and a default.
#![tactic(auto)]

ghost use Rattle.root_kinds.specs.Laws.{RootsHaveKinds, RootsHaveDefaults};
ghost use Rattle.root_kinds.specs.Laws.{RootsAreWithin, RootsAreAccepted, RootsHaveShortTexts};

/// The root of each definition that a text means is a struct, and its kind tree is within all limits. Its default is a
/// value of it.
pub fn roots_have_kinds()
    ensures kinds { RootsHaveKinds }
    ensures defaults { RootsHaveDefaults }
{}

/// The root of each definition that a text means meets what the laws of values ask of a type: it is a struct within the
/// limits of definitions, it is accepted, and its written texts are UTF-8 and of fewer than 2^31 bytes, where the text of
/// the definition has fewer.
pub fn roots_are_accepted()
    ensures within { RootsAreWithin }
    ensures accepted { RootsAreAccepted }
    ensures short { RootsHaveShortTexts }
{}
