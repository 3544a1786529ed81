//! The laws of binding, projection and lenses: each is a public function without a result, whose contract is
//! the law.

ghost use Rattle.std.specs.Str.{IsUtf8};
ghost use Rattle.frozen_model.specs.Values.{Of};
ghost use Rattle.type_kinds.specs.KindsOf.{kinds_of};
ghost use Rattle.type_kinds.specs.Accepted.{IsAccepted, HasShortTexts};
ghost use Rattle.evolve.specs.Lenses.{type_of_lens, value_of_lens};
ghost use Rattle.evolve.specs.Laws.{BindingHasOneAnswer, OwnKindsBind, PartsAreValues, PlansAreWhole};
ghost use Rattle.evolve.specs.Laws.{ProjectionIsAValue, ProjectionIsItself};

use crate::lens::Lens;

/// A definition binds to a layout exactly where none of its nodes fails to. It binds to each layout of its
/// own kinds.
pub fn binding_has_one_answer()
    ensures one { BindingHasOneAnswer }
    ensures own { OwnKindsBind }
{}

/// The projection of a value of a layout is a value of the type that binds to it. Where the kinds are equal,
/// it is the value itself.
pub fn projection_is_a_value()
    ensures formed { ProjectionIsAValue }
    ensures same { ProjectionIsItself }
{}

/// The part of a value at a path that fits its type is a value of the type to which the path leads.
pub fn parts_are_values()
    ensures { PartsAreValues }
{}

/// Where a type binds to a layout, each of its nodes stands for one of the layout's, or for none.
pub fn plans_are_whole()
    ensures { PlansAreWhole }
{}

/// A lens stands for a value of its type, which is a type of an accepted definition.
pub fn lens_is_value(from: Lens<'_>)
    ensures value { ∥ Of (kinds_of (type_of_lens from.entry)) (value_of_lens from.entry) ∥₁ }
    ensures accepted { ∥ IsAccepted IsUtf8 (type_of_lens from.entry) ∥₁ }
    ensures short { ∥ HasShortTexts (type_of_lens from.entry) ∥₁ }
{}
