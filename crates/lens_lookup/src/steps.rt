//! The part at one step of a path.
ghost use Rattle.std.specs.Prelude.{◌≡◌, ◌+◌, ◌≤◌, option_map};
ghost use Rattle.path_text.specs.Steps.{PathStep, field_step, index_step, key_step};
ghost use Rattle.path_text.specs.Views.{key_of_literal, step_of_kind};
ghost use Rattle.evolve.specs.Costs.{step_cost};
ghost use Rattle.evolve.specs.Lenses.{type_of_lens, value_of_lens};
ghost use Rattle.evolve.specs.Parts.{step_at};
ghost use Rattle.lens_lookup.specs.TypedParts.{typed_of_lens};
ghost use Rattle.lens_lookup.specs.FoundSteps.{found_at, step_found, IsOwn};

use crate::fitted::FittedStep;
use crate::keys::LensKeys;
use evolve::Lens;
use fz_base::Steps;
use key_lookup::search;
use path_text::{KeyLit, StepKind};
use std::sync::ledger::Ledger;
use thrift_idl::TypeKind;

// What a field of this name has.
fn part_in_field<'a>(from: Lens<'a>, name: &str) -> Option<Lens<'a>>
    ensures { option_map typed_of_lens result
        ≡ step_at (field_step name.now) (type_of_lens from.entry) (value_of_lens from.entry) }
{
    let ty = from.ty();
    match ty.kind() {
        TypeKind::Struct => match ty.field_named(name) {
            Some(field) => from.part(field),
            None => None,
        },
        _ => None,
    }
}

// The item of a list at this place, from 0.
fn part_at_index<'a>(from: Lens<'a>, place: u64) -> Option<Lens<'a>>
    ensures { option_map typed_of_lens result
        ≡ step_at (index_step place) (type_of_lens from.entry) (value_of_lens from.entry) }
{
    match from.kind() {
        TypeKind::List => {
            if place < from.len() {
                Some(from.item(place))
            } else {
                None
            }
        }
        _ => None,
    }
}

// The item of a set that this key is, or the value that a map has at it.
fn part_at_key<'a, L: Ledger>(
    from: Lens<'a>,
    key: &KeyLit,
    steps: &mut Steps<L>,
) -> Option<Lens<'a>>
    ensures part { option_map typed_of_lens result
        ≡ step_at (key_step (key_of_literal key.now)) (type_of_lens from.entry) (value_of_lens from.entry) }
    ensures cost { steps.new ≤ steps.old
        + step_cost (key_step (key_of_literal key.now)) (value_of_lens from.entry) }
{
    match from.kind() {
        TypeKind::Set => match search(&LensKeys::of_set(from), key, steps) {
            Some(place) => Some(from.item(place)),
            None => None,
        },
        TypeKind::Map => match search(&LensKeys::of_map(from), key, steps) {
            Some(place) => Some(from.entry(place).1),
            None => None,
        },
        _ => None,
    }
}

/// The part at a step. `None` where there is none.
pub(crate) fn part_at<'a, L: Ledger>(
    from: Lens<'a>,
    step: &StepKind,
    steps: &mut Steps<L>,
) -> Option<Lens<'a>>
    ensures part { option_map typed_of_lens result
        ≡ step_at (step_of_kind step.now) (type_of_lens from.entry) (value_of_lens from.entry) }
    ensures cost { steps.new ≤ steps.old + step_cost (step_of_kind step.now) (value_of_lens from.entry) }
{
    match step {
        StepKind::Field(name) => part_in_field(from, name.as_str()),
        StepKind::Index(place) => part_at_index(from, *place),
        StepKind::Key(key) => part_at_key(from, key, steps),
    }
}

/// The part at a fitted step that is of the lens's type. `None` where there is none.
pub(crate) fn part_at_fitted<'a, L: Ledger>(
    from: Lens<'a>,
    step: FittedStep<'a>,
    steps: &mut Steps<L>,
) -> Option<Lens<'a>>
    requires { IsOwn (type_of_lens from) step }
    ensures part { (p : PathStep) → step_found step.entry ≡ found_at (type_of_lens from.entry) p
        → option_map typed_of_lens result ≡ step_at p (type_of_lens from.entry) (value_of_lens from.entry) }
    ensures cost { (p : PathStep) → step_found step.entry ≡ found_at (type_of_lens from.entry) p
        → steps.new ≤ steps.old + step_cost p (value_of_lens from.entry) }
{
    match step {
        FittedStep::Field(field) => from.part(field),
        FittedStep::At(kind) => part_at(from, kind, steps),
    }
}
