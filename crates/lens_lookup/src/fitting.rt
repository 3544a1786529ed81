//! Fitting a path once for many lookups.
ghost use Rattle.std.specs.Prelude.{◌≡◌, IsOk, Ok};
ghost use Rattle.idl_profile.specs.Types.{root_of};
ghost use Rattle.idl_parse.specs.Parsed.{definition_of};
ghost use Rattle.idl_parse.specs.Refs.{type_of_ref};
ghost use Rattle.path_text.specs.Fitting.{step_to};
ghost use Rattle.path_text.specs.Views.{step_of_kind, path_of};
ghost use Rattle.lens_lookup.specs.FoundSteps.{found_at, step_found};
ghost use Rattle.lens_lookup.specs.FittedPaths.{IsFitting};

use crate::fitted::{FittedPath, FittedStep};
use path_text::{Path, PathFault, Step, StepKind, fit};
use std::alloc::Global;
use thrift_idl::{Definition, TypeKind, TypeRef};

// A step from a type that it fits, and the type that it leads to.
fn fit_step<'a>(from: TypeRef<'a>, step: &'a Step) -> (FittedStep<'a>, TypeRef<'a>)
    requires { IsOk (step_to step.now.place (step_of_kind step.now.kind) (type_of_ref from)) }
    ensures found { step_found result.0 ≡ found_at (type_of_ref from.entry) (step_of_kind step.now.kind) }
    ensures leads { step_to step.now.place (step_of_kind step.now.kind) (type_of_ref from.entry)
        ≡ Ok (type_of_ref result.1) }
{
    match &step.kind {
        StepKind::Field(name) => match from.field_named(name.as_str()) {
            Some(field) => (FittedStep::Field(field), field.ty()),
            None => unreachable!(),
        },
        StepKind::Index(_) => (FittedStep::At(&step.kind), from.element()),
        StepKind::Key(_) => match from.kind() {
            TypeKind::Set => (FittedStep::At(&step.kind), from.element()),
            TypeKind::Map => (FittedStep::At(&step.kind), from.value()),
            _ => unreachable!(),
        },
    }
}

/// A path fitted to the root of a definition, or its misfit, as `fit` of `path_text` tells it. It takes
/// memory for each step, and [`PathFault::NoMemory`] comes where there is not enough.
pub fn fit_path<'a>(
    alloc: Global,
    def: &'a Definition,
    path: &'a Path,
) -> Result<FittedPath<'a>, PathFault>
    ensures { IsFitting (root_of (definition_of def.now)) (path_of path.now) result }
{
    let to = fit(def, path)?;
    let root = def.root();
    let mut steps = Vec::with_capacity(alloc, path.steps.len())?;
    let mut reached = root;
    for step in &path.steps {
        let (found, next) = fit_step(reached, step);
        steps.push(found)?;
        reached = next;
    }
    Ok(FittedPath {
        root,
        to,
        path,
        steps,
    })
}
